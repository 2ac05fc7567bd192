ghost use Rattle.cq_base.specs.Tables.{AreReadBack};

/// Each language, metric and comparison is found by its code and by its name, and each class by its code. What is found has
/// that code or name.
pub fn tables_are_read_back()
    ensures { AreReadBack }
{}
