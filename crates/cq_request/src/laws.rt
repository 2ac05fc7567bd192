ghost use Rattle.cq_request.specs.Named.{ChangesAreNamed};

/// Each change that a line says is of a project, and its path is that of a file.
pub fn changes_are_named()
    ensures { ChangesAreNamed }
{}
