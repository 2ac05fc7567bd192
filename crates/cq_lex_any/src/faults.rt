ghost use Rattle.cq_lex_any.specs.Faults.{NoTextIsAFault};

/// No text of this language has a fault: one of its elements is at each place.
pub fn no_text_is_a_fault()
    ensures { NoTextIsAFault }
{}
