//! What the definition of a script comes to, for those who read it.
ghost use Rattle.cq_drive.specs.Worked.{AreAsWorkedOut};

/// Steps that were worked out by hand come to what they should.
pub fn the_steps_are_as_worked_out()
    ensures { AreAsWorkedOut }
{}
