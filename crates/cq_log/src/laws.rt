ghost use Rattle.cq_log.specs.Laws.{ALogGrows, ARestartIsTheSame, MendingChangesNothing, MendingMends};
ghost use Rattle.cq_log.specs.Worked.{EndsAsWorkedOut, TheyHoldAsWorkedOut};

/// Lines that come first hold the first of the changes. So a change keeps its number as a log grows, and whoever reads a log
/// that is still written is right about what it has read.
pub fn a_log_grows()
    ensures { ALogGrows }
{}

/// With its mending a log holds what it held, and ends with a whole line.
pub fn mending_mends()
    ensures { MendingMends }
{}

/// After each byte of its mending, too, a log holds what it held.
pub fn mending_changes_nothing()
    ensures { MendingChangesNothing }
{}

/// A log, its mending and the lines of later changes hold the changes of both, so a server that is started again has the same
/// changes under the same numbers.
pub fn a_restart_is_the_same()
    ensures { ARestartIsTheSame }
{}

/// The ends of logs that were worked out by hand are what they should be.
pub fn they_end_as_worked_out()
    ensures { EndsAsWorkedOut }
{}

/// And so is what logs hold that were worked out by hand.
pub fn they_hold_as_worked_out()
    ensures { TheyHoldAsWorkedOut }
{}
