ghost use Rattle.cq_shorten.specs.Needed.{WhatIsNeededLeavesTheSame};
ghost use Rattle.cq_shorten.specs.Shortened.{AShortLogIsALog};
ghost use Rattle.cq_shorten.specs.Worked.{IsNeededAsWorkedOut};

/// The changes that the last version needs leave, in every project, files with the same paths, languages and texts, and the
/// same conditions.
pub fn what_is_needed_leaves_the_same()
    ensures { WhatIsNeededLeavesTheSame }
{}

/// What is needed of changes that were worked out by hand is what it should be.
pub fn it_is_needed_as_worked_out()
    ensures { IsNeededAsWorkedOut }
{}

/// The lines that are written are a log, which holds just the changes that were needed.
pub fn a_short_log_is_a_log()
    ensures { AShortLogIsALog }
{}
