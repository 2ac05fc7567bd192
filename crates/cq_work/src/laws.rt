ghost use Rattle.cq_work.specs.Bounds.{WorksAreBounded};

use std::sync::ledger::Ledger;

/// The work of a text of UTF-8 of at most 1,048,576 bytes is within its bounds: its tokens and functions lie within the
/// lines of the text and are spelled in UTF-8, and what is counted is no more than there is of it.
pub fn works_are_bounded<L: Ledger>()
    ensures { WorksAreBounded L }
{}
