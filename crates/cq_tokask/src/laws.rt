ghost use Rattle.cq_tokask.specs.Exported.{AnswersAsItsChanges};

use std::sync::ledger::Ledger;

/// A snapshot of the version of some changes answers a query on its project as these changes do.
pub fn a_kept_version_answers_as_its_changes<L: Ledger>()
    ensures { AnswersAsItsChanges L }
{}
