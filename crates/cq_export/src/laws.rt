ghost use Rattle.cq_export.specs.Beside as beside;
ghost use Rattle.cq_export.specs.Laws as law;

use cq_tokask::a_kept_version_answers_as_its_changes;
use std::sync::ledger::Ledger;

/// What is asked of the token file of the version that some lines make has the replies that the only session of a server
/// gives after these lines, if no reply reports out of memory.
pub fn a_written_version_answers_as_a_session<L: Ledger>()
    ensures { law.AsksAsASession L }
{
    // the law that this one rests on
    a_kept_version_answers_as_its_changes::<L>();
}

/// A session with workers beside it replies with the numbers of the changes that some lines say, and then with the replies
/// that the token file of their version gives, if no reply reports out of memory.
pub fn a_written_version_answers_as_a_session_beside<L: Ledger>()
    ensures { beside.AsksAsBeside L }
{
    // the law that this one rests on
    a_kept_version_answers_as_its_changes::<L>();
}
