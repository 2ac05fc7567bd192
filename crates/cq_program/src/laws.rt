ghost use Rattle.cq_program.specs.Agreeing.{AskedAsRun};
ghost use Rattle.cq_program.specs.Complete.{AsksComplete, ExportsComplete, ListensComplete, MadeComplete, ScriptsComplete, SessionsBesideComplete, SessionsComplete};

use cq_export::a_written_version_answers_as_a_session_beside;
use cq_io::{Sink, Source};
use std::sync::ledger::Ledger;

/// If no count of faults rose, and fewer bytes came than may be read, whatever meets the clauses of `top` is done, unless
/// memory was refused.
pub fn a_command_that_nothing_fails_is_done()
    ensures sessions { SessionsComplete }
    ensures beside { SessionsBesideComplete }
    ensures scripts { ScriptsComplete }
    ensures made { MadeComplete }
    ensures listens { ListensComplete }
{}

/// If no count of faults rose, and fewer bytes came than may be read, what meets the clause of `top` on `ask` is done, unless
/// the bytes begin with no token file or memory was refused.
pub fn a_kept_version_that_nothing_fails_is_asked<S: Source, K: Sink, L: Ledger>()
    ensures { AsksComplete L S.Source K.Sink }
{}

/// If no count of faults rose, and fewer bytes came than may be read, what meets the clause of `top` on `export` is done,
/// unless a line is no change that is accepted, the file would be too large, or memory was refused.
pub fn a_version_that_nothing_fails_is_written<S: Source, K: Sink, L: Ledger>()
    ensures { ExportsComplete L S.Source K.Sink }
{}

/// If `export`, `ask` and `run` meet the clauses of `top` and are done, under the same settings: what `ask` writes for the file
/// that `export` wrote for some changes, and questions after it, is what `run` writes for these questions after these changes,
/// unless a reply reports that memory was refused. `run` may have any number of workers, and none.
pub fn what_was_exported_is_asked_as_run<S: Source, K: Sink, L: Ledger>()
    ensures { AskedAsRun L S.Source K.Sink }
{
    // the law over the replies, from which this one over the bytes follows
    a_written_version_answers_as_a_session_beside::<L>();
}
