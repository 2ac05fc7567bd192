ghost use Rattle.std.specs.Prelude.{OnOk};
ghost use Rattle.cq_base.specs.Settings.{IsInRange};
ghost use Rattle.cq_export.specs.Boards.{AreMade, Holds, IsMade};
ghost use Rattle.cq_history.specs.State.{IsAccepted};

use cq_base::Memory;
use cq_board::{Board, Finished};
use cq_work::{Keyer, Work, work_for};
use std::alloc::Global;
use std::sync::ledger::Ledger;

// The work of a change is done.
fn make_one<L: Ledger>(
    alloc: Global,
    keyer: &Keyer,
    board: &mut Board<Work<L>>,
    change: u64,
) -> Result<(), Memory>
    requires in_range { IsInRange keyer.now.settings }
    requires holds { Holds keyer.now.settings board.old }
    requires there { IsAccepted board.old.state change }
    ensures { OnOk result (IsMade keyer.now.settings change board.old board.new) }
{
    match board.job(change) {
        Err(Memory) => Err(Memory),
        Ok(None) => Ok(()),
        Ok(Some(job)) => match work_for(alloc, keyer, job.lang, &job.text) {
            Err(Memory) => Err(Memory),
            Ok(work) => match board.done(0, change, work) {
                Finished::Done => Ok(()),
                Finished::Already => Ok(()),
            },
        },
    }
}

/// The works of all accepted changes are done. Each costs what `work_of` does.
pub(crate) fn make_all<L: Ledger>(
    alloc: Global,
    keyer: &Keyer,
    board: &mut Board<Work<L>>,
) -> Result<(), Memory>
    requires in_range { IsInRange keyer.now.settings }
    requires holds { Holds keyer.now.settings board.old }
    ensures { OnOk result (AreMade keyer.now.settings board.old board.new) }
{
    let asked = board.ask(0);
    'changes: for i in asked.done..asked.accepted {
        match make_one(alloc, keyer, board, i + 1) {
            Ok(()) => {}
            Err(Memory) => return Err(Memory),
        }
    }
    Ok(())
}
