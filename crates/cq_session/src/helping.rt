ghost use Rattle.std.specs.Prelude.{◌≡◌, OnOk, OnErr};
ghost use Rattle.cq_base.specs.Settings.{IsInRange};
ghost use Rattle.cq_talk.specs.Steps.{Always};
ghost use Rattle.cq_session.specs.Passes.{HasChange, HasDone, HasDoneSome, HasDoneUpTo, HasHelped, MayHelp};

use crate::Server;
use cq_base::Memory;
use cq_board::Finished;
use cq_hub::Hub;
use cq_io::Gate;
use cq_work::{Work, work_for};
use std::sync::ledger::Ledger;

// Does the work of a change unless it is done already.
fn help_one<R, L: Ledger, H: Hub<Work<L>>, P, G: Gate>(
    server: &Server<'_, R, H, P, G>,
    change: u64,
    pass: &mut H::Pass,
) -> Result<(), Memory>
    requires in_range { IsInRange server.now.keyer.now.settings }
    requires hub_settings { H.settings server.now.hub.now ≡ server.now.keyer.now.settings }
    requires accepted { HasChange H.Hub server.now.hub.now pass.old change }
    ensures done { OnOk result (HasDone H.Hub server.now.hub.now pass.old pass.new change) }
    ensures refused { OnErr result
        (HasHelped H.Hub server.now.hub.now pass.old pass.new Always change Always) }
    ensures asked { H.asked pass.new ≡ H.asked pass.old }
{
    match server.hub.job(change, pass) {
        Err(Memory) => Err(Memory),
        Ok(None) => Ok(()),
        Ok(Some(job)) => {
            server.gate.before_work(change);
            match work_for(server.alloc, server.keyer, job.lang, &job.text) {
                Err(Memory) => Err(Memory),
                Ok(work) => match server.hub.finish(change, work, pass) {
                    Finished::Done => Ok(()),
                    Finished::Already => Ok(()),
                },
            }
        }
    }
}

// How many works are done in a row from the last one down.
const BLOCK: u64 = 64;

// Does the works of the changes after the first `done`, whose works are done, up to the change with the number `to`, the
// last one first.
fn help_down<R, L: Ledger, H: Hub<Work<L>>, P, G: Gate>(
    server: &Server<'_, R, H, P, G>,
    done: u64,
    to: u64,
    pass: &mut H::Pass,
) -> Result<(), Memory>
    requires in_range { IsInRange server.now.keyer.now.settings }
    requires hub_settings { H.settings server.now.hub.now ≡ server.now.keyer.now.settings }
    requires accepted { MayHelp H.Hub server.now.hub.now pass.old done to }
    ensures done { OnOk result (HasDoneUpTo H.Hub server.now.hub.now pass.old pass.new done to) }
    ensures refused { OnErr result
        (HasDoneSome H.Hub server.now.hub.now pass.old pass.new done to) }
    ensures asked { H.asked pass.new ≡ H.asked pass.old }
{
    let mut left = to;
    'changes: while left > done {
        match help_one(server, left, pass) {
            Ok(()) => {}
            Err(Memory) => return Err(Memory),
        }
        left -= 1;
    }
    Ok(())
}

/// Does the works of the changes after the first `done`, whose works are done, up to the change with the number `to`. Each
/// costs what `work_of` does, unless it is done by then. Of some changes in a row the last one is done first: workers
/// begin with the first one, so few are done twice.
pub(crate) fn help<R, L: Ledger, H: Hub<Work<L>>, P, G: Gate>(
    server: &Server<'_, R, H, P, G>,
    done: u64,
    to: u64,
    pass: &mut H::Pass,
) -> Result<(), Memory>
    requires in_range { IsInRange server.now.keyer.now.settings }
    requires hub_settings { H.settings server.now.hub.now ≡ server.now.keyer.now.settings }
    requires accepted { MayHelp H.Hub server.now.hub.now pass.old done to }
    ensures done { OnOk result (HasDoneUpTo H.Hub server.now.hub.now pass.old pass.new done to) }
    ensures refused { OnErr result
        (HasDoneSome H.Hub server.now.hub.now pass.old pass.new done to) }
    ensures asked { H.asked pass.new ≡ H.asked pass.old }
{
    let mut from = done;
    'rounds: while from < to {
        let until = to.min(from.saturating_add(BLOCK));
        match help_down(server, from, until, pass) {
            Ok(()) => {}
            Err(Memory) => return Err(Memory),
        }
        from = until;
    }
    Ok(())
}
