ghost use Rattle.std.specs.Prelude.{◌≡◌};
ghost use Rattle.cq_base.specs.Settings.{IsInRange};
ghost use Rattle.cq_hub.specs.Hubs.{IsPassOf};
ghost use Rattle.cq_serve.specs.Turns.{HasAsked, HasTurned};

use crate::answers::Turn;
use cq_base::Memory;
use cq_board::Finished;
use cq_hub::Hub;
use cq_io::Gate;
use cq_session::{Keeper, Server};
use cq_work::{Work, work_for};
use std::sync::ledger::Ledger;

// Publishes what is done, if there is memory for it. Once a line could not be kept, it only asks: a version may then have a
// change whose line is not kept.
fn publish_done<R, L: Ledger, H: Hub<Work<L>>, P: Keeper<Work<L>, H>, G: Gate>(
    server: &Server<'_, R, H, P, G>,
    pass: &mut H::Pass,
)
    requires stands { IsPassOf H.Stands server.now.hub.now pass.old }
    ensures asks { HasAsked H.Hub server.now.hub.now pass.old pass.new }
    ensures asked { H.asked pass.new ≡ H.asked pass.old }
{
    let Some(asked) = server.keeper.ask(server.hub, pass) else {
        let _asked = server.hub.ask(pass);
        return;
    };
    match server
        .hub
        .advance(server.alloc, asked.done, server.gate, pass)
    {
        Ok(_version) => {}
        Err(Memory) => {}
    }
}

/// A worker's turn: takes the first change that is neither done nor taken, makes its work, and publishes what is done
/// then, if there is memory for that. If there is none to make the work, the change is given back. It costs what
/// `work_of` does for the change's text, and what it costs to apply the works that are done.
pub fn turn<R, L: Ledger, H: Hub<Work<L>>, P: Keeper<Work<L>, H>, G: Gate>(
    server: &Server<'_, R, H, P, G>,
    pass: &mut H::Pass,
) -> Turn
    requires in_range { IsInRange server.now.keyer.now.settings }
    requires hub_settings { H.settings server.now.hub.now ≡ server.now.keyer.now.settings }
    requires stands { IsPassOf H.Stands server.now.hub.now pass.old }
    ensures turned { HasTurned H.Hub server.now.hub.now pass.old pass.new result }
    ensures asked { H.asked pass.new ≡ H.asked pass.old }
{
    match server.hub.take(pass) {
        Err(Memory) => Turn::Memory,
        Ok(None) => Turn::Idle,
        Ok(Some(job)) => {
            server.gate.before_work(job.change);
            match work_for(server.alloc, server.keyer, job.lang, &job.text) {
                Err(Memory) => {
                    let _given = server.hub.back(job.change, pass);
                    publish_done(server, pass);
                    Turn::GaveBack(job.change)
                }
                Ok(work) => match server.hub.finish(job.change, work, pass) {
                    Finished::Done => {
                        publish_done(server, pass);
                        Turn::Worked(job.change)
                    }
                    Finished::Already => {
                        publish_done(server, pass);
                        Turn::Late(job.change)
                    }
                },
            }
        }
    }
}
