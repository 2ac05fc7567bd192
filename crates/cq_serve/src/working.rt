ghost use Rattle.std.specs.Prelude.{◌≡◌};
ghost use Rattle.cq_base.specs.Settings.{IsInRange};
ghost use Rattle.cq_hub.specs.Hubs.{IsPassOf};
ghost use Rattle.cq_serve.specs.Labours.{HasLaboured};

use crate::answers::Turn;
use crate::bell::Bell;
use crate::taking::turn;
use cq_hub::Hub;
use cq_io::Gate;
use cq_session::{Keeper, Server};
use cq_work::Work;
use std::sync::Wait;
use std::sync::ledger::Ledger;

// Sleeps if no change could be taken, or no work made.
fn rest<Q: Wait>(rt: &Q, bell: &Bell, heard: u64, came: Turn) {
    match came {
        Turn::Worked(_) => {}
        Turn::Late(_) => {}
        Turn::Idle => bell.sleep(rt, heard),
        Turn::GaveBack(_) => bell.sleep(rt, heard),
        Turn::Memory => bell.sleep(rt, heard),
    }
}

/// A worker: takes turns until the bell's end. If there is no change to take, or no memory, it sleeps until the bell
/// rings.
pub fn work<Q: Wait, L: Ledger, H: Hub<Work<L>>, P: Keeper<Work<L>, H>, G: Gate>(
    server: &Server<'_, Q, H, P, G>,
    pass: H::Pass,
    bell: &Bell,
) -> H::Pass
    requires in_range { IsInRange server.now.keyer.now.settings }
    requires hub_settings { H.settings server.now.hub.now ≡ server.now.keyer.now.settings }
    requires stands { IsPassOf H.Stands server.now.hub.now pass }
    ensures labours { HasLaboured H.Hub server.now.hub.now pass result }
    ensures asked { H.asked result ≡ H.asked pass }
{
    let mut pass = pass;
    let rt = server.rt;
    'turns: for _ in rt.forever() {
        let Some(heard) = bell.heard(rt) else {
            break;
        };
        let came = turn(server, &mut pass);
        rest(rt, bell, heard, came);
    }
    pass
}
