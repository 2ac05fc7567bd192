ghost use Rattle.std.specs.Prelude.{◌≡◌, ◌≤◌, IsSome, IfOk, OnErr};
ghost use Rattle.cq_base.specs.Settings.{IsInRange};
ghost use Rattle.cq_listen.specs.Endings.{HasEnded, IsServedWith};
ghost use Rattle.cq_program.specs.Statuses.{HasListened, HasServed};

use crate::host::Host;
use crate::status::{Exit, Status, status_of_served};
use cq_base::{Counters, Memory, Settings};
use cq_chain::Pass;
use cq_io::{Doors, Failed, Gate, Sink, Source};
use cq_listen::{Floor, Served, serve};
use cq_session::NoLog;
use cq_shared::Shared;
use cq_words::Listen;
use cq_work::Work;
use std::marker::Brand;
use std::sync::Wait;
use std::sync::ledger::{Blank, Ledger};
use std::thread::Threads;

// Serves the connections of doors that are bound, over a shared hub that is made for them.
fn serve_clients<
    Q: Threads + Wait + Sync,
    L: Ledger + Send + Sync,
    I: Source + Send + Drop,
    O: Sink + Send + Drop,
    D: Doors<In = I, Out = O>,
    G: Gate + Sync,
>(
    host: &Host<'_, Q, G>,
    settings: Settings,
    doors: &mut D,
    workers: u32,
    sessions: u32,
    blank: Blank,
) -> Result<Served, Memory>
    requires name { blank.name ≡ L.name }
    requires parts { blank.parts ≡ L.parts }
    requires in_range { IsInRange settings }
    requires bound { IsSome (D.bound doors.old) }
    requires workers { workers ≤ 64 }
    requires sessions { sessions ≤ 64 }
    ensures ended { IfOk result (λ served. HasEnded (D.faults doors.old) (D.faults doors.new)
        (D.left doors.old) (D.left doors.new) served.failed) }
    ensures made { IfOk result (IsServedWith settings workers sessions) }
    ensures refused { OnErr result (doors.new ≡ doors.old) }
    ensures bound { D.bound doors.new ≡ D.bound doors.old }
{
    let counters: Counters<L> = Counters::new(blank);
    // One caller is the calling thread's, one each session's, and one each worker's.
    let callers = workers + sessions + 1;
    let made: (Shared<Work<L>, &Q>, Pass<Work<L>>) = Shared::new(
        host.rt, host.alloc, &settings, callers,
    )?;
    let (hub, pass) = made;
    let floor = Floor {
        alloc: host.alloc,
        settings: &settings,
        counters: &counters,
        hub: &hub,
        keeper: &NoLog,
        gate: host.gate,
    };
    serve(host.rt, &floor, pass, doors, workers, sessions)
}

/// Listens at the address, and serves the connections that come until no more will, on as many threads as there are to be
/// sessions, with workers beside them. A call of the doors also failed if the address can't be bound. Memory is refused only
/// before a door is asked for.
pub(crate) fn listen<
    Q: Threads + Wait + Sync,
    I: Source + Send + Drop,
    O: Sink + Send + Drop,
    D: Doors<In = I, Out = O>,
    G: Gate + Sync,
>(host: &Host<'_, Q, G>, asked: Listen, doors: &mut D) -> Exit
    requires in_range { IsInRange asked.settings }
    requires workers { asked.workers ≤ 64 }
    requires sessions { asked.sessions ≤ 64 }
    ensures listens { HasListened asked.address
        (D.bound doors.new) (D.left doors.old) (D.left doors.new)
        (D.faults doors.old) (D.faults doors.new) result.status }
    ensures served { HasServed asked (D.bound doors.old) (D.bound doors.new)
        result.status result.served }
{
    let Listen {
        settings,
        address,
        workers,
        sessions,
        connections: _,
    } = asked;
    match doors.bind(address) {
        Ok(()) => match serve_clients::<Q, Brand, I, O, D, G>(
            host,
            settings,
            doors,
            workers,
            sessions,
            Blank::new(1),
        ) {
            Ok(served) => Exit {
                status: status_of_served(served),
                served: Some(served),
            },
            Err(Memory) => Exit {
                status: Status::Memory,
                served: None,
            },
        },
        Err(Failed) => Exit {
            status: Status::DoorsFault,
            served: None,
        },
    }
}
