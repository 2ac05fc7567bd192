ghost use Rattle.std.specs.Prelude.{◌≡◌, ◌+◌, ◌≤◌, vec_len, All, IsSome, IfOk, OnErr};
ghost use Rattle.cq_base.specs.Settings.{IsInRange};
ghost use Rattle.cq_shared.specs.SharedPasses.{settings_of};
ghost use Rattle.cq_listen.specs.Endings.{HasEnded, IsServedWith};
ghost use Rattle.cq_listen.specs.Seats.{AreSetTo, IsIdle};

use crate::benches::benches_of;
use crate::connection::Connection;
use crate::doorway::Doorway;
use crate::floor::Floor;
use crate::passes::passes_of;
use crate::queue::Queue;
use crate::seats::{Seat, seats_of};
use crate::sessions::Attendant;
use crate::workers::{Staff, Worker, serve_beside_workers};
use cq_base::{Memory, Settings};
use cq_chain::Pass;
use cq_io::{Doors, Gate, Sink, Source};
use cq_serve::{Bell, RingingGate};
use cq_session::{Keeper, NoLog};
use cq_shard::Indexed;
use cq_shared::Shared;
use cq_work::{Keyer, Work};
use std::sync::Wait;
use std::sync::ledger::Ledger;
use std::thread::Threads;

/// How the serving of connections ended, and what it was done with.
#[derive(Clone, Copy, Debug, PartialEq, Eq)]
pub struct Served {
    /// A call of the doors failed. If none did, no more connections will come.
    pub failed: bool,
    /// The settings by which lines were answered and works made.
    pub settings: Settings,
    /// How many workers there were.
    pub workers: usize,
    /// How many connections could be served at the same time.
    pub sessions: usize,
}

// Does nothing: by this use, the borrow checker ties the doors to the parameter that lent them.
fn take_back<D>(doors: &mut D)
    ensures { doors.new ≡ doors.old }
{}

// Serves what is left in a queue that no thread uses any more. Threads of sessions leave nothing there.
fn serve_rest<Q: Threads + Sync, C, N: Attendant<C> + Drop>(
    rt: &Q,
    keyer: &Keyer,
    attendant: N,
    queue: Queue<C>,
)
    requires { N.settings attendant ≡ keyer.now.settings }
{
    let mut attendant = attendant;
    let mut rest = queue.into_waiting();
    'rest: while let Some(connection) = rest.pop_front() {
        attendant.attend(rt, keyer, connection);
    }
    rest.destroy_empty();
}

// Serves what comes by the doors, and says how that ended.
fn serve_doors<
    Q: Threads + Wait + Sync,
    S: Source + Send,
    K: Sink + Send,
    D: Doors<In = S, Out = K>,
    M: Worker + Send + Drop,
    N: Attendant<Connection<S, K>> + Send + Drop,
>(
    rt: &Q,
    keyer: &Keyer,
    staff: Staff<'_, M, N>,
    queue: Queue<Connection<S, K>>,
    doors: &mut D,
) -> Served
    requires workers { AreSetTo M.settings keyer.now.settings staff.workers.items }
    requires attendants { AreSetTo N.settings keyer.now.settings staff.attendants.items }
    requires own { N.settings staff.own ≡ keyer.now.settings }
    requires bound { IsSome (D.bound doors.old) }
    ensures ended { HasEnded (D.faults doors.old) (D.faults doors.new)
        (D.left doors.old) (D.left doors.new) result.failed }
    ensures made { IsServedWith keyer.now.settings
        (vec_len staff.entry.workers) (vec_len staff.entry.attendants) result }
    ensures bound { D.bound doors.new ≡ D.bound doors.old }
{
    let workers_made = staff.workers.len();
    let sessions_made = staff.attendants.len();
    let (doorway, own) = serve_beside_workers(
        rt,
        keyer,
        staff,
        &queue,
        Doorway {
            doors,
            failed: false,
        },
    );
    let Doorway { doors, failed } = doorway;
    take_back(doors);
    serve_rest(rt, keyer, own, queue);
    Served {
        failed,
        settings: keyer.settings,
        workers: workers_made,
        sessions: sessions_made,
    }
}

/// The passes with which a server begins, none of which has a view open: those of its workers, those of the threads of its
/// sessions, and that of the calling thread.
#[derive(Drop)]
pub struct Passes<W: Indexed> {
    pub workers: Vec<Pass<W>>,
    pub sessions: Vec<Pass<W>>,
    pub own: Pass<W>,
}

/// Serves the connections that the doors give, each by a session over the hub and the keeper, until no more will come or a call
/// of the doors fails: then no further door is asked for, and the connections that came before are served to their ends. So
/// many threads run the sessions as there are passes for them, each one at a time, and so many workers make the works of
/// accepted changes beside them. A connection's own fault ends only its session. The gate is called from the threads of the
/// sessions and the workers, as `kept_session` and `turn` say.
///
/// Only the calling thread asks the doors. It hands each connection over by a queue with as many places as there are
/// sessions, and asks for the next one only if a place is free. So a client that sends nothing, or half a line, or never
/// reads, keeps one thread, and nobody else. With no session, or if no thread can be made for one, the calling thread serves each
/// connection itself before it asks for the next one; a worker for which none can be made doesn't work.
///
/// `Memory` comes only before the first door, and the doors are as before then: it is taken for a cutter for each session and
/// for the calling thread, and for the queue. What comes back says with what connections were served: the settings, and how
/// many workers and sessions there were.
pub fn serve_over<
    'f,
    Q: Threads + Wait + Sync,
    L: Ledger + Send + Sync,
    R: Wait + Sync,
    P: Keeper<Work<L>, Shared<Work<L>, R>> + Sync,
    S: Source + Send + Drop,
    K: Sink + Send + Drop,
    D: Doors<In = S, Out = K>,
    G: Gate + Sync,
>(
    rt: &'f Q,
    floor: &Floor<'f, L, R, P, G>,
    passes: Passes<Work<L>>,
    doors: &mut D,
) -> Result<Served, Memory>
    requires in_range { IsInRange floor.now.settings.now }
    requires settings { settings_of floor.now.hub.now ≡ floor.now.settings.now }
    requires keeps { P.Keeps floor.now.keeper.now floor.now.hub.now }
    requires workers { All (IsIdle floor.now.hub.now) passes.workers.items }
    requires sessions { All (IsIdle floor.now.hub.now) passes.sessions.items }
    requires own { IsIdle floor.now.hub.now passes.own }
    requires few { vec_len passes.sessions ≤ 64 }
    requires bound { IsSome (D.bound doors.old) }
    ensures ended { IfOk result (λ served. HasEnded (D.faults doors.old) (D.faults doors.new)
        (D.left doors.old) (D.left doors.new) served.failed) }
    ensures made { IfOk result (IsServedWith floor.now.settings.now
        (vec_len passes.workers) (vec_len passes.sessions)) }
    ensures refused { OnErr result (doors.new ≡ doors.old) }
    ensures bound { D.bound doors.new ≡ D.bound doors.old }
{
    let Passes {
        workers,
        sessions,
        own,
    } = passes;
    let places = sessions.len() as u32;
    let bell = Bell::new();
    let ringing = RingingGate {
        gate: floor.gate,
        bell: &bell,
        rt,
    };
    let benches = benches_of(
        floor.alloc,
        floor.settings,
        floor.hub,
        floor.keeper,
        floor.gate,
        workers,
    )?;
    let seating = Floor {
        alloc: floor.alloc,
        settings: floor.settings,
        counters: floor.counters,
        hub: floor.hub,
        keeper: floor.keeper,
        gate: &ringing,
    };
    let seats = seats_of(&seating, sessions)?;
    let own = Seat::new(&seating, own)?;
    let queue: Queue<Connection<S, K>> = Queue::new(floor.alloc, places)?;
    let keyer = Keyer::plain(floor.settings);
    let staff = Staff {
        workers: benches,
        bell: &bell,
        attendants: seats,
        own,
    };
    Ok(serve_doors(rt, &keyer, staff, queue, doors))
}

/// Serves the connections that the doors give, as `serve_over` does, and keeps no line: each session accepts its changes
/// by its own caller. Each worker, each thread of the sessions and the calling thread has a caller of the hub: the pass makes
/// them, and is the calling thread's then. It may have seen any history in which its caller has no view open.
pub fn serve<
    'f,
    Q: Threads + Wait + Sync,
    L: Ledger + Send + Sync,
    R: Wait + Sync,
    S: Source + Send + Drop,
    K: Sink + Send + Drop,
    D: Doors<In = S, Out = K>,
    G: Gate + Sync,
>(
    rt: &'f Q,
    floor: &Floor<'f, L, R, NoLog, G>,
    pass: Pass<Work<L>>,
    doors: &mut D,
    workers: u32,
    sessions: u32,
) -> Result<Served, Memory>
    requires in_range { IsInRange floor.now.settings.now }
    requires settings { settings_of floor.now.hub.now ≡ floor.now.settings.now }
    requires idle { IsIdle floor.now.hub.now pass }
    requires room { workers + sessions ≤ pass.room }
    requires bound { IsSome (D.bound doors.old) }
    requires sessions { sessions ≤ 64 }
    requires workers { workers ≤ 64 }
    ensures ended { IfOk result (λ served. HasEnded (D.faults doors.old) (D.faults doors.new)
        (D.left doors.old) (D.left doors.new) served.failed) }
    ensures made { IfOk result (IsServedWith floor.now.settings.now workers sessions) }
    ensures refused { OnErr result (doors.new ≡ doors.old) }
    ensures bound { D.bound doors.new ≡ D.bound doors.old }
{
    let mut pass = pass;
    let workers = passes_of(floor.alloc, floor.hub, &mut pass, workers)?;
    let sessions = passes_of(floor.alloc, floor.hub, &mut pass, sessions)?;
    let passes = Passes {
        workers,
        sessions,
        own: pass,
    };
    serve_over(rt, floor, passes, doors)
}
