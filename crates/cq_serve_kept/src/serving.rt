ghost use Rattle.std.specs.Prelude.{◌≡◌, true, ◌≤◌, ◌+◌, List, [], vec_len, All, IfOk, IsSome};
ghost use Rattle.cq_base.specs.Settings.{IsInRange};
ghost use Rattle.cq_base.specs.declared.change.Change.{Change};
ghost use Rattle.cq_history.specs.State.{accepted};
ghost use Rattle.cq_keeper.specs.Firsts.{IsFirst};
ghost use Rattle.cq_listen.specs.Endings.{IsServedWith};
ghost use Rattle.cq_listen.specs.Seats.{IsIdle};
ghost use Rattle.cq_log.specs.Mending.{mending};
ghost use Rattle.cq_shared.specs.SharedPasses.{callers_of, cells_of, settings_of};
ghost use Rattle.cq_serve_kept.specs.Continued.{EndsKept, EndsLogged, EndsTaken};
ghost use Rattle.cq_serve_kept.specs.Reloads.{HasTaken};

use crate::doors::KeptDoors;
use crate::log::Log;
use crate::reloading::Reloaded;
use cq_base::{Counters, Memory, Settings, Text};
use cq_chain::Pass;
use cq_io::{Doors, Failed, Gate, Sink, Source};
use cq_keeper::LogOf;
use cq_lines::{LineLog, Lines};
use cq_listen::{Floor, Passes, Served, passes_of, serve_over};
use cq_log::{Taken, mend, take_log};
use cq_shared::Shared;
use cq_work::{Keyer, Work};
use std::alloc::Global;
use std::marker::Brand;
use std::sync::Wait;
use std::sync::ledger::Ledger;
use std::thread::Threads;

/// How a server ended that keeps a log.
#[derive(Clone, Copy, Debug, PartialEq, Eq)]
pub enum Kept {
    /// Connections were served, and each accepted change has its line.
    Served(Served),
    /// A line could not be written whole, or the end of the log could not be mended.
    Broken,
    /// A line of the log is none that a log may have there. Nothing was written, and no address was bound.
    Refused,
    /// The limit on the bytes was reached before the end of the log. Nothing was written, and no address was bound.
    Spent,
    /// A read of the log failed. Nothing was written, and no address was bound.
    ReadFault,
    /// The address could not be bound. Nothing was written.
    Unbound,
}

/// What a server is made on: the runtime, memory, the settings, the counters of what its sessions read, and the gate to which
/// each step is reported.
#[derive(Drop)]
pub struct Ground<'a, Q, L: Ledger, G> {
    pub rt: &'a Q,
    pub alloc: Global,
    pub settings: &'a Settings,
    pub counters: &'a Counters<L>,
    pub gate: &'a G,
}

/// Where a server listens, and with how many threads.
#[derive(Drop)]
pub struct Place {
    pub address: Text,
    pub workers: u32,
    pub sessions: u32,
}

// A log that was taken: the pass that has its changes, whether its last line has no line feed, and whether that was cut off.
#[derive(Drop)]
struct TakenLog<L: Ledger> {
    pass: Pass<Work<L>>,
    unclosed: bool,
    torn: bool,
}

// Serves the doors over a log, until no more connections will come, a call of the doors fails, or a line can't be written.
fn serve_over_log<
    Q: Threads + Wait + Sync,
    L: Ledger + Send + Sync,
    N: LogOf + Send,
    K: Sink + Send,
    I: Source + Send + Drop,
    O: Sink + Send + Drop,
    D: Doors<In = I, Out = O>,
    G: Gate + Sync,
>(
    ground: &Ground<'_, Q, L, G>,
    hub: &Shared<Work<L>, &Q>,
    log: &Log<'_, '_, Q, Work<L>, K, N>,
    passes: Passes<Work<L>>,
    doors: &mut D,
) -> Result<Served, Memory>
    requires in_range { IsInRange ground.now.settings.now }
    requires settings { settings_of hub.now ≡ ground.now.settings.now }
    requires cells { cells_of hub.now ≡ N.cells }
    requires workers { All (IsIdle hub.now) passes.workers.items }
    requires sessions { All (IsIdle hub.now) passes.sessions.items }
    requires own { IsIdle hub.now passes.own }
    requires few { vec_len passes.sessions ≤ 64 }
    requires bound { IsSome (D.bound doors.old) }
    ensures made { IfOk result (IsServedWith ground.now.settings.now
        (vec_len passes.workers) (vec_len passes.sessions)) }
{
    let floor = Floor {
        alloc: ground.alloc,
        settings: ground.settings,
        counters: ground.counters,
        hub,
        keeper: log,
        gate: ground.gate,
    };
    let mut kept_doors = KeptDoors { doors, log };
    serve_over(ground.rt, &floor, passes, &mut kept_doors)
}

// Serves the doors over a log, by the pass of the first caller, and gives the log back, with the lines of the changes that were
// accepted.
fn serve_logging<
    's,
    Q: Threads + Wait + Sync,
    L: Ledger + Send + Sync,
    N: LogOf + Send,
    K: Sink + Send,
    I: Source + Send + Drop,
    O: Sink + Send + Drop,
    D: Doors<In = I, Out = O>,
    G: Gate + Sync,
>(
    ground: &Ground<'_, Q, L, G>,
    hub: &Shared<Work<L>, &Q>,
    pass: Pass<Work<L>>,
    passes: Passes<Work<L>>,
    log: LineLog<'s, K>,
    doors: &mut D,
) -> Result<(Served, LineLog<'s, K>), Memory>
    requires in_range { IsInRange ground.now.settings.now }
    requires settings { settings_of hub.now ≡ ground.now.settings.now }
    requires first { IsFirst hub.now pass }
    requires workers { All (IsIdle hub.now) passes.workers.items }
    requires sessions { All (IsIdle hub.now) passes.sessions.items }
    requires own { IsIdle hub.now passes.own }
    requires few { vec_len passes.sessions ≤ 64 }
    requires bound { IsSome (D.bound doors.old) }
    requires name { log.sink.ghost_name ≡ N.name }
    requires whole { log.whole ≡ true }
    requires cells { cells_of hub.now ≡ N.cells }
    requires begun { K.written log.sink.now ≡ N.begun }
    requires before { accepted pass.seen ≡ N.before }
    requires faults { K.faults log.sink.now ≡ N.faults }
    ensures name { IfOk result (λ over. over.1.sink.ghost_name ≡ N.name) }
    ensures ends { IfOk result (λ over. EndsLogged K.Sink ground.now.settings.now [] (accepted pass.seen)
        log.entry.sink.now over.1.sink.now over.1.whole) }
{
    let log: Log<'_, 's, Q, Work<L>, K, N> = Log::new(ground.rt, log, pass);
    let served = serve_over_log(ground, hub, &log, passes, doors)?;
    let (log, _pass) = log.into_log();
    Ok((served, log))
}

// Does nothing: by this use, the borrow checker ties the sink to the parameter that lent it.
fn take_back<K>(sink: &mut K)
    ensures { sink.new ≡ sink.old }
{}

// Serves the doors of an address, once the log is taken, and mends its end before anything else is written.
fn serve_taken<
    Q: Threads + Wait + Sync,
    L: Ledger + Send + Sync,
    K: Sink + Send,
    I: Source + Send + Drop,
    O: Sink + Send + Drop,
    D: Doors<In = I, Out = O>,
    G: Gate + Sync,
>(
    ground: &Ground<'_, Q, L, G>,
    hub: &Shared<Work<L>, &Q>,
    place: Place,
    taken: TakenLog<L>,
    sink: &mut K,
    doors: &mut D,
) -> Result<Kept, Memory>
    requires in_range { IsInRange ground.now.settings.now }
    requires taken { (changes : List Change) × HasTaken hub.now taken.pass ground.now.settings.now changes }
    requires room { place.workers + place.sessions + 2 ≤ callers_of hub.now }
    requires workers { place.workers ≤ 64 }
    requires sessions { place.sessions ≤ 64 }
    ensures ends { IfOk result (λ by. (changes : List Change) → HasTaken hub.now taken.pass ground.now.settings.now changes
        → EndsTaken K.Sink ground.now.settings.now (mending taken.unclosed taken.torn) changes sink.old sink.new by) }
{
    let TakenLog {
        pass,
        unclosed,
        torn,
    } = taken;
    let Place {
        address,
        workers,
        sessions,
    } = place;
    let mut pass = pass;
    let passes = Passes {
        workers: passes_of(ground.alloc, hub, &mut pass, workers)?,
        sessions: passes_of(ground.alloc, hub, &mut pass, sessions)?,
        own: hub.split_pass(&mut pass),
    };
    match doors.bind(address) {
        Ok(()) => {}
        Err(Failed) => return Ok(Kept::Unbound),
    }
    match mend(unclosed, torn, sink) {
        Ok(()) => {}
        Err(Failed) => return Ok(Kept::Broken),
    }
    let log = LineLog { sink, whole: true };
    let over = serve_logging::<Q, L, Brand, K, I, O, D, G>(ground, hub, pass, passes, log, doors)?;
    let (served, log) = over;
    let LineLog { sink, whole } = log;
    take_back(sink);
    if whole {
        return Ok(Kept::Served(served));
    }
    Ok(Kept::Broken)
}

/// Takes a log from the source up to its end, binds the address, mends the end of the log, and serves the connections that come
/// by the doors, as `serve` of `cq_listen` does. The line of each accepted change is written to the sink before its reply is
/// written to its client. Once a line can't be written whole, no change is accepted and no query is answered any more, each
/// session ends, and no further door is asked for.
pub fn serve_kept<
    Q: Threads + Wait + Sync,
    L: Ledger + Send + Sync,
    S: Source,
    K: Sink + Send,
    I: Source + Send + Drop,
    O: Sink + Send + Drop,
    D: Doors<In = I, Out = O>,
    G: Gate + Sync,
>(
    ground: &Ground<'_, Q, L, G>,
    place: Place,
    source: &mut S,
    sink: &mut K,
    doors: &mut D,
) -> Result<Kept, Memory>
    requires in_range { IsInRange ground.now.settings.now }
    requires workers { place.workers ≤ 64 }
    requires sessions { place.sessions ≤ 64 }
    ensures log { IfOk result (EndsKept S.Source K.Sink ground.now.settings.now
        source.old source.new sink.old sink.new) }
{
    // One caller is the log's, one the calling thread's, one each session's, and one each worker's.
    let callers = place.workers + place.sessions + 2;
    let made: (Shared<Work<L>, &Q>, Pass<Work<L>>) = Shared::with_first_accepting(
        ground.rt,
        ground.alloc,
        ground.settings,
        callers,
    )?;
    let (hub, pass) = made;
    let keyer = Keyer::plain(ground.settings);
    let mut lines = Lines::new(ground.alloc, ground.settings.byte_limit)?;
    let mut reloaded = Reloaded {
        keyer: &keyer,
        hub: &hub,
        pass,
    };
    let taken = take_log(
        ground.alloc,
        ground.settings,
        &mut reloaded,
        &mut lines,
        source,
    )?;
    let Reloaded {
        keyer: _,
        hub: _,
        pass,
    } = reloaded;
    match taken {
        Taken::All { unclosed, torn } => {
            let taken = TakenLog {
                pass,
                unclosed,
                torn,
            };
            serve_taken(ground, &hub, place, taken, sink, doors)
        }
        Taken::Spent => Ok(Kept::Spent),
        Taken::Failed => Ok(Kept::ReadFault),
        Taken::Refused => Ok(Kept::Refused),
    }
}
