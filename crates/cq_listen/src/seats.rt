ghost use Rattle.std.specs.Prelude.{◌≡◌, vec_len, All, IfOk};
ghost use Rattle.cq_base.specs.Settings.{IsInRange};
ghost use Rattle.cq_shared.specs.SharedPasses.{settings_of};
ghost use Rattle.cq_listen.specs.Seats.{IsIdle};

use crate::connection::Connection;
use crate::floor::Floor;
use crate::sessions::Attendant;
use cq_base::{Counters, Memory, Settings};
use cq_chain::Pass;
use cq_io::{Gate, Sink, Source};
use cq_lines::Lines;
use cq_session::{Keeper, Server, kept_session};
use cq_shared::Shared;
use cq_work::{Keyer, Work};
use std::alloc::Global;
use std::marker::Model;
use std::sync::Wait;
use std::sync::ledger::Ledger;
use std::thread::Threads;

/// What a thread of the sessions has of its own: a pass with no view open, and a cutter with the limit of the settings.
/// Contracts see it as the settings of its hub.
#[derive(Drop)]
pub(crate) struct Seat<'a, L: Ledger, R: Wait, P: Keeper<Work<L>, Shared<Work<L>, R>>, G> {
    alloc: Global,
    settings: &'a Settings,
    counters: &'a Counters<L>,
    hub: &'a Shared<Work<L>, R>,
    keeper: &'a P,
    gate: &'a G,
    lines: Lines,
    pass: Pass<Work<L>>,
}

impl<'a, L: Ledger, R: Wait, P: Keeper<Work<L>, Shared<Work<L>, R>>, G> Model
    for Seat<'a, L, R, P, G> {
    ghost use Rattle.cq_base.specs.declared.settings.Settings.{Settings as Told};
    ghost use Rattle.cq_listen.specs.Seats.{IsFurnished};

    ghost Value = { Told };

    ghost view = { λ s. s.settings.now };

    ghost invariant = { λ s. IsFurnished s.settings.now s.hub.now s.pass s.lines.limit
        × P.Keeps s.keeper.now s.hub.now };
}

impl<'a, L: Ledger, R: Wait, P: Keeper<Work<L>, Shared<Work<L>, R>>, G> Seat<'a, L, R, P, G> {
    ghost use Rattle.std.specs.Prelude.{◌≡◌, IfOk};
    ghost use Rattle.cq_base.specs.Settings.{IsInRange};
    ghost use Rattle.cq_shared.specs.SharedPasses.{settings_of};
    ghost use Rattle.cq_listen.specs.Seats.{IsIdle};

    /// The seat of a pass that has no view open. It takes memory for its cutter.
    pub(crate) fn new(floor: &Floor<'a, L, R, P, G>, pass: Pass<Work<L>>) -> Result<Self, Memory>
        requires in_range { IsInRange floor.now.settings.now }
        requires settings { settings_of floor.now.hub.now ≡ floor.now.settings.now }
        requires keeps { P.Keeps floor.now.keeper.now floor.now.hub.now }
        requires idle { IsIdle floor.now.hub.now pass }
        ensures { IfOk result (λ seat. seat ≡ floor.now.settings.now) }
    {
        let lines = Lines::new(floor.alloc, floor.settings.byte_limit)?;
        Ok(Seat {
            alloc: floor.alloc,
            settings: floor.settings,
            counters: floor.counters,
            hub: floor.hub,
            keeper: floor.keeper,
            gate: floor.gate,
            lines,
            pass,
        })
    }
}

// Serves a connection to its end, by a session on a seat. The keys are those of the keyer.
fn converse<
    Q: Threads + Sync,
    L: Ledger,
    R: Wait,
    P: Keeper<Work<L>, Shared<Work<L>, R>>,
    S: Source + Drop,
    K: Sink + Drop,
    G: Gate,
>(rt: &Q, keyer: &Keyer, seat: &mut Seat<'_, L, R, P, G>, connection: Connection<S, K>)
    requires { seat.old ≡ keyer.now.settings }
    ensures { seat.new ≡ seat.old }
{
    let Connection { source, sink } = connection;
    let mut source = source;
    let mut sink = sink;
    let mut steps = seat.counters.counter();
    seat.lines.restart();
    let server = Server {
        rt,
        alloc: seat.alloc,
        keyer,
        hub: seat.hub,
        keeper: seat.keeper,
        gate: seat.gate,
    };
    let _over = kept_session(
        &server,
        &mut seat.pass,
        &mut seat.lines,
        &mut source,
        &mut sink,
        &mut steps,
    );
}

impl<
    'a,
    L: Ledger,
    R: Wait,
    P: Keeper<Work<L>, Shared<Work<L>, R>>,
    S: Source + Drop,
    K: Sink + Drop,
    G: Gate,
> Attendant<Connection<S, K>> for Seat<'a, L, R, P, G> {
    ghost settings = { λ s. s };

    fn attend<Q: Threads + Sync>(&mut self, rt: &Q, keyer: &Keyer, connection: Connection<S, K>) {
        converse(rt, keyer, self, connection);
    }
}

/// A seat for each of these passes.
pub(crate) fn seats_of<'a, L: Ledger, R: Wait, P: Keeper<Work<L>, Shared<Work<L>, R>>, G>(
    floor: &Floor<'a, L, R, P, G>,
    passes: Vec<Pass<Work<L>>>,
) -> Result<Vec<Seat<'a, L, R, P, G>>, Memory>
    requires in_range { IsInRange floor.now.settings.now }
    requires settings { settings_of floor.now.hub.now ≡ floor.now.settings.now }
    requires keeps { P.Keeps floor.now.keeper.now floor.now.hub.now }
    requires idle { All (IsIdle floor.now.hub.now) passes.items }
    ensures number { IfOk result (λ seats. vec_len seats ≡ vec_len passes) }
    ensures settings { IfOk result (λ seats. All (λ seat. seat ≡ floor.now.settings.now) seats.items) }
{
    let mut seats = Vec::with_capacity(floor.alloc, passes.len())?;
    'seats: for own in passes {
        seats.push(Seat::new(floor, own)?)?;
    }
    Ok(seats)
}
