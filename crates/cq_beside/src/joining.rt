ghost use Rattle.std.specs.Prelude.{◌≡◌, ℕ, ◌<◌, List, None};
ghost use Rattle.std.specs.Thread.{IsSync};
ghost use Rattle.cq_base.specs.Settings.{IsInRange};
ghost use Rattle.cq_base.specs.declared.settings.Settings.{Settings as HubSettings};
ghost use Rattle.cq_cells.specs.Passes.{by_of};
ghost use Rattle.cq_history.specs.declared.event.Event.{Event as Happened};
ghost use Rattle.cq_history.specs.State.{view_of};
ghost use Rattle.cq_shared.specs.SharedPasses.{IsPassOf, settings_of, callers_of, state_of};
ghost use Rattle.cq_beside.specs.Besides.{Besides, IsSetTo, Worked};

use cq_base::Settings;
use cq_chain::Pass;
use cq_io::Gate;
use cq_serve::{Bell, work};
use cq_session::{NoLog, Server};
use cq_shared::Shared;
use cq_work::{Keyer, Work};
use std::alloc::Global;
use std::sync::Wait;
use std::sync::ledger::Ledger;
use std::thread::{Threads, join};

/// What runs on the calling thread while workers run beside it.
pub(crate) trait Talker<L: Ledger, R: Wait> {
    type Told;

    // the settings of its hub
    ghost settings: { Self → HubSettings };

    // what it needs
    ghost MayTalk: { Self → Type 0 };

    // What it was and what it returns, by how many callers there are, its caller's number, what its pass had seen before and
    // has seen then, and how many buckets it has asked for.
    ghost Said: { Self → Self.Told → ℕ → ℕ → List Happened → List Happened → ℕ → Type 0 };

    fn talk<Q: Threads + Sync>(
        self,
        rt: &Q,
        hub: &Shared<Work<L>, R>,
        pass: &mut Pass<Work<L>>,
    ) -> Self::Told
        requires crosses { IsSync Q.row }
        requires may { MayTalk self }
        requires settings { settings_of hub.now ≡ settings self }
        requires of { IsPassOf hub.now pass.old }
        requires closed { view_of (state_of hub.now pass.old.seen) (by_of pass.old) ≡ None }
        requires unasked { pass.old.asked ≡ 0 }
        ensures of { IsPassOf hub.now pass.new }
        ensures caller { by_of pass.new ≡ by_of pass.old }
        ensures said { Said self result (callers_of hub.now) (by_of pass.old)
            pass.old.seen pass.new.seen pass.new.asked };
}

/// What a talk and the workers beside it share.
#[derive(Drop)]
pub(crate) struct Floor<'a, Q, L: Ledger, R, G> {
    pub(crate) rt: &'a Q,
    pub(crate) alloc: Global,
    pub(crate) settings: &'a Settings,
    pub(crate) hub: &'a Shared<Work<L>, R>,
    pub(crate) gate: &'a G,
    pub(crate) bell: &'a Bell,
}

// A worker by a keyer of its own.
fn labour<Q: Wait, L: Ledger, R: Wait, G: Gate>(
    floor: &Floor<'_, Q, L, R, G>,
    pass: Pass<Work<L>>,
) -> Pass<Work<L>>
    requires in_range { IsInRange floor.now.settings.now }
    requires settings { settings_of floor.now.hub.now ≡ floor.now.settings.now }
    requires of { IsPassOf floor.now.hub.now pass }
    ensures worked { Worked floor.now.hub.now pass result }
{
    let keyer = Keyer::plain(floor.settings);
    let server = Server {
        rt: floor.rt,
        alloc: floor.alloc,
        keyer: &keyer,
        hub: floor.hub,
        keeper: &NoLog,
        gate: floor.gate,
    };
    work(&server, pass, floor.bell)
}

// The talk, on a pass of its own, which ends in this one. After it nobody sleeps on the bell.
fn apart<Q: Threads + Wait + Sync, L: Ledger, R: Wait, G, T: Talker<L, R>>(
    floor: &Floor<'_, Q, L, R, G>,
    talker: T,
    pass: Pass<Work<L>>,
) -> (T::Told, Pass<Work<L>>)
    requires may { T.MayTalk talker }
    requires talks { settings_of floor.now.hub.now ≡ T.settings talker }
    requires of { IsPassOf floor.now.hub.now pass }
    requires room { 0 < pass.room }
    ensures besides { Besides floor.now.hub.now pass 0 result.1
        (T.Said talker result.0 (callers_of floor.now.hub.now)) }
{
    let mut pass = pass;
    let mut own = floor.hub.split_pass(&mut pass);
    let told = talker.talk(floor.rt, floor.hub, &mut own);
    floor.bell.end(floor.rt);
    floor.hub.join_pass(&mut pass, own);
    (told, pass)
}

/// Runs a talk on this thread with so many workers beside it, each on a thread and a pass of its own, until the talk's end.
/// A worker for which no thread can be made runs after the talk, and ends at once.
pub(crate) fn beside<
    Q: Threads + Wait + Sync,
    L: Ledger + Send + Sync,
    R: Wait + Sync,
    G: Gate + Sync,
    T: Talker<L, R> + Drop,
>(
    floor: &Floor<'_, Q, L, R, G>,
    workers: u32,
    talker: T,
    pass: Pass<Work<L>>,
) -> (T::Told, Pass<Work<L>>)
    requires in_range { IsInRange floor.now.settings.now }
    requires settings { settings_of floor.now.hub.now ≡ floor.now.settings.now }
    requires may { T.MayTalk talker }
    requires talks { settings_of floor.now.hub.now ≡ T.settings talker }
    requires of { IsPassOf floor.now.hub.now pass }
    requires room { workers < pass.room }
    ensures besides { Besides floor.now.hub.now pass workers result.1
        (T.Said talker result.0 (callers_of floor.now.hub.now)) }
{
    if workers == 0 {
        return apart(floor, talker, pass);
    }
    let mut pass = pass;
    let fewer = workers - 1;
    let mine = floor.hub.split_pass(&mut pass);
    let (mine, rest) = join(
        floor.rt,
        move || -> Pass<Work<L>>
            requires { IsSetTo floor.now.settings.now floor.now.hub.now
                × IsPassOf floor.now.hub.now mine }
            ensures { Worked floor.entry.now.hub.now mine result }
        { labour(floor, mine) },
        move || -> (T::Told, Pass<Work<L>>)
            requires { IsSetTo floor.now.settings.now floor.now.hub.now
                × T.MayTalk talker × (settings_of floor.now.hub.now ≡ T.settings talker)
                × IsPassOf floor.now.hub.now pass × (fewer < pass.room) }
            ensures { Besides floor.entry.now.hub.now pass fewer result.1
                (T.Said talker result.0 (callers_of floor.entry.now.hub.now)) }
        { beside(floor, fewer, talker, pass) },
    );
    let (told, mut pass) = rest;
    floor.hub.join_pass(&mut pass, mine);
    (told, pass)
}
