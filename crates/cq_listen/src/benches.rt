ghost use Rattle.std.specs.Prelude.{◌≡◌, vec_len, All, IfOk};
ghost use Rattle.cq_base.specs.Settings.{IsInRange};
ghost use Rattle.cq_shared.specs.SharedPasses.{settings_of};
ghost use Rattle.cq_listen.specs.Seats.{IsIdle};

use crate::workers::Worker;
use cq_base::{Memory, Settings};
use cq_chain::Pass;
use cq_io::Gate;
use cq_serve::{Bell, work};
use cq_session::{Keeper, Server};
use cq_shared::Shared;
use cq_work::{Keyer, Work};
use std::alloc::Global;
use std::marker::Model;
use std::sync::Wait;
use std::sync::ledger::Ledger;

/// What a worker's thread has of its own: a pass. Contracts see it as the settings of its hub.
#[derive(Drop)]
pub(crate) struct Bench<'a, L: Ledger, R, P, G> {
    alloc: Global,
    settings: &'a Settings,
    hub: &'a Shared<Work<L>, R>,
    keeper: &'a P,
    gate: &'a G,
    pass: Pass<Work<L>>,
}

impl<'a, L: Ledger, R, P, G> Model for Bench<'a, L, R, P, G> {
    ghost use Rattle.cq_base.specs.declared.settings.Settings.{Settings as Told};
    ghost use Rattle.cq_listen.specs.Seats.{IsSeated};

    ghost Value = { Told };

    ghost view = { λ b. b.settings.now };

    ghost invariant = { λ b. IsSeated b.settings.now b.hub.now b.pass };
}

impl<'a, L: Ledger, R, P, G> Bench<'a, L, R, P, G> {
    ghost use Rattle.std.specs.Prelude.{◌≡◌};
    ghost use Rattle.cq_base.specs.Settings.{IsInRange};
    ghost use Rattle.cq_shared.specs.SharedPasses.{settings_of};
    ghost use Rattle.cq_listen.specs.Seats.{IsIdle};

    /// The bench of a pass that has no view open.
    fn new(
        alloc: Global,
        settings: &'a Settings,
        hub: &'a Shared<Work<L>, R>,
        keeper: &'a P,
        gate: &'a G,
        pass: Pass<Work<L>>,
    ) -> Self
        requires in_range { IsInRange settings.now }
        requires settings { settings_of hub.now ≡ settings.now }
        requires idle { IsIdle hub.now pass }
        ensures { result ≡ settings.now }
    {
        Bench {
            alloc,
            settings,
            hub,
            keeper,
            gate,
            pass,
        }
    }
}

// Works on a bench until the bell's end. The keys are those of the keyer.
fn work_at<Q: Wait, L: Ledger, R: Wait, P: Keeper<Work<L>, Shared<Work<L>, R>>, G: Gate>(
    rt: &Q,
    keyer: &Keyer,
    bench: Bench<'_, L, R, P, G>,
    bell: &Bell,
)
    requires { bench ≡ keyer.now.settings }
{
    let Bench {
        alloc,
        hub,
        keeper,
        gate,
        pass,
        ..
    } = bench;
    let server = Server {
        rt,
        alloc,
        keyer,
        hub,
        keeper,
        gate,
    };
    let _pass = work(&server, pass, bell);
}

impl<'a, L: Ledger, R: Wait, P: Keeper<Work<L>, Shared<Work<L>, R>>, G: Gate> Worker
    for Bench<'a, L, R, P, G> {
    ghost settings = { λ b. b };

    fn work<Q: Wait>(self, rt: &Q, keyer: &Keyer, bell: &Bell) {
        work_at(rt, keyer, self, bell);
    }
}

/// A bench for each of these passes.
pub(crate) fn benches_of<'a, L: Ledger, R, P, G>(
    alloc: Global,
    settings: &'a Settings,
    hub: &'a Shared<Work<L>, R>,
    keeper: &'a P,
    gate: &'a G,
    passes: Vec<Pass<Work<L>>>,
) -> Result<Vec<Bench<'a, L, R, P, G>>, Memory>
    requires in_range { IsInRange settings.now }
    requires settings { settings_of hub.now ≡ settings.now }
    requires idle { All (IsIdle hub.now) passes.items }
    ensures number { IfOk result (λ benches. vec_len benches ≡ vec_len passes) }
    ensures settings { IfOk result (λ benches. All (λ bench. bench ≡ settings.now) benches.items) }
{
    let mut benches = Vec::with_capacity(alloc, passes.len())?;
    'benches: for own in passes {
        benches.push(Bench::new(alloc, settings, hub, keeper, gate, own))?;
    }
    Ok(benches)
}
