ghost use Rattle.std.specs.Prelude.{◌≡◌, Ok, IfOk, OnOk};
ghost use Rattle.cq_base.specs.Changes.{IsSoundChange};
ghost use Rattle.cq_base.specs.declared.change.Change.{Change as Said};
ghost use Rattle.cq_request.specs.Reading.{line_says};
ghost use Rattle.cq_request.specs.declared.request.Request.TheVariants as request;
ghost use Rattle.cq_shared.specs.SharedPasses.{IsPassOf};
ghost use Rattle.cq_serve_kept.specs.Reloads.{MayReload, StaysDone, StaysLow, TakesSaid, TakesWhereLow};

use cq_base::{Change, Memory, Settings};
use cq_board::Refused;
use cq_chain::Pass;
use cq_io::OpenGate;
use cq_log::Taker;
use cq_request::{Request, read_request};
use cq_shared::Shared;
use cq_work::{Keyer, Work, work_for};
use std::alloc::Global;
use std::sync::Wait;
use std::sync::ledger::Ledger;

/// A hub that takes the changes of a log, by the pass of its first caller. It lets go of what no later version needs whenever a
/// limit is reached.
#[derive(Drop)]
pub(crate) struct Reloaded<'a, L: Ledger, R> {
    pub keyer: &'a Keyer,
    pub hub: &'a Shared<Work<L>, R>,
    pub pass: Pass<Work<L>>,
}

// The works of all changes are made.
fn make_works<L: Ledger, R: Wait>(
    alloc: Global,
    keyer: &Keyer,
    hub: &Shared<Work<L>, R>,
    pass: &mut Pass<Work<L>>,
) -> Result<(), Memory>
    requires ready { MayReload hub.now keyer.now.settings pass.old }
    ensures ready { OnOk result (MayReload hub.now keyer.now.settings pass.new) }
    ensures done { OnOk result (StaysDone hub.now pass.old pass.new) }
{
    'works: for _ in 0..u64::MAX {
        match hub.take(pass)? {
            Some(job) => {
                let work = work_for(alloc, keyer, job.lang, &job.text)?;
                let _finished = hub.finish(job.change, work, pass);
            }
            None => return Ok(()),
        }
    }
    // Not reached: each work was made once, and fewer changes are accepted.
    Err(Memory)
}

// Publishes all changes, and lets go of what the last version doesn't need.
fn ease<L: Ledger, R: Wait>(
    alloc: Global,
    keyer: &Keyer,
    hub: &Shared<Work<L>, R>,
    pass: &mut Pass<Work<L>>,
) -> Result<(), Memory>
    requires ready { MayReload hub.now keyer.now.settings pass.old }
    ensures ready { OnOk result (MayReload hub.now keyer.now.settings pass.new) }
    ensures low { OnOk result (StaysLow hub.now pass.old pass.new) }
{
    make_works(alloc, keyer, hub, pass)?;
    let asked = hub.ask(pass);
    let _version = hub.advance(alloc, asked.done, &OpenGate, pass)?;
    let _floor = hub.sweep(alloc, pass)?;
    Ok(())
}

// Accepts a change, and answers whether it is accepted, if the floor is at the last one.
fn accept_low<L: Ledger, R: Wait>(
    alloc: Global,
    hub: &Shared<Work<L>, R>,
    change: Change,
    pass: &mut Pass<Work<L>>,
) -> Result<bool, Memory>
    requires of { IsPassOf hub.now pass.old }
    requires sound { IsSoundChange change }
    ensures of { OnOk result (IsPassOf hub.now pass.new) }
    ensures takes { IfOk result (TakesWhereLow hub.now pass.old pass.new change) }
{
    match hub.accept(alloc, change, pass) {
        Ok(_number) => Ok(true),
        Err(Refused::Memory) => Err(Memory),
        Err(Refused::Absent) => Ok(false),
        Err(Refused::FullChanges) => Ok(false),
        Err(Refused::FullText) => Ok(false),
    }
}

// Accepts the change that a line says, once all was let go that can be.
fn accept_again<L: Ledger, R: Wait>(
    alloc: Global,
    settings: &Settings,
    keyer: &Keyer,
    hub: &Shared<Work<L>, R>,
    line: &[u8],
    pass: &mut Pass<Work<L>>,
) -> Result<bool, Memory>
    requires ready { MayReload hub.now keyer.now.settings pass.old }
    requires says { (wanted : Said) × (line_says settings.now.chunk line.now ≡ Ok (request.Change wanted)) }
    ensures ready { OnOk result (MayReload hub.now keyer.now.settings pass.new) }
    ensures takes { IfOk result (TakesSaid hub.now pass.old pass.new settings.now.chunk line.now) }
{
    ease(alloc, keyer, hub, pass)?;
    match read_request(alloc, settings, line) {
        Ok(Request::Change(change)) => accept_low(alloc, hub, change, pass),
        Ok(Request::Query(_query)) => unreachable!(),
        Ok(Request::State) => unreachable!(),
        Err(_why) => Err(Memory),
    }
}

impl<'a, L: Ledger, R: Wait> Taker for Reloaded<'a, L, R> {
    ghost use Rattle.cq_shared.specs.declared.shared.Shared.{Shared as HubOf};
    ghost use Rattle.cq_work.specs.declared.work.Work.{Work as Made};
    ghost use Rattle.cq_serve_kept.specs.Reloads.{HasTaken, MayReload};

    ghost Has = { λ taker set lines changes. HasTaken taker.hub.now taker.pass set changes };

    ghost ready = { λ taker. MayReload taker.hub.now taker.keyer.now.settings taker.pass };

    ghost Target = { HubOf (Made L) R };

    ghost target_of = { λ taker. taker.hub.now };

    fn take(
        &mut self,
        alloc: Global,
        settings: &Settings,
        change: Change,
        line: &[u8],
    ) -> Result<bool, Memory> {
        match self.hub.accept(alloc, change, &mut self.pass) {
            Ok(_number) => Ok(true),
            Err(Refused::Memory) => Err(Memory),
            Err(Refused::Absent) => Ok(false),
            Err(Refused::FullChanges) => {
                accept_again(alloc, settings, self.keyer, self.hub, line, &mut self.pass)
            }
            Err(Refused::FullText) => {
                accept_again(alloc, settings, self.keyer, self.hub, line, &mut self.pass)
            }
        }
    }
}
