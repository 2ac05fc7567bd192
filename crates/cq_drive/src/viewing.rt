ghost use Rattle.std.specs.Prelude.{◌≡◌, ◌<◌, ◌≤◌, IfOk, Some};
ghost use Rattle.std.specs.Arc.{arc_value};
ghost use Rattle.cq_answer.specs.Parts.{HasPath, HasScope};
ghost use Rattle.cq_base.specs.Settings.{IsInRange};
ghost use Rattle.cq_board.specs.Sound.{HaveFewConditions};
ghost use Rattle.cq_core.specs.Views.{IsView};
ghost use Rattle.cq_drive.specs.Cores.{IsDriven, StepTold};
ghost use Rattle.cq_drive.specs.Script.{callers};
ghost use Rattle.cq_history.specs.State.{view_of};
ghost use Rattle.cq_drive.specs.Outcomes.{IsOutcomeText};
ghost use Rattle.cq_drive.specs.declared.step.ScriptStep.TheVariants as script;
ghost use Rattle.cq_work.specs.Work.{IsWorkOf};

use crate::buckets::CoreBuckets;
use crate::{Driver, Entries, ScriptOutcome};
use cq_answer::{ProjectAt, answer};
use cq_base::{Memory, Settings, Steps};
use cq_board::View;
use cq_core::Core;
use cq_request::Query;
use cq_work::Work;
use std::alloc::Global;
use std::sync::ledger::Ledger;
use std::thread::Threads;

/// The entries of a shard with a key in the caller's view.
pub(crate) fn read<L: Ledger>(
    alloc: Global,
    settings: &Settings,
    core: &Core<Work<L>>,
    by: u32,
    shard: u32,
    key: u64,
) -> Result<ScriptOutcome, Memory>
    requires driven { IsDriven L settings.now core.now }
    requires caller { by < callers }
    requires shard { shard < settings.now.shards }
    ensures led { IfOk result (StepTold L settings.now core.now (script.Read by shard key)) }
    ensures text { IfOk result IsOutcomeText }
{
    match core.read(alloc, by, shard, key)? {
        Some(entries) => Ok(ScriptOutcome::Read(Entries::from_vec(entries))),
        None => Ok(ScriptOutcome::No),
    }
}

// The reply to a query at the version of a view, which the caller has open.
fn answered<R: Threads + Sync, L: Ledger>(
    driver: &Driver<'_, R>,
    core: &Core<Work<L>>,
    by: u32,
    view: &View<Work<L>>,
    query: &Query,
    steps: &mut Steps<L>,
) -> Result<ScriptOutcome, Memory>
    requires in_range { IsInRange driver.now.keyer.now.settings }
    requires driven { IsDriven L driver.now.keyer.now.settings core.now }
    requires caller { by < callers }
    requires long { driver.now.keyer.now.settings.chunk ≤ query.now.min }
    requires path { HasPath query.now.kind query.now.path }
    requires scope { HasScope query.now.path query.now.scope }
    requires opened { view_of core.now.board.state by ≡ Some view.now.version }
    requires listing { IsView (IsWorkOf core.now.board.settings) core.now.board.state view.now }
    requires few { HaveFewConditions (arc_value view.now.listing).projects }
    ensures led { IfOk result
        (StepTold L driver.now.keyer.now.settings core.now (script.Reply by query.now)) }
    ensures text { IfOk result IsOutcomeText }
{
    let files = view.listing.project(&query.project);
    let conditions = view.listing.conditions(&query.project);
    let mut buckets = CoreBuckets {
        core,
        settings: &driver.keyer.settings,
        by,
        files,
        asked: 0,
    };
    let at = ProjectAt {
        settings: &driver.keyer.settings,
        files,
        conditions,
        version: view.version,
    };
    let reply = answer(driver.rt, driver.alloc, &at, query, &mut buckets, steps)?;
    Ok(ScriptOutcome::Reply(reply))
}

/// The reply to a query at the version of the caller's view.
pub(crate) fn reply<R: Threads + Sync, L: Ledger>(
    driver: &Driver<'_, R>,
    core: &Core<Work<L>>,
    by: u32,
    query: &Query,
    steps: &mut Steps<L>,
) -> Result<ScriptOutcome, Memory>
    requires in_range { IsInRange driver.now.keyer.now.settings }
    requires driven { IsDriven L driver.now.keyer.now.settings core.now }
    requires caller { by < callers }
    requires long { driver.now.keyer.now.settings.chunk ≤ query.now.min }
    requires path { HasPath query.now.kind query.now.path }
    requires scope { HasScope query.now.path query.now.scope }
    ensures led { IfOk result
        (StepTold L driver.now.keyer.now.settings core.now (script.Reply by query.now)) }
    ensures text { IfOk result IsOutcomeText }
{
    match core.view(by) {
        Some(view) => answered(driver, core, by, view, query, steps),
        None => Ok(ScriptOutcome::No),
    }
}
