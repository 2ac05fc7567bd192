ghost use Rattle.std.specs.Prelude.{◌≡◌, ◌<◌, IfOk, OnErr};
ghost use Rattle.cq_base.specs.Settings.{IsInRange};
ghost use Rattle.cq_core.specs.Steps.{HasWork};
ghost use Rattle.cq_drive.specs.Cores as spec;
ghost use Rattle.cq_drive.specs.Cores.{IsDriven, StepLed, script_step};
ghost use Rattle.cq_drive.specs.Script.{callers};
ghost use Rattle.cq_drive.specs.Outcomes.{IsOutcomeText};
ghost use Rattle.cq_drive.specs.Sound.{IsSoundStep};
ghost use Rattle.cq_drive.specs.declared.step.ScriptStep.TheVariants as script;
ghost use Rattle.cq_work.specs.Work.{IsWorkOf};

use crate::ScriptOutcome;
use cq_answer::cause_told;
use cq_base::{Memory, Settings, Steps};
use cq_core::{Core, Outcome, Step};
use cq_work::{Keyer, Work, work_for};
use std::alloc::Global;
use std::sync::ledger::Ledger;

fn told(outcome: Outcome) -> ScriptOutcome
    ensures told { result ≡ spec.told outcome }
    ensures text { IsOutcomeText result }
{
    match outcome {
        Outcome::Ok => ScriptOutcome::Done,
        Outcome::Value(number) => ScriptOutcome::Value(number),
        Outcome::NoJob => ScriptOutcome::NoJob,
        Outcome::Refused(cause) => ScriptOutcome::Reply(cause_told(cause)),
        Outcome::No => ScriptOutcome::No,
    }
}

/// The outcome of a step of the core. If memory is refused, nothing has changed.
pub(crate) fn stepped<L: Ledger>(
    alloc: Global,
    settings: &Settings,
    core: &mut Core<Work<L>>,
    step: Step<Work<L>>,
    steps: &mut Steps<L>,
) -> Result<ScriptOutcome, Memory>
    requires driven { IsDriven L settings.now core.old }
    requires sound { IsSoundStep settings.now (script_step step) }
    requires work { HasWork (IsWorkOf settings.now) core.old step }
    ensures led { IfOk result (StepLed L settings.now core.old core.new (script_step step)) }
    ensures text { IfOk result IsOutcomeText }
    ensures err { OnErr result (core.new ≡ core.old) }
{
    Ok(told(core.step(alloc, step, steps)?))
}

/// The work of a change is made, and the change done, if it is accepted and not done. If memory is refused, nothing
/// has changed.
pub(crate) fn finished<L: Ledger>(
    alloc: Global,
    keyer: &Keyer,
    core: &mut Core<Work<L>>,
    by: u32,
    change: u64,
    steps: &mut Steps<L>,
) -> Result<ScriptOutcome, Memory>
    requires in_range { IsInRange keyer.now.settings }
    requires driven { IsDriven L keyer.now.settings core.old }
    requires caller { by < callers }
    ensures led { IfOk result (StepLed L keyer.now.settings core.old core.new (script.Done by change)) }
    ensures text { IfOk result IsOutcomeText }
    ensures err { OnErr result (core.new ≡ core.old) }
{
    match core.job(change)? {
        None => Ok(ScriptOutcome::No),
        Some(job) => {
            let work = work_for(alloc, keyer, job.lang, &job.text)?;
            let step = Step::Done { by, change, work };
            stepped(alloc, &keyer.settings, core, step, steps)
        }
    }
}
