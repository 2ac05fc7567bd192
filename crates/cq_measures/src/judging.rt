ghost use Rattle.std.specs.Prelude.{◌≡◌, ◌<◌, ◌^◌, length, IfOk};
ghost use Rattle.cq_measures.specs.Verdict as spec;

use crate::comparing::met;
use crate::outcome::{Positions, Verdict};
use cq_base::{Condition, Measures, Memory};
use std::alloc::Global;

// The positions of the conditions that are met.
fn failed(alloc: Global, conditions: &[Condition], measures: &Measures) -> Result<Vec<u32>, Memory>
    requires { length conditions.now < 2 ^ 32 }
    ensures { IfOk result (λ v. v.items ≡ spec.failed measures.now conditions.now) }
{
    let mut failed = Vec::new(alloc);
    for i in 0..conditions.len() as u32 {
        if met(&conditions[i as usize], measures) {
            failed.push(i)?;
        }
    }
    Ok(failed)
}

/// OK if none of the conditions is met, and else the positions of those that are, from 0 and ascending.
pub fn verdict(
    alloc: Global,
    conditions: &[Condition],
    measures: &Measures,
) -> Result<Verdict, Memory>
    requires few { length conditions.now < 2 ^ 32 }
    ensures { IfOk result (λ v. v ≡ spec.verdict_of conditions.now measures.now) }
{
    let failed = failed(alloc, conditions, measures)?;
    if failed.is_empty() {
        return Ok(Verdict::Ok);
    }
    Ok(Verdict::Error(Positions::from_vec(failed)))
}
