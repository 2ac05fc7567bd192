ghost use Rattle.std.specs.Prelude.{◌≡◌, ◌<◌, ◌^◌, map, IfOk};
ghost use Rattle.std.specs.Arc.{arc_value};
ghost use Rattle.std.specs.List.{AllByRecursion};
ghost use Rattle.cq_tokform.specs.Sound.{IsSoundCondition};

use cq_base::{Condition, Memory};
use cq_projects::{Held, ProjectFiles};
use std::alloc::Global;
use std::sync::Arc;

// Further owners of files.
fn owners_of<W: Drop>(
    alloc: Global,
    files: &[Arc<Held<W>, Global>],
) -> Result<Vec<Arc<Held<W>, Global>>, Memory>
    ensures { IfOk result (λ owners. map arc_value owners.items ≡ map arc_value files.now) }
{
    let mut owners = Vec::with_capacity(alloc, files.len())?;
    for file in files {
        let file = Arc::try_clone(file)?;
        owners.push(file)?;
    }
    Ok(owners)
}

/// The same files, an owner more for each.
pub(crate) fn shared<W: Drop>(
    alloc: Global,
    files: &ProjectFiles<W>,
) -> Result<ProjectFiles<W>, Memory>
    ensures { IfOk result (λ same. same ≡ files.now) }
{
    let _apart = files.spots();
    let owners = owners_of(alloc, files.items())?;
    ProjectFiles::gathered(alloc, owners)
}

// A number has eight bytes.
fn in_eight_bytes(number: u64) -> u64
    ensures same { result ≡ number }
    ensures low { result < 2 ^ 64 }
{
    number
}

// The same condition. Its error has eight bytes.
fn as_read(condition: &Condition) -> Condition
    ensures same { result ≡ condition.now }
    ensures sound { IsSoundCondition result }
{
    Condition {
        metric: condition.metric,
        op: condition.op,
        error: in_eight_bytes(condition.error),
    }
}

/// The same conditions. Each error has eight bytes.
pub(crate) fn copied(alloc: Global, conditions: &[Condition]) -> Result<Vec<Condition>, Memory>
    ensures same { IfOk result (λ copied. copied.items ≡ conditions.now) }
    ensures sound { IfOk result (λ copied. AllByRecursion IsSoundCondition copied.items) }
{
    let mut copied = Vec::with_capacity(alloc, conditions.len())?;
    for condition in conditions {
        copied.push(as_read(condition))?;
    }
    Ok(copied)
}
