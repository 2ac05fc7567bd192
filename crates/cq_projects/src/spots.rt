//! The spots of a project's files.
ghost use Rattle.std.specs.Prelude.{◌≡◌, ◌≢◌, ◌<◌, ◌^◌, AllPairs, IfOk, length, map};
ghost use Rattle.std.specs.Arc.{arc_value};
ghost use Rattle.cq_order.specs.Spots.{AreSpots};
ghost use Rattle.cq_projects.specs.Spotted.{numbers_of};

use crate::held::Held;
use cq_base::Memory;
use cq_order::Spots;
use std::alloc::Global;
use std::sync::Arc;

// The changes that put the files.
fn changes_of<W>(alloc: Global, files: &[Arc<Held<W>, Global>]) -> Result<Vec<u64>, Memory>
    ensures { IfOk result (λ changes. changes.items ≡ numbers_of (map arc_value files.now)) }
{
    let mut changes = Vec::with_capacity(alloc, files.len())?;
    for file in files {
        changes.push(file.change)?;
    }
    Ok(changes)
}

/// The spots of files that were each put by a change of its own. It costs what cq_order takes for those of the changes.
pub fn spots_of<W>(alloc: Global, files: &[Arc<Held<W>, Global>]) -> Result<Spots, Memory>
    requires few { length files.now < 2 ^ 32 }
    requires apart { AllPairs (λ a b. a ≢ b) (numbers_of (map arc_value files.now)) }
    ensures { IfOk result (λ spots. AreSpots (numbers_of (map arc_value files.now)) spots) }
{
    let changes = changes_of(alloc, files)?;
    cq_order::spots_of(alloc, &changes)
}
