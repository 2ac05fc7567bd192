ghost use Rattle.std.specs.Prelude.{◌≡◌, ◌+◌, ◌≤◌, vec_len, All, IfOk, OnOk};
ghost use Rattle.cq_cells.specs.Passes.{by_of};
ghost use Rattle.cq_listen.specs.Seats.{IsIdle};

use cq_base::Memory;
use cq_chain::Pass;
use cq_shard::Indexed;
use cq_shared::Shared;
use std::alloc::Global;

/// So many passes, whose callers are the next ones of this one.
pub fn passes_of<W: Indexed, R>(
    alloc: Global,
    hub: &Shared<W, R>,
    pass: &mut Pass<W>,
    number: u32,
) -> Result<Vec<Pass<W>>, Memory>
    requires idle { IsIdle hub.now pass.old }
    requires room { number ≤ pass.old.room }
    ensures idle { IsIdle hub.now pass.new }
    ensures caller { by_of pass.new ≡ by_of pass.old }
    ensures seen { pass.new.seen ≡ pass.old.seen }
    ensures room { OnOk result (pass.new.room + number ≡ pass.old.room) }
    ensures number { IfOk result (λ passes. vec_len passes ≡ number) }
    ensures each { IfOk result (λ passes. All (IsIdle hub.now) passes.items) }
{
    let mut passes = Vec::with_capacity(alloc, number as usize)?;
    'passes: for _pass in 0..number {
        let own = hub.split_pass(pass);
        passes.push(own)?;
    }
    Ok(passes)
}
