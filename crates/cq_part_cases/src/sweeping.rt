ghost use Rattle.std.specs.Prelude.{◌≡◌, ◌<◌, []};
ghost use Rattle.cq_shared.specs.SharedPasses.{IsPassOf, settings_of};

use crate::made::{Counted, Made, SETTINGS};
use crate::publishing::publish_three;
use cq_base::Memory;
use cq_board::Refused;
use cq_chain::Pass;
use cq_shard::Indexed;
use cq_shared::Shared;
use std::alloc::Global;
use std::sync::Wait;

// What comes of the three works, for a caller that has seen nothing.
fn serve<W: Made, R: Wait>(
    alloc: Global,
    hub: &Shared<W, R>,
    mut pass: Pass<W>,
) -> Result<(u64, u64, u64), Refused>
    requires of { IsPassOf hub.now pass }
    requires fresh { pass.seen ≡ [] }
{
    publish_three(alloc, hub, &mut pass)
}

// The floor of a shard, and how many entries with the key 3 it has of the first two changes.
fn look<W: Indexed, R: Wait>(
    alloc: Global,
    hub: &Shared<W, R>,
    number: u32,
    pass: &mut Pass<W>,
) -> Result<(u64, usize), Memory>
    requires of { IsPassOf hub.now pass.old }
    requires number { number < (settings_of hub.now).shards }
    ensures of { IsPassOf hub.now pass.new }
{
    let shard = hub.cells().enter_shard(number, pass);
    let floor = shard.floor();
    let entries = shard.bucket(alloc, 3, &[1, 2]);
    hub.cells().leave_shard(number, shard, pass);
    Ok((floor, entries?.len()))
}

// What comes of the three works over a new shared hub, and how each of its two shards then looks to another caller.
fn swept_and_seen<Q: Wait>(
    rt: &Q,
    alloc: Global,
) -> Result<((u64, u64, u64), (u64, usize), (u64, usize)), Refused> {
    let (hub, mut pass) = Shared::<Counted, _>::new(rt, alloc, &SETTINGS, 2)?;
    let one = hub.split_pass(&mut pass);
    let came = serve(alloc, &hub, one)?;
    let first = look(alloc, &hub, 0, &mut pass)?;
    let second = look(alloc, &hub, 1, &mut pass)?;
    Ok((came, first, second))
}

// Of the entries with the key 3 of the first two changes, that of the first is let go of, which has another version.
#[test]
fn each_shared_shard_looks_at_keys_once_and_is_swept(rt: HostRuntime) -> Result<(), Refused> {
    assert_eq!(rt;
        swept_and_seen(&rt, rt.alloc())?,
        ((2, 2, 3), (3, 0), (3, 1))
    );
    Ok(())
}
