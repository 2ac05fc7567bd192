ghost use Rattle.std.specs.Prelude.{◌≡◌, ◌+◌, ◌<◌, ◌^◌, [], length, map, replicate, IfOk, OnOk};
ghost use Rattle.cq_shard.specs.Shard.{HaveFewKeys};
ghost use Rattle.cq_shard.specs.Parts.{AreParts, HaveMore};

use crate::applying::remainder;
use crate::indexed::Indexed;
use cq_base::{Entry, Memory};
use std::alloc::Global;
use std::sync::Arc;

/// The entries that the changes after this many bring to each of the shards, a change for each work, by change and place.
/// It looks at each key once, whatever the number of shards, and takes an entry for each, and a list for each shard.
pub fn parted<W: Indexed>(
    alloc: Global,
    applied: u64,
    shards: u32,
    works: &[Option<Arc<W, Global>>],
) -> Result<Vec<Vec<Entry>>, Memory>
    requires some { 0 < shards }
    requires room { applied + length works.now < 2 ^ 64 }
    requires few { HaveFewKeys W.keys_in works.now }
    ensures { IfOk result (λ parts. AreParts W.keys_in applied shards works.now parts.items) }
{
    let mut parts = empty(alloc, shards)?;
    let mut change = applied;
    for work in works {
        change += 1;
        if let Some(work) = work {
            part(change, shards, work.keys(), &mut parts)?;
        }
    }
    Ok(parts)
}

/// The number of entries for which a shard's list gets room, if this many keys are spread evenly. Most lists then never
/// grow. To grow one means to copy it, and to wait for another thread's allocator if that thread had the list's memory
/// before.
pub(crate) fn room(keys: usize, shards: u32) -> usize
    requires { 0 < shards }
{
    let even = keys / shards as usize;
    even.saturating_add(even / 4 + 8)
}

// This many lists without an entry.
fn empty(alloc: Global, shards: u32) -> Result<Vec<Vec<Entry>>, Memory>
    ensures { IfOk result (λ parts. map (λ part. part.items) parts.items ≡ replicate shards []) }
{
    let mut parts = Vec::with_capacity(alloc, shards as usize)?;
    for _shard in 0..shards {
        parts.push(Vec::new(alloc))?;
    }
    Ok(parts)
}

// Puts each entry that the change brings, if its windows have these keys, after those of its shard, by place.
fn part(change: u64, shards: u32, keys: &[u64], parts: &mut Vec<Vec<Entry>>) -> Result<(), Memory>
    requires few { length keys.now < 2 ^ 32 }
    requires some { 0 < shards }
    requires number { length parts.old.items ≡ shards }
    ensures { OnOk result (HaveMore change shards keys.now parts.old.items parts.new.items) }
{
    let number = u64::from(shards);
    let power = number.next_power_of_two();
    for (at, key) in keys.iter().enumerate() {
        let shard = remainder(*key, number, power) as usize;
        parts[shard].push(Entry {
            key: *key,
            change,
            at: at as u32,
        })?;
    }
    Ok(())
}
