ghost use Rattle.std.specs.Prelude.{◌≡◌, if◌then◌else◌, ◌+◌, ◌<◌, ◌≤◌, ◌^◌, ◌%◌, [], length, option_copied, is_some, All, IfOk, OnOk, OnErr, IfSome};
ghost use Rattle.std.specs.Int.{IsPowerOfTwo};
ghost use Rattle.std.specs.List.Sorted.{IsStrictlyIncreasing};
ghost use Rattle.cq_shard.specs.Gathered.{AreGathered, AddsBrought, brought_for, cost_for};
ghost use Rattle.cq_shard.specs.Calls.{NotesLent};
ghost use Rattle.cq_shard.specs.Shard.{puts_among};

use crate::indexed::Indexed;
use crate::parting::room;
use crate::store::Store;
use cq_base::{Entry, Memory, Steps};
use std::alloc::Global;
use std::sync::Arc;
use std::sync::ledger::Ledger;

/// The shard's part of a change: which shard it is of how many, and the change's number.
#[derive(Clone, Copy)]
pub(crate) struct Part {
    pub shard: u32,
    pub shards: u32,
    pub change: u64,
}

/// The key modulo the number of shards. If that is `power` it needs no division.
#[tactic(auto, using(crate::proofs::Masks::mask_is_remainder))]
pub(crate) fn remainder(key: u64, shards: u64, power: u64) -> u64
    requires some { 0 < shards }
    requires power { IsPowerOfTwo power }
    ensures { result ≡ key % shards }
{
    if shards == power {
        key & (power - 1)
    } else {
        key % shards
    }
}

// Puts the entries that the change brings, if its windows have these keys, after others, by place.
fn gather(part: Part, keys: &[u64], entries: &mut Vec<Entry>) -> Result<(), Memory>
    requires few { length keys.now < 2 ^ 32 }
    requires some { 0 < part.shards }
    ensures { OnOk result (AreGathered part keys.now entries.old.items entries.new.items) }
{
    let shards = u64::from(part.shards);
    let power = shards.next_power_of_two();
    for (at, key) in keys.iter().enumerate() {
        if remainder(*key, shards, power) == u64::from(part.shard) {
            let entry = Entry {
                key: *key,
                change: part.change,
                at: at as u32,
            };
            entries.push(entry)?;
        }
    }
    Ok(())
}

/// The entries that the change brings to the shard, by place.
pub(crate) fn entries_for<W: Indexed>(
    alloc: Global,
    part: Part,
    work: Option<&W>,
) -> Result<Vec<Entry>, Memory>
    requires few { IfSome work (λ w. length (W.keys_in w.now) < 2 ^ 32) }
    requires some { 0 < part.shards }
    ensures { IfOk result (λ entries. entries.items ≡ brought_for W.keys_in part work.entry) }
{
    let mut entries = Vec::new(alloc);
    if let Some(work) = work {
        let keys = work.keys();
        entries.reserve(room(keys.len(), part.shards))?;
        gather(part, keys, &mut entries)?;
    }
    Ok(entries)
}

/// The numbers of the puts among the changes after this many; only puts have works.
pub(crate) fn puts_in<W: Indexed>(
    alloc: Global,
    applied: u64,
    works: &[Option<Arc<W, Global>>],
) -> Result<Vec<u64>, Memory>
    requires { applied + length works.now < 2 ^ 64 }
    ensures { IfOk result (λ puts. puts.items ≡ puts_among applied works.now) }
{
    let mut puts = Vec::with_capacity(alloc, works.len())?;
    let mut change = applied;
    for work in works {
        change += 1;
        if let Some(_work) = work {
            puts.push(change)?;
        }
    }
    Ok(puts)
}

// The numbers, if there is a work.
fn where_some<'a, W>(numbers: &'a [u64], work: Option<&W>) -> &'a [u64]
    ensures { result.now ≡ (if is_some (option_copied work.entry) then numbers.now else []) }
{
    match work {
        Some(_work) => numbers,
        None => &[],
    }
}

/// Adds the change, which is a put if it has a work, and the entries that it brings to the shard, or nothing.
pub(crate) fn add_work<W: Indexed, L: Ledger>(
    alloc: Global,
    store: &mut Store,
    part: Part,
    work: Option<&W>,
    steps: &mut Steps<L>,
) -> Result<(), Memory>
    requires few { IfSome work (λ w. length (W.keys_in w.now) < 2 ^ 32) }
    requires some { 0 < part.shards }
    requires later { store.old.applied < part.change }
    requires rising { IsStrictlyIncreasing store.old.puts }
    requires known { All (λ n. n ≤ store.old.applied) store.old.puts }
    ensures applied { OnOk result (store.new.applied ≡ part.change) }
    ensures noted { OnOk result (NotesLent part.change work.entry store.old.puts store.new.puts) }
    ensures added { OnOk result (AddsBrought W.keys_in part work.entry store.old store.new) }
    ensures same { OnErr result (store.new ≡ store.old) }
    ensures steps { OnOk result (steps.new ≡ steps.old + cost_for W.keys_in part work.entry) }
    ensures most { steps.new ≤ steps.old + cost_for W.keys_in part work.entry }
{
    let entries = entries_for(alloc, part, work)?;
    let number = [part.change];
    let puts = where_some(&number, work);
    store.add(alloc, part.change, puts, entries, steps)
}
