ghost use Rattle.std.specs.Prelude.{◌≡◌, ◌+◌, ◌<◌, ◌≤◌, ◌^◌, length, IfOk, OnOk, OnErr, IfSome};
ghost use Rattle.std.specs.List.Sorted.{IsStrictlyIncreasing};
ghost use Rattle.cq_shard.specs.Calls.{StandsOnLent, NotesLent, cost_of, StandsOnWithAll, NotesAll, cost_of_all};
ghost use Rattle.cq_shard.specs.Shard.{fresh_shard, IsSameShard, all_brought_to, AreAsked, AreKnown, swept};

use crate::applying::{Part, add_work, puts_in};
use crate::indexed::Indexed;
use crate::laws::applying_adds_its_rows;
use crate::store::Store;
use cq_base::{Entry, Memory, Steps};
use std::alloc::Global;
use std::marker::Model;
use std::sync::Arc;
use std::sync::ledger::Ledger;

/// One of the shards of an index.
#[derive(Drop)]
pub struct Shard {
    shard: u32,
    shards: u32,
    floor: u64,
    alloc: Global,
    store: Store,
}

impl Model for Shard {
    ghost use Rattle.cq_shard.specs.Shard.{Contents, IsShard};

    ghost Value = { Contents };

    ghost view = { λ s. record { shard = s.shard; shards = s.shards; applied = s.store.applied; floor = s.floor; puts = s.store.puts; entries = s.store.entries } };

    ghost invariant = { λ s. IsShard (record { shard = s.shard; shards = s.shards; applied = s.store.applied; floor = s.floor; puts = s.store.puts; entries = s.store.entries }) };
}

impl Shard {
    /// The shard of this number, from 0, which has applied nothing. It takes no memory.
    pub fn new(alloc: Global, shard: u32, shards: u32) -> Shard
        requires { shard < shards }
        ensures { result ≡ fresh_shard shard shards }
    {
        Shard {
            shard,
            shards,
            floor: 0,
            alloc,
            store: Store::new(alloc),
        }
    }

    /// Up to which change it has applied all.
    pub fn applied(&self) -> u64
        ensures { result ≡ self.now.applied }
    {
        self.store.applied()
    }

    /// Of the changes up to this one, it holds only the puts that it keeps.
    pub fn floor(&self) -> u64
        ensures { result ≡ self.now.floor }
    {
        self.floor
    }

    /// Applies the next change, whose work is given exactly if it is a put. If memory is refused, nothing has changed.
    /// It looks at each key of the work; each that is the shard's costs a step and an entry. Beside that, runs of
    /// entries are merged: over all applications each entry is moved about as often as the logarithm of their number. A
    /// put costs 16 bytes as long as the shard knows it, even if no key is the shard's.
    pub fn apply<W: Indexed, L: Ledger>(
        &mut self,
        change: u64,
        work: Option<&W>,
        steps: &mut Steps<L>,
    ) -> Result<(), Memory>
        requires next { change ≡ self.old.applied + 1 }
        requires few { IfSome work (λ w. length (W.keys_in w.now) < 2 ^ 32) }
        ensures stands { OnOk result (StandsOnLent W.Indexed change work.entry self.old self.new) }
        ensures applied { OnOk result (self.new.applied ≡ change) }
        ensures kept { OnOk result (IsSameShard self.old self.new) }
        ensures noted { OnOk result (NotesLent change work.entry self.old.puts self.new.puts) }
        ensures same { OnErr result (self.new ≡ self.old) }
        ensures steps { OnOk result
            (steps.new ≡ steps.old + cost_of W.keys_in self.old change work.entry) }
        ensures most { steps.new ≤ steps.old + cost_of W.keys_in self.old change work.entry }
    {
        applying_adds_its_rows::<W>();
        let part = Part {
            shard: self.shard,
            shards: self.shards,
            change,
        };
        add_work(self.alloc, &mut self.store, part, work, steps)?;
        Ok(())
    }

    /// Applies the next changes, one for each of these works, which are given exactly if the changes are puts, and of which
    /// these are the entries that are the shard's. If memory is refused, nothing has changed. Each entry costs a step; they
    /// are sorted in place and merged once, as one run.
    pub fn apply_all<W: Indexed, L: Ledger>(
        &mut self,
        works: &[Option<Arc<W, Global>>],
        part: Vec<Entry>,
        steps: &mut Steps<L>,
    ) -> Result<(), Memory>
        requires room { self.old.applied + length works.now < 2 ^ 64 }
        requires part { part.items ≡ all_brought_to W.keys_in self.old works.now }
        ensures stands { OnOk result (StandsOnWithAll W.Indexed works.now self.old self.new) }
        ensures applied { OnOk result (self.new.applied ≡ self.old.applied + length works.now) }
        ensures kept { OnOk result (IsSameShard self.old self.new) }
        ensures noted { OnOk result (NotesAll works.now self.old self.new) }
        ensures same { OnErr result (self.new ≡ self.old) }
        ensures steps { OnOk result
            (steps.new ≡ steps.old + cost_of_all W.keys_in self.old works.now) }
        ensures most { steps.new ≤ steps.old + cost_of_all W.keys_in self.old works.now }
    {
        applying_adds_its_rows::<W>();
        let before = self.store.applied();
        let puts = puts_in(self.alloc, before, works)?;
        let applied = before + works.len() as u64;
        self.store.add(self.alloc, applied, &puts, part, steps)?;
        Ok(())
    }

    /// The entries with the key whose change is one of `live`, by change and place. It looks at a word of each of the
    /// shard's runs, of which there are at most the logarithm of the entries that they were made with, searches those that
    /// may have the key, and searches `live` for each entry with it.
    pub fn bucket(&self, alloc: Global, key: u64, live: &[u64]) -> Result<Vec<Entry>, Memory>
        requires rising { IsStrictlyIncreasing live.now }
        ensures { IfOk result (λ bucket. AreAsked key live.now self.now.entries bucket.items) }
    {
        self.store.bucket(alloc, key, live)
    }

    /// Takes all puts up to the new floor out, with their entries, except for those to keep, which are the puts that this
    /// floor keeps, so that the shard knows them all. It is two searches among the puts, and one more for each that goes;
    /// what comes after that moves up. It takes no memory.
    pub fn sweep(&mut self, floor: u64, keep: &[u64])
        requires low { self.old.floor ≤ floor }
        requires high { floor ≤ self.old.applied }
        requires rising { IsStrictlyIncreasing keep.now }
        requires known { AreKnown keep.now self.old }
        ensures { self.new ≡ swept floor keep.now self.old }
    {
        self.store.sweep(floor, keep);
        self.floor = floor;
    }
}
