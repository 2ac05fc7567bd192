ghost use Rattle.std.specs.Prelude.{◌≡◌, ◌+◌, ◌≤◌, ◌++◌, [], length, AllPairs, Contains, IfOk, OnOk, OnErr};
ghost use Rattle.std.specs.List.Sorted.{IsStrictlyIncreasing};
ghost use Rattle.cq_base.specs.declared.entry.Entry.{Entry};
ghost use Rattle.cq_clones.specs.Windows.{EntryBefore};
ghost use Rattle.cq_shard.specs.Blocks.{GrowsBy};
ghost use Rattle.cq_shard.specs.Runs.{AreAdded, AreDifferent, Precedes};
ghost use Rattle.cq_shard.specs.Shard.{AreAsked};
ghost use Rattle.cq_shard.specs.Stores.{AreNext, left_by, those_of};
ghost use Rattle.cq_shard.specs.Tables.{AreAmong};

use crate::runs::Runs;
use crate::table::Table;
use cq_base::{Entry, Memory, Steps};
use std::alloc::Global;
use std::marker::Model;
use std::sync::ledger::Ledger;

/// The puts of a shard that no sweep took out, and their entries. The entries that a sweep takes out stay in their run
/// until that is merged with another, or until they are as many as those that are left; then the runs are cleared in
/// place. So sweeping takes no memory, and a run has what was taken out since it was made, and nothing older.
#[derive(Drop)]
pub(crate) struct Store {
    runs: Runs,
    table: Table,
    applied: u64,
    standing: u64,
    gone: u64,
}

impl Model for Store {
    ghost use Rattle.cq_shard.specs.Stores.{Stored, stored, IsStore};

    ghost Value = { Stored };

    ghost view = { λ s. stored s.applied s.table s.runs };

    ghost invariant = { λ s. IsStore s.applied s.table s.runs s.gone };
}

impl Store {
    /// No entries. It takes no memory.
    pub fn new(alloc: Global) -> Store
        ensures { result ≡ record { applied = 0; puts = []; entries = [] } }
    {
        Store {
            runs: Runs::new(alloc),
            table: Table::new(alloc),
            applied: 0,
            standing: 0,
            gone: 0,
        }
    }

    /// Up to which change all were added.
    pub fn applied(&self) -> u64
        ensures { result ≡ self.now.applied }
    {
        self.applied
    }

    /// Adds the puts of the changes up to this one, and their entries by change and place; none of them if memory is
    /// refused. Each entry is one step.
    pub fn add<L: Ledger>(
        &mut self,
        alloc: Global,
        applied: u64,
        puts: &[u64],
        entries: Vec<Entry>,
        steps: &mut Steps<L>,
    ) -> Result<(), Memory>
        requires further { self.old.applied ≤ applied }
        requires ordered { AllPairs EntryBefore entries.items }
        requires next { AreNext self.old applied puts.now entries.items }
        ensures applied { OnOk result (self.new.applied ≡ applied) }
        ensures noted { OnOk result (self.new.puts ≡ self.old.puts ++ puts.now) }
        ensures added { OnOk result (AreAdded self.old.entries entries.items self.new.entries) }
        ensures same { OnErr result (self.new ≡ self.old) }
        ensures steps { OnOk result (steps.new ≡ steps.old + length entries.items) }
        ensures most { steps.new ≤ steps.old + length entries.items }
    {
        let added = entries.len() as u64;
        self.gone = cleared(&mut self.runs, &self.table, entries.len(), self.gone);
        match put(alloc, &mut self.runs, &mut self.table, puts, entries, steps) {
            Ok(()) => {
                self.applied = applied;
                self.standing = self.standing.saturating_add(added);
                Ok(())
            }
            Err(refused) => {
                self.table.cut(self.applied);
                Err(refused)
            }
        }
    }

    /// Those with the key whose change is one of `live`, by change and place. It searches each run that may have the key,
    /// `live` for each entry with it, and, if some puts are gone, the remaining puts for each entry of a live one.
    pub fn bucket(&self, alloc: Global, key: u64, live: &[u64]) -> Result<Vec<Entry>, Memory>
        requires { IsStrictlyIncreasing live.now }
        ensures { IfOk result (λ bucket. AreAsked key live.now self.now.entries bucket.items) }
    {
        let mut bucket = self.runs.bucket(alloc, key, live)?;
        if self.gone == 0 {
            return Ok(bucket);
        }
        self.table.keep(&mut bucket);
        Ok(bucket)
    }

    /// Takes the puts up to the floor out, with their entries, except for those to keep. It is a search for each that
    /// goes, two more, and a move of those after them; and, once as much has gone as is left, a search for each entry of
    /// all runs. It takes no memory. For that comparison, what goes counts as its entries, or as its puts if these are
    /// more.
    pub fn sweep(&mut self, floor: u64, keep: &[u64])
        requires rising { IsStrictlyIncreasing keep.now }
        requires known { AreAmong keep.now self.old.puts }
        ensures { self.new ≡ left_by floor keep.now self.old }
    {
        let (went, taken) = self.table.take_out(floor, keep);
        self.gone = self.gone.saturating_add(taken.max(went as u64));
        self.standing = self.standing.saturating_sub(taken);
        if self.gone < self.standing {
            return;
        }
        self.runs.keep(&self.table);
        self.gone = 0;
    }
}

// Clears the runs with which this many more entries will be merged of what a sweep took out, if there is any, and returns
// how much is still there. It is counted as one if all of it may have gone.
fn cleared(runs: &mut Runs, table: &Table, added: usize, gone: u64) -> u64
    ensures those { those_of table.now runs.new ≡ those_of table.now runs.old }
    ensures fewer { (e : Entry) → Contains runs.new e → Contains runs.old e }
    ensures different { AreDifferent runs.old → AreDifferent runs.new }
    ensures none { result ≡ 0 → gone ≡ 0 }
{
    if gone == 0 {
        return 0;
    }
    let taken = runs.keep_last(table, added);
    gone.saturating_sub(taken).max(1)
}

// Adds the entries to the runs, and the puts to the table; if memory is refused, nothing or only the table is
// changed.
fn put<L: Ledger>(
    alloc: Global,
    runs: &mut Runs,
    table: &mut Table,
    puts: &[u64],
    entries: Vec<Entry>,
    steps: &mut Steps<L>,
) -> Result<(), Memory>
    requires ordered { AllPairs EntryBefore entries.items }
    requires rows { Precedes runs.old entries.items }
    requires rising { IsStrictlyIncreasing (table.old ++ puts.now) }
    ensures grown { GrowsBy puts.now table.old table.new }
    ensures noted { OnOk result (table.new ≡ table.old ++ puts.now) }
    ensures added { OnOk result (AreAdded runs.old entries.items runs.new) }
    ensures same { OnErr result (runs.new ≡ runs.old) }
    ensures steps { OnOk result (steps.new ≡ steps.old + length entries.items) }
    ensures most { steps.new ≤ steps.old + length entries.items }
{
    table.note(alloc, puts, &entries)?;
    runs.add(alloc, entries, steps)
}
