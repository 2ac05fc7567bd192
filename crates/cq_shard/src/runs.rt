ghost use Rattle.std.specs.Prelude.{◌≡◌, ◌++◌, ◌∷◌, ◌+◌, ◌≤◌, [], length, take, map, AllPairs, Contains, IfOk, OnOk, OnErr};
ghost use Rattle.std.specs.List.Sorted.{IsStrictlyIncreasing};
ghost use Rattle.cq_base.specs.declared.entry.Entry.{Entry};
ghost use Rattle.cq_clones.specs.Windows.{EntryBefore};
ghost use Rattle.cq_shard.specs.Calls.{AreMergedBehind};
ghost use Rattle.cq_shard.specs.Runs.{AreRuns, AreAdded, AreDifferent, Precedes};
ghost use Rattle.cq_shard.specs.Shard.{AreAsked};
ghost use Rattle.cq_shard.specs.Stores.{those_of, AreLeft};

use crate::run::{Run, sorted_rows};
use crate::table::Table;
use cq_base::{Entry, Memory, Steps};
use std::alloc::Global;
use std::marker::Model;
use std::sync::ledger::Ledger;

/// The entries of a shard, as runs of changes that follow each other. Each run was made with at least twice the entries of
/// the one after it, so there are at most as many runs as the logarithm of the entries that they were made with, and an
/// entry is moved about as often.
#[derive(Drop)]
pub(crate) struct Runs {
    runs: Vec<Run>,
}

impl Model for Runs {
    ghost use Rattle.std.specs.Prelude.{List};
    ghost use Rattle.cq_base.specs.declared.entry.Entry.{Entry};
    ghost use Rattle.cq_shard.specs.Runs.{entries_in, AreRuns};

    ghost Value = { List Entry };

    ghost view = { λ r. entries_in r.runs.items };

    ghost invariant = { λ r. AreRuns r.runs.items };
}

impl Runs {
    /// No entries. It takes no memory.
    pub fn new(alloc: Global) -> Runs
        ensures { result ≡ [] }
    {
        Runs {
            runs: Vec::new(alloc),
        }
    }

    /// Adds these entries, of changes later than all before; none of them if memory is refused. Each is one step, and
    /// what merging moves is none.
    pub fn add<L: Ledger>(
        &mut self,
        alloc: Global,
        entries: Vec<Entry>,
        steps: &mut Steps<L>,
    ) -> Result<(), Memory>
        requires ordered { AllPairs EntryBefore entries.items }
        requires later { Precedes self.old entries.items }
        ensures added { OnOk result (AreAdded self.old entries.items self.new) }
        ensures same { OnErr result (self.new ≡ self.old) }
        ensures steps { OnOk result (steps.new ≡ steps.old + length entries.items) }
        ensures most { steps.new ≤ steps.old + length entries.items }
    {
        let added = entries.len();
        if added > 0 {
            let (kept, rows) = gather(alloc, &self.runs, sorted_rows(entries))?;
            let run = Run::of(alloc, rows)?;
            put(&mut self.runs, kept, run)?;
            count(added, steps);
        }
        Ok(())
    }

    /// Those with the key whose change is one of `live`, by change and place. It searches each run that may have the key,
    /// and `live` for each entry with it.
    pub fn bucket(&self, alloc: Global, key: u64, live: &[u64]) -> Result<Vec<Entry>, Memory>
        requires { IsStrictlyIncreasing live.now }
        ensures { IfOk result (λ bucket. AreAsked key live.now self.now bucket.items) }
    {
        let mut bucket = Vec::new(alloc);
        for run in &self.runs {
            run.find(key, live, &mut bucket)?;
        }
        Ok(bucket)
    }

    /// Only the entries of these changes. It looks at each entry, and takes no memory.
    pub fn keep(&mut self, changes: &Table)
        ensures { self.new ≡ those_of changes.now self.old }
    {
        keep_each(&mut self.runs, changes);
    }

    /// Only the entries of these changes, in those runs with which this many more entries will be merged, and how many
    /// went. It looks at the entries of these runs, and takes no memory.
    pub fn keep_last(&mut self, changes: &Table, added: usize) -> u64
        ensures those { those_of changes.now self.new ≡ those_of changes.now self.old }
        ensures fewer { (e : Entry) → Contains self.new e → Contains self.old e }
        ensures different { AreDifferent self.new }
    {
        keep_last(&mut self.runs, changes, added)
    }
}

// Only the entries of these changes, in each run.
fn keep_each(runs: &mut Vec<Run>, changes: &Table)
    ensures { runs.new.items ≡ map (those_of changes.now) runs.old.items }
{
    for i in 0..runs.len() {
        runs[i].keep(changes);
    }
}

// Only the entries of these changes, in each run with which a run of this many entries will be merged, and how many
// went.
fn keep_last(runs: &mut Vec<Run>, changes: &Table, added: usize) -> u64
    ensures { AreLeft changes.now runs.old.items runs.new.items }
{
    let mut kept = runs.len();
    let mut together = added;
    let mut taken = 0u64;
    'runs: while kept > 0 && runs[kept - 1].len() / 2 < together {
        kept -= 1;
        let before = runs[kept].len();
        runs[kept].keep(changes);
        let left = runs[kept].len();
        together = together.saturating_add(left);
        taken = taken.saturating_add(before.saturating_sub(left) as u64);
    }
    taken
}

// These rows merged with the runs before them that have less than twice their entries: how many runs stay, and the rows
// that come after them.
fn gather(alloc: Global, runs: &[Run], rows: Vec<Entry>) -> Result<(usize, Vec<Entry>), Memory>
    requires { AreRuns (runs.now ++ rows.items ∷ []) }
    ensures kept { IfOk result (λ g. g.0 ≤ length runs.now) }
    ensures runs { IfOk result (AreMergedBehind runs.now rows.items) }
{
    let mut kept = runs.len();
    let mut rows = rows;
    'merging: while kept > 0 && runs[kept - 1].len() / 2 < rows.len() {
        rows = runs[kept - 1].merged(alloc, &rows)?;
        kept -= 1;
    }
    Ok((kept, rows))
}

// Replaces all runs after the first `kept` by this one.
fn put(runs: &mut Vec<Run>, kept: usize, run: Run) -> Result<(), Memory>
    requires { kept ≤ length runs.old.items }
    ensures put { OnOk result (runs.new.items ≡ take kept runs.old.items ++ run ∷ []) }
    ensures same { OnErr result (runs.new.items ≡ runs.old.items) }
{
    if kept == runs.len() {
        runs.push(run)?;
    } else {
        runs[kept] = run;
        runs.truncate(kept + 1);
    }
    Ok(())
}

// This many steps.
fn count<L: Ledger>(number: usize, steps: &mut Steps<L>)
    ensures { steps.new ≡ steps.old + number }
{
    for _step in 0..number {
        steps.tick();
    }
}
