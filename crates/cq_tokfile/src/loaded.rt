ghost use Rattle.std.specs.Prelude.{[], ◌≡◌, ◌≢◌, ◌+◌, ◌<◌, ◌≤◌, ◌^◌, length, Contains, AllPairs, IfOk, OnOk};
ghost use Rattle.std.specs.Bool.{OnTrue};
ghost use Rattle.std.specs.Ordering.{is_lt};
ghost use Rattle.cq_projects.specs.Spotted.{numbers_of};
ghost use Rattle.cq_base.specs.declared.entry.Entry.{Entry};
ghost use Rattle.cq_order.specs.Order.{IsOrderOf, is_entry_before};
ghost use Rattle.cq_tokens.specs.Corpus.{changes_of, keys_of};
ghost use Rattle.cq_tokfile.specs.Loaded as spec;

use crate::snapshot::Snapshot;
use cq_base::{Entry, Memory};
use cq_groups::Buckets;
use cq_projects::ProjectFiles;
use cq_tokens::FileTokens;
use cq_work::Work;
use std::alloc::Global;
use std::cmp::Ordering;
use std::marker::Model;
use std::sync::Arc;
use std::sync::ledger::Ledger;

/// The buckets of a snapshot's files. It has owners of its own of their tokens and keys, and borrows nothing, so that the
/// snapshot's files can be lent beside it. It keeps an entry for each window, by key: a question costs a search and a copy
/// of the answer, and no search if its key is the next one after that of the last question.
#[derive(Drop)]
pub struct Loaded<L: Ledger> {
    files: Vec<FileTokens<L>>,
    entries: Vec<Entry>,
    // after those that were returned last
    near: usize,
    asked: u64,
}

impl<L: Ledger> Model for Loaded<L> {
    ghost use Rattle.cq_tokens.specs.Corpus.{changes_of, keys_of};
    ghost use Rattle.cq_tokfile.specs.Loaded.{AreIndexed, KeyedFiles};

    ghost Value = { KeyedFiles };

    ghost view = { λ b. record { changes = changes_of b.files.items; keys = keys_of b.files.items; asked = b.asked } };

    ghost invariant = { λ b. AreIndexed (changes_of b.files.items) (keys_of b.files.items) b.entries.items };
}

// Further owners of what a listing takes of the files.
fn shared_files<L: Ledger>(
    alloc: Global,
    files: &ProjectFiles<Work<L>>,
) -> Result<Vec<FileTokens<L>>, Memory>
    ensures changes { IfOk result (λ shared. changes_of shared.items ≡ numbers_of files.now) }
    ensures keys { IfOk result (λ shared. keys_of shared.items ≡ spec.keys_in files.now) }
{
    let mut shared = Vec::with_capacity(alloc, files.len() as usize)?;
    for i in 0..files.len() {
        let held = files.at(i);
        shared.push(FileTokens {
            change: held.change,
            tokens: Arc::try_clone(&held.work.tokens)?,
            keys: Arc::try_clone(&held.work.keys)?,
        })?;
    }
    Ok(shared)
}

// Adds the entries of a file.
fn push_entries(entries: &mut Vec<Entry>, change: u64, keys: &[u64]) -> Result<(), Memory>
    requires few { length keys.now < 2 ^ 32 }
    requires apart { AllPairs (λ a b. a ≢ b) entries.old.items }
    requires others { (e : Entry) → Contains entries.old.items e → e.change ≢ change }
    ensures { OnOk result
        (spec.AddsAllEntries change keys.now entries.old.items entries.new.items) }
{
    for at in 0..keys.len() {
        entries.push(Entry {
            key: keys[at],
            change,
            at: at as u32,
        })?;
    }
    Ok(())
}

// By change and then place.
fn compare_places(a: &Entry, b: &Entry) -> Ordering
    ensures { is_lt result ≡ is_entry_before a.now b.now }
{
    a.change.cmp(&b.change).then(a.at.cmp(&b.at))
}

// By key, and then by change and place.
fn compare_keyed(a: &Entry, b: &Entry) -> Ordering
    ensures { is_lt result ≡ spec.is_keyed_before a.now b.now }
{
    a.key.cmp(&b.key).then(compare_places(a, b))
}

fn sort_keyed(entries: &mut Vec<Entry>)
    ensures { IsOrderOf spec.KeyedBefore entries.old.items entries.new.items }
{
    entries.sort_unstable_by(|a, b| compare_keyed(a, b));
}

// All entries of the files, in order.
fn entries_of<L: Ledger>(alloc: Global, files: &[FileTokens<L>]) -> Result<Vec<Entry>, Memory>
    requires { AllPairs (λ a b. a ≢ b) (changes_of files.now) }
    ensures { IfOk result
        (λ entries. spec.AreIndexed (changes_of files.now) (keys_of files.now) entries.items) }
{
    let mut entries = Vec::new(alloc);
    for file in files {
        push_entries(&mut entries, file.change, file.keys.as_slice())?;
    }
    sort_keyed(&mut entries);
    Ok(entries)
}

// Whether keys before the place are lesser, and none from there on is. It is two looks.
fn is_first(entries: &[Entry], at: usize, key: u64) -> bool
    requires { AllPairs spec.KeyedBefore entries.now }
    ensures { OnTrue result (spec.IsFirst key entries.now at) }
{
    if at > entries.len() {
        return false;
    }
    if at > 0 && entries[at - 1].key >= key {
        return false;
    }
    at == entries.len() || entries[at].key >= key
}

// The place before which keys are lesser, and from which on none is. It is searched for if it is not the one that is
// tried.
fn first_at(entries: &[Entry], near: usize, key: u64) -> usize
    requires { AllPairs spec.KeyedBefore entries.now }
    ensures { spec.IsFirst key entries.now result }
{
    if is_first(entries, near, key) {
        return near;
    }
    entries.partition_point(|e| e.key < key)
}

// The place after those with the key, each of which is looked at.
fn end_of(entries: &[Entry], from: usize, key: u64) -> usize
    requires ordered { AllPairs spec.KeyedBefore entries.now }
    requires first { spec.IsFirst key entries.now from }
    ensures further { from ≤ result }
    ensures first { spec.IsFirst (key + 1) entries.now result }
{
    let mut to = from;
    'walk: while to < entries.len() && entries[to].key == key {
        to += 1;
    }
    to
}

// The entries with the key among entries in order, and the place after them. The one before them is tried first.
fn with_key(
    alloc: Global,
    entries: &[Entry],
    near: usize,
    key: u64,
) -> Result<(Vec<Entry>, usize), Memory>
    requires { AllPairs spec.KeyedBefore entries.now }
    ensures { IfOk result (λ told. spec.AreThoseOf key entries.now told.0.items) }
{
    let from = first_at(entries, near, key);
    let to = end_of(entries, from, key);
    let found = Vec::from_slice(alloc, &entries[from..to])?;
    Ok((found, to))
}

impl<L: Ledger> Loaded<L> {
    /// The buckets of a snapshot's files. It costs a sort of their windows, and 24 bytes for each.
    pub fn new(alloc: Global, snapshot: &Snapshot<L>) -> Result<Loaded<L>, Memory>
        ensures of { IfOk result (spec.IsLoadedOf snapshot.now.files) }
        ensures asked { IfOk result (λ loaded. loaded.asked ≡ 0) }
    {
        let files = shared_files(alloc, &snapshot.files)?;
        let _apart = snapshot.files.spots();
        let entries = entries_of(alloc, files.as_slice())?;
        Ok(Loaded {
            files,
            entries,
            near: 0,
            asked: 0,
        })
    }

    /// The buckets of no files. It takes no memory.
    pub fn none(alloc: Global) -> Loaded<L>
        ensures { result ≡ record { changes = []; keys = []; asked = 0 } }
    {
        Loaded {
            files: Vec::new(alloc),
            entries: Vec::new(alloc),
            near: 0,
            asked: 0,
        }
    }

    /// How often it was asked.
    pub fn asked(&self) -> u64
        ensures { result ≡ self.now.asked }
    {
        self.asked
    }
}

impl<L: Ledger> Buckets for Loaded<L> {
    ghost file_changes = { λ b. b.changes };

    ghost file_keys = { λ b. b.keys };

    ghost asked = { λ b. b.asked };

    ghost ready = { λ b. Unit {0} };

    ghost moved = { λ b c. Unit {0} };

    ghost unmoved = { λ b. tt };

    ghost moved_on = { λ b c d h k. tt };

    fn bucket(&mut self, alloc: Global, key: u64) -> Result<Vec<Entry>, Memory> {
        self.asked = self.asked.saturating_add(1);
        let (found, behind) = with_key(alloc, &self.entries, self.near, key)?;
        self.near = behind;
        Ok(found)
    }

    fn pass_over(&mut self, keys: u64) {
        self.asked = self.asked.saturating_add(keys);
    }
}
