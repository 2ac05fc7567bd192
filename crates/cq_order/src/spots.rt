ghost use Rattle.std.specs.Prelude.{◌≡◌, ◌≢◌, ◌+◌, ◌++◌, ◌∷◌, [], ◌<◌, ◌≤◌, ◌^◌, length, map, remove, All, AllPairs, IfOk, OnOk, OnErr};
ghost use Rattle.std.specs.Ordering.{is_lt};
ghost use Rattle.cq_order.specs.Order.{IsOrderOf};
ghost use Rattle.cq_order.specs.Spots.{AreSpots, IsPositionOf, IsPositionBySpots, SpotBefore, spot_of, is_spot_before, with_positions, changes_of, Replaces, Inserts, Removes, opened, closed};

use crate::counting::{counted, greatest};
use crate::rising::reach;
use cq_base::Memory;
use std::alloc::Global;
use std::cmp::Ordering;
use std::marker::Model;

// A walk over at most this many numbers a file costs less than a sort.
const NUMBERS_A_FILE: u64 = 4;

/// Where the file that a change put is among the files of its project: its position, from 0.
#[derive(Clone, Copy, Debug, PartialEq, Eq)]
pub struct Spot {
    pub change: u64,
    pub file: u32,
}

/// The spots of changes, by change. The positions are a list of their own: when a file is put in or taken out, a walk
/// over 4 bytes a file moves those of later files. Contracts see the list of spots.
#[derive(Drop)]
pub struct Spots {
    changes: Vec<u64>,
    files: Vec<u32>,
}

impl Model for Spots {
    ghost use Rattle.std.specs.Prelude.{◌≡◌, List, length};
    ghost use Rattle.cq_order.specs.declared.spots.Spot.{Spot};
    ghost use Rattle.cq_order.specs.Spots.{paired};

    ghost Value = { List Spot };

    ghost view = { λ s. paired s.changes.items s.files.items };

    ghost invariant = { λ s. length s.changes.items ≡ length s.files.items };
}

impl Spots {
    /// No spots. It takes no memory.
    pub fn new(alloc: Global) -> Spots
        ensures { result ≡ [] }
    {
        Spots {
            changes: Vec::new(alloc),
            files: Vec::new(alloc),
        }
    }

    /// The same spots once more.
    pub fn copied(&self, alloc: Global) -> Result<Spots, Memory>
        ensures { IfOk result (λ spots. spots ≡ self.now) }
    {
        let changes = Vec::from_slice(alloc, &self.changes)?;
        let files = Vec::from_slice(alloc, &self.files)?;
        Ok(Spots { changes, files })
    }

    /// One more, after all others.
    pub(crate) fn push(&mut self, spot: Spot) -> Result<(), Memory>
        ensures pushed { OnOk result (self.new ≡ self.old ++ spot ∷ []) }
        ensures unchanged { OnErr result (self.new ≡ self.old) }
    {
        self.files.reserve(1)?;
        self.changes.push(spot.change)?;
        if self.files.push(spot.file).is_err() {
            unreachable!();
        }
        Ok(())
    }

    // Where a change is among them, if it is there.
    fn index_of(&self, change: u64) -> Option<usize>
        requires { AllPairs SpotBefore self.now }
        ensures { IsPositionOf (changes_of self.now) change result }
    {
        place_of(&self.changes, change)
    }

    // Takes out the one at an index.
    fn take_out(&mut self, i: usize)
        requires { i < length self.old }
        ensures { self.new ≡ remove self.old i }
    {
        self.changes.remove(i);
        self.files.remove(i);
    }

    /// Puts the latest change, which has the place of another one. It costs a search and a move.
    pub fn replace(&mut self, gone: u64, spot: Spot) -> Result<(), Memory>
        requires rising { AllPairs SpotBefore self.old }
        ensures replaced { OnOk result (Replaces gone spot self.old self.new) }
        ensures unchanged { OnErr result (self.new ≡ self.old) }
    {
        match self.index_of(gone) {
            Some(i) => {
                self.push(spot)?;
                self.take_out(i);
                Ok(())
            }
            None => self.push(spot),
        }
    }

    /// Puts the latest change in at its file, among this many: those of later files move by one. It costs a walk, and
    /// none if the file comes last.
    pub fn insert(&mut self, len: usize, spot: Spot) -> Result<(), Memory>
        requires within { spot.file ≤ len }
        requires few { len + 1 < 2 ^ 32 }
        requires room { All (λ s. s.file + 1 < 2 ^ 32) self.old }
        ensures inserted { OnOk result (Inserts len spot self.old self.new) }
        ensures unchanged { OnErr result (self.new ≡ self.old) }
    {
        if spot.file as usize == len {
            return self.push(spot);
        }
        let last = self.files.len();
        self.push(spot)?;
        open_at(self.files.as_mut_slice(), spot.file);
        self.files[last] = spot.file;
        Ok(())
    }

    /// Takes a spot out with its file: those of later files are one less far. It costs a walk, and takes no memory.
    pub fn remove(&mut self, spot: Spot)
        requires rising { AllPairs SpotBefore self.old }
        ensures { Removes spot self.old self.new }
    {
        match self.index_of(spot.change) {
            Some(i) => {
                self.take_out(i);
                close_at(self.files.as_mut_slice(), spot.file);
            }
            None => {}
        }
    }
}

// The place of a number among rising ones, if it is there: a binary search of the places that it can have.
fn place_of(numbers: &[u64], number: u64) -> Option<usize>
    requires { AllPairs (λ a b. a < b) numbers.now }
    ensures { IsPositionOf numbers.now number result }
{
    if numbers.is_empty() {
        return None;
    }
    let last = numbers.len() - 1;
    let (from, to) = reach(numbers[0], numbers[last], numbers.len(), number);
    let near = &numbers[from..to];
    match near.binary_search(&number) {
        Ok(i) => Some(from + i),
        Err(_) => None,
    }
}

/// The position of the file that a change put, if it is among them. It is a binary search of the places that the
/// change can have.
pub fn spot_of(spots: &Spots, change: u64) -> Option<u32>
    requires rising { AllPairs SpotBefore spots.now }
    ensures spot { result ≡ spot_of spots.now change }
    ensures position { IsPositionBySpots spots.now change result }
{
    match spots.index_of(change) {
        Some(i) => Some(spots.files[i]),
        None => None,
    }
}

// A position when a file is put in at one.
fn opened(file: u32, at: u32) -> u32
    requires room { file + 1 < 2 ^ 32 }
    ensures { result ≡ opened at file }
{
    if file < at { file } else { file + 1 }
}

// A position when the file at one is taken out.
fn closed(file: u32, at: u32) -> u32
    ensures { result ≡ closed at file }
{
    if at < file { file - 1 } else { file }
}

// Makes room for a file at a position.
fn open_at(files: &mut [u32], at: u32)
    requires { All (λ file. file + 1 < 2 ^ 32) files.old }
    ensures { files.new ≡ map (opened at) files.old }
{
    for i in 0..files.len() {
        files[i] = opened(files[i], at);
    }
}

// Closes the gap that a file leaves at a position.
fn close_at(files: &mut [u32], at: u32)
    ensures { files.new ≡ map (closed at) files.old }
{
    for i in 0..files.len() {
        files[i] = closed(files[i], at);
    }
}

/// By change.
fn compare_spots(a: &Spot, b: &Spot) -> Ordering
    ensures { is_lt result ≡ is_spot_before a.now b.now }
{
    a.change.cmp(&b.change)
}

fn sort_spots(spots: &mut Vec<Spot>)
    ensures { IsOrderOf SpotBefore spots.old.items spots.new.items }
{
    spots.sort_unstable_by(|a, b| compare_spots(a, b));
}

// The changes with their positions, in the order of these.
fn unsorted(alloc: Global, changes: &[u64]) -> Result<Vec<Spot>, Memory>
    requires { length changes.now < 2 ^ 32 }
    ensures { IfOk result (λ spots. spots.items ≡ with_positions 0 changes.now) }
{
    let mut spots = Vec::with_capacity(alloc, changes.len())?;
    for file in 0..changes.len() {
        spots.push(Spot {
            change: changes[file],
            file: file as u32,
        })?;
    }
    Ok(spots)
}

// The same spots, changes and positions apart.
fn apart(alloc: Global, spots: &[Spot]) -> Result<Spots, Memory>
    ensures { IfOk result (λ all. all ≡ spots.now) }
{
    let mut all = Spots::new(alloc);
    for spot in spots {
        all.push(*spot)?;
    }
    Ok(all)
}

// The spots of different changes, by a sort.
fn sorted(alloc: Global, changes: &[u64]) -> Result<Spots, Memory>
    requires few { length changes.now < 2 ^ 32 }
    requires apart { AllPairs (λ a b. a ≢ b) changes.now }
    ensures { IfOk result (λ spots. AreSpots changes.now spots) }
{
    let mut spots = unsorted(alloc, changes)?;
    sort_spots(&mut spots);
    apart(alloc, &spots)
}

/// The spots of different changes. It costs a sort of them; if the greatest is less than four times the number of
/// changes, it costs a walk over the numbers up to it instead.
pub fn spots_of(alloc: Global, changes: &[u64]) -> Result<Spots, Memory>
    requires few { length changes.now < 2 ^ 32 }
    requires apart { AllPairs (λ a b. a ≢ b) changes.now }
    ensures { IfOk result (λ spots. AreSpots changes.now spots) }
{
    let most = greatest(changes);
    if most < changes.len() as u64 * NUMBERS_A_FILE {
        return counted(alloc, changes, most as usize + 1);
    }
    sorted(alloc, changes)
}
