ghost use Rattle.std.specs.Prelude.{◌+◌, ◌<◌, ◌≤◌, length, IfOk, OnOk, AllPairs, Contains};
ghost use Rattle.cq_base.specs.declared.group.Place.{Place};
ghost use Rattle.cq_clones.specs.Groups.{file_at, IsBefore, IsPlace};
ghost use Rattle.cq_tokens.specs.Parts.{tokens_in};
ghost use Rattle.cq_scan.specs.Found.{AreAllPlaces, AddsPlacesOf, AreOccurrences};

use crate::corpus::stands_at;
use cq_base::{Memory, Place, Steps};
use cq_tokens::{FileList, Files};
use std::alloc::Global;

// Adds the places of a file, after those of the files before it.
fn push_places<F: Files>(
    files: &FileList<'_, F>,
    file: u32,
    all: &mut Vec<Place>,
) -> Result<(), Memory>
    requires inside { file < length (tokens_in files.now) }
    requires ordered { AllPairs IsBefore all.old.items }
    requires earlier { (z : Place) → Contains all.old.items z → z.file < file }
    ensures { OnOk result (AddsPlacesOf (tokens_in files.now) file all.old.items all.new.items) }
{
    for at in 0..files.file_len(file) {
        all.push(Place { file, at })?;
    }
    Ok(())
}

/// All places of the files, in order.
pub(crate) fn all_places<F: Files>(
    alloc: Global,
    files: &FileList<'_, F>,
) -> Result<Vec<Place>, Memory>
    ensures { IfOk result (λ all. AreAllPlaces (tokens_in files.now) all.items) }
{
    let mut all = Vec::new(alloc);
    for file in 0..files.len() {
        push_places(files, file, &mut all)?;
    }
    Ok(all)
}

/// The places of the word of `n` tokens at `p`, in order: those of all places of the files.
pub(crate) fn occurrences<F: Files>(
    alloc: Global,
    files: &FileList<'_, F>,
    p: Place,
    n: u32,
    places: &[Place],
    steps: &mut Steps<F::Reads>,
) -> Result<Vec<Place>, Memory>
    requires p_in { IsPlace (tokens_in files.now) p }
    requires within { p.at + n ≤ length (file_at (tokens_in files.now) p.file) }
    requires some { 0 < n }
    requires places { AreAllPlaces (tokens_in files.now) places.now }
    ensures { IfOk result (λ found. AreOccurrences (tokens_in files.now) p n found.items) }
{
    let mut found = Vec::new(alloc);
    for z in places {
        if stands_at(files, p, n, *z, steps) {
            found.push(*z)?;
        }
    }
    Ok(found)
}
