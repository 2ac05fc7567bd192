ghost use Rattle.std.specs.Prelude.{◌≡◌, ◌≤◌, ◌<◌, ℕ, nat_eq, length, slice_index_or, All, IfOk, OnOk};
ghost use Rattle.std.specs.List.{list_any};
ghost use Rattle.std.specs.List.Sorted.{IsStrictlyIncreasing};
ghost use Rattle.cq_measures.specs.Measures as spec;
ghost use Rattle.cq_measures.specs.Sorted.{AreBelow};

use crate::extent::{Extent, FileLines};
use cq_base::{Group, Memory, Place};
use std::alloc::Global;

// Whether a file is among the chosen ones, by halving.
fn is_among(chosen: &[u32], file: u32) -> bool
    requires { IsStrictlyIncreasing chosen.now }
    ensures { result ≡ list_any (nat_eq file) chosen.now }
{
    chosen.binary_search(&file).is_ok()
}

// The lines of a place of a word of `tokens` tokens.
fn extent_of(files: &[FileLines], tokens: u32, place: Place) -> Extent
    requires some { 1 ≤ tokens }
    requires inside { spec.IsInside (spec.spans_of files.now) tokens place }
    ensures { result ≡ spec.extent_of (spec.spans_of files.now) tokens place }
{
    let spans = files[place.file as usize].spans;
    let at = place.at as usize;
    Extent {
        file: place.file,
        first: spans[at].first_line,
        last: spans[at + tokens as usize - 1].last_line,
    }
}

// Adds the extent of a place, if its file is chosen.
fn add_extent(
    files: &[FileLines],
    chosen: &[u32],
    tokens: u32,
    place: Place,
    extents: &mut Vec<Extent>,
) -> Result<(), Memory>
    requires ascending { IsStrictlyIncreasing chosen.now }
    requires some { 1 ≤ tokens }
    requires inside { spec.IsInside (spec.spans_of files.now) tokens place }
    ensures { OnOk result
        (spec.AddsPlace files.now chosen.now tokens place extents.old.items extents.new.items) }
{
    if is_among(chosen, place.file) {
        extents.push(extent_of(files, tokens, place))?;
    }
    Ok(())
}

// Adds those of a group's places in the chosen files.
fn add_extents(
    files: &[FileLines],
    chosen: &[u32],
    group: &Group,
    extents: &mut Vec<Extent>,
) -> Result<(), Memory>
    requires ascending { IsStrictlyIncreasing chosen.now }
    requires inside { spec.IsGroupInside (spec.spans_of files.now) group.now }
    ensures { OnOk result
        (spec.AddsPlaces files.now chosen.now group.now extents.old.items extents.new.items) }
{
    for place in group.places.as_slice() {
        add_extent(files, chosen, group.tokens, *place, extents)?;
    }
    Ok(())
}

/// The extents of the groups' places in the chosen files.
pub(crate) fn chosen_extents(
    alloc: Global,
    files: &[FileLines],
    chosen: &[u32],
    groups: &[Group],
) -> Result<Vec<Extent>, Memory>
    requires ascending { IsStrictlyIncreasing chosen.now }
    requires inside { spec.AreGroupsInside (spec.spans_of files.now) groups.now }
    ensures extents { IfOk result
        (λ v. v.items ≡ spec.chosen_extents chosen.now (spec.spans_of files.now) groups.now) }
    ensures below { (n : ℕ) → length files.now ≤ n → IfOk result (λ v. AreBelow n v.items) }
{
    let mut extents = Vec::new(alloc);
    for group in groups {
        add_extents(files, chosen, group, &mut extents)?;
    }
    Ok(extents)
}

fn file_at<'a>(files: &[FileLines<'a>], file: u32) -> FileLines<'a>
    requires { file < length files.now }
    ensures { result.counts ≡ slice_index_or (spec.counts_of files.now) file spec.no_counts }
{
    files[file as usize]
}

/// The chosen files, as they are lent.
pub(crate) fn chosen_files<'a>(
    alloc: Global,
    files: &[FileLines<'a>],
    chosen: &[u32],
) -> Result<Vec<FileLines<'a>>, Memory>
    requires { All (λ file. file < length files.now) chosen.now }
    ensures { IfOk result
        (λ v. spec.counts_of v.items ≡ spec.counts_at (spec.counts_of files.now) chosen.now) }
{
    let mut all = Vec::with_capacity(alloc, chosen.len())?;
    for file in chosen {
        all.push(file_at(files, *file))?;
    }
    Ok(all)
}
