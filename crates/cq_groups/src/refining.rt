ghost use Rattle.std.specs.Prelude.{◌+◌, ◌<◌, ◌≤◌, length, IfOk, OnOk, All};
ghost use Rattle.cq_clones.specs.Groups.{IsPlace};
ghost use Rattle.cq_tokens.specs.Parts.{tokens_in};
ghost use Rattle.cq_groups.specs.Differences.{GoOnApart};
ghost use Rattle.cq_groups.specs.Sets.{set_spots, AreEntries, IsGroupFrom, IsInNumbers, AreAlike, ReadsAtMost, MayGive, IsParted, AreFirst, AreAllOnce};
ghost use Rattle.cq_groups.specs.Steps.{Splits};

use crate::differing::{Difference, difference_before, difference_behind};
use crate::marks::{marked_of, spots_of};
use crate::rows::{further_on, is_pair, singles};
use crate::sets::{add_group, highest, may_give, push_parts};
use crate::spots::{Set, Spot};
use cq_base::{Group, Memory, Place, Steps};
use cq_tokens::{FileList, Files};
use std::alloc::Global;

/// The set of all spots, if they may give groups.
fn first_sets(alloc: Global, spots: Vec<Spot>) -> Result<Vec<Set>, Memory>
    ensures { IfOk result (λ sets. AreFirst spots.items sets.items) }
{
    let mut sets = Vec::new(alloc);
    let rows = singles(alloc, &spots)?;
    if may_give(&rows) {
        let set = Set { depth: 0, rows };
        sets.push(set)?;
    }
    Ok(sets)
}

/// Adds the parts of a set that may give groups.
fn push_marked<'a, F: Files>(
    alloc: Global,
    files: &FileList<'a, F>,
    set: &Set,
    difference: &Difference<'a>,
    sets: &mut Vec<Set>,
    steps: &mut Steps<F::Reads>,
) -> Result<(), Memory>
    requires places { All (λ r. IsPlace (tokens_in files.now) r.first.place) set.now.rows.items }
    requires alike { AreAlike (tokens_in files.now) set.now.depth (set_spots set.now) }
    requires differ { GoOnApart (tokens_in files.now) set.now.depth set.now.rows.items difference.now }
    requires numbers { IsInNumbers set.now.depth difference.now }
    ensures parted { OnOk result (IsParted (tokens_in files.now) set.now sets.old.items sets.new.items) }
    ensures steps { steps.new + difference.now.read ≤ steps.old + length set.now.rows.items }
{
    let marked = marked_of(alloc, files, &set.rows, set.depth, difference, steps)?;
    let highest = highest(&marked);
    if highest > 0 {
        push_parts(alloc, &marked, highest, set.depth + 1, sets)?;
    }
    Ok(())
}

/// Gives up a set whose places go on by different tokens for its group and its parts. Two places have no parts.
fn part<'a, F: Files>(
    alloc: Global,
    files: &FileList<'a, F>,
    set: Set,
    difference: &Difference<'a>,
    min: u32,
    sets: &mut Vec<Set>,
    groups: &mut Vec<Group>,
    steps: &mut Steps<F::Reads>,
) -> Result<(), Memory>
    requires gives { MayGive (set_spots set) }
    requires places { All (λ r. IsPlace (tokens_in files.now) r.first.place) set.rows.items }
    requires alike { AreAlike (tokens_in files.now) set.depth (set_spots set) }
    requires differ { GoOnApart (tokens_in files.now) set.depth set.rows.items difference.now }
    requires numbers { IsInNumbers set.depth difference.now }
    ensures split { OnOk result (Splits (tokens_in files.now) min set sets.old sets.new groups.old groups.new) }
    ensures steps { steps.new + difference.now.read ≤ steps.old + length set.rows.items }
{
    add_group(alloc, &set, min, groups)?;
    if is_pair(&set.rows) {
        return Ok(());
    }
    push_marked(alloc, files, &set, difference, sets, steps)
}

/// Takes a set one token further: all of it, if its places go on by one token, and else its parts.
fn split<F: Files>(
    alloc: Global,
    files: &FileList<'_, F>,
    set: Set,
    min: u32,
    sets: &mut Vec<Set>,
    groups: &mut Vec<Group>,
    steps: &mut Steps<F::Reads>,
) -> Result<(), Memory>
    requires gives { MayGive (set_spots set) }
    requires places { All (λ r. IsPlace (tokens_in files.now) r.first.place) set.rows.items }
    requires alike { AreAlike (tokens_in files.now) set.depth (set_spots set) }
    ensures split { OnOk result (Splits (tokens_in files.now) min set sets.old sets.new groups.old groups.new) }
    ensures steps { steps.new ≤ steps.old + length set.rows.items }
{
    let Some(difference) = difference_behind(files, &set.rows, set.depth, steps) else {
        let more = further_on(alloc, set)?;
        sets.push(more)?;
        return Ok(());
    };
    part(alloc, files, set, &difference, min, sets, groups, steps)
}

/// The groups whose first place is one of the places, each once. Places with one token before them all give none.
pub(crate) fn refine_places<F: Files>(
    alloc: Global,
    files: &FileList<'_, F>,
    places: &[Place],
    min: u32,
    steps: &mut Steps<F::Reads>,
) -> Result<Vec<Group>, Memory>
    requires entries { AreEntries (tokens_in files.now) min places.now }
    requires some { 1 ≤ min }
    ensures groups { IfOk result (λ groups. AreAllOnce (IsGroupFrom (tokens_in files.now) min places.now) groups.items) }
    ensures bound { ReadsAtMost (tokens_in files.now) (length places.now) steps.old steps.new }
{
    let mut groups = Vec::new(alloc);
    if places.len() < 2 {
        return Ok(groups);
    }
    let Some(difference) = difference_before(files, places, steps) else {
        return Ok(groups);
    };
    let spots = spots_of(alloc, files, places, &difference, steps)?;
    let mut sets = first_sets(alloc, spots)?;
    while let Some(set) = sets.pop() {
        split(alloc, files, set, min, &mut sets, &mut groups, steps)?;
    }
    Ok(groups)
}
