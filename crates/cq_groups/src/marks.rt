ghost use Rattle.std.specs.Prelude.{◌≡◌, ◌+◌, ◌^◌, ◌<◌, ◌≤◌, length, map, option_map, IfOk, All, Contains};
ghost use Rattle.cq_groups.specs.declared.spots.MarkedRow.{MarkedRow};
ghost use Rattle.cq_clones.specs.Groups.{IsPlace, AreSame, token_before};
ghost use Rattle.cq_tokens.specs.Parts.{tokens_in};
ghost use Rattle.cq_tokens.specs.Packed.{norm_in};
ghost use Rattle.cq_groups.specs.Differences.{GoOnApart};
ghost use Rattle.cq_groups.specs.Steps.{MarksToken, MarksBeside};
ghost use Rattle.cq_groups.specs.Sets.{AreTwoMarks, IsDifference, IsInNumbers, AreSpots, AreRowsMarked};

use crate::differing::{Difference, are_same, token_before_at, token_behind_at};
use crate::spots::{MarkedRow, Row, Spot};
use cq_base::{Memory, Place, Steps};
use cq_tokens::{FileList, Files, Seen, equal_tokens_tie};
use std::alloc::Global;
use std::collections::BTreeMap;

/// The mark of a token, which is a new one if the token is new. It costs one search among the different tokens.
pub(crate) fn mark_of<'a>(
    marks: &mut BTreeMap<Seen<'a>, usize>,
    token: Option<Seen<'a>>,
) -> Result<usize, Memory>
    ensures { IfOk result (MarksToken marks.old marks.new (option_map norm_in token.entry)) }
{
    equal_tokens_tie();
    let Some(seen) = token else {
        return Ok(0);
    };
    let next = marks.len() + 1;
    let mark = marks.entry(seen)?.or_insert(next);
    Ok(*mark)
}

/// The mark of a token, if that of another one is known. It costs a search only if the two differ.
fn mark_beside<'a>(
    marks: &mut BTreeMap<Seen<'a>, usize>,
    other: Option<Seen<'a>>,
    mark: usize,
    token: Option<Seen<'a>>,
) -> Result<usize, Memory>
    ensures { IfOk result (MarksBeside marks.old marks.new (option_map norm_in other.entry) mark (option_map norm_in token.entry)) }
{
    if are_same(other, token) {
        return Ok(mark);
    }
    mark_of(marks, token)
}

/// The marks of two tokens that are not both there and the same. It needs no map.
fn two_marks(first: Option<Seen<'_>>, second: Option<Seen<'_>>) -> (usize, usize)
    requires { AreSame (option_map norm_in first) (option_map norm_in second) → ⊥ }
    ensures { AreTwoMarks (option_map norm_in first.entry) (option_map norm_in second.entry) result.0 result.1 }
{
    match (first, second) {
        (None, None) => (0, 0),
        (None, Some(_)) => (0, 1),
        (Some(_), None) => (1, 0),
        (Some(_), Some(_)) => (1, 2),
    }
}

/// Two places with the marks of the tokens before them.
fn pair_of<F: Files>(
    alloc: Global,
    files: &FileList<'_, F>,
    places: &[Place],
    difference: &Difference<'_>,
) -> Result<Vec<Spot>, Memory>
    requires two { length places.now ≡ 2 }
    requires places { All (IsPlace (tokens_in files.now)) places.now }
    requires differ { IsDifference (token_before (tokens_in files.now)) places.now difference.now }
    ensures places { IfOk result (λ spots. map (λ s. s.place) spots.items ≡ places.now) }
    ensures marks { IfOk result (λ spots. AreSpots (tokens_in files.now) spots.items) }
{
    let (first, second) = two_marks(difference.first, difference.last);
    let mut spots = Vec::with_capacity(alloc, 2)?;
    spots.push(Spot {
        place: places[0],
        left: first,
    })?;
    spots.push(Spot {
        place: places[1],
        left: second,
    })?;
    Ok(spots)
}

/// The places with the marks of the tokens before them.
fn spots_by_map<'a, F: Files>(
    alloc: Global,
    files: &FileList<'a, F>,
    places: &[Place],
    difference: &Difference<'a>,
    steps: &mut Steps<F::Reads>,
) -> Result<Vec<Spot>, Memory>
    requires places { All (IsPlace (tokens_in files.now)) places.now }
    requires differ { IsDifference (token_before (tokens_in files.now)) places.now difference.now }
    ensures places { IfOk result (λ spots. map (λ s. s.place) spots.items ≡ places.now) }
    ensures marks { IfOk result (λ spots. AreSpots (tokens_in files.now) spots.items) }
    ensures steps { steps.new + difference.now.read ≤ steps.old + length places.now }
{
    let mut marks = BTreeMap::new(alloc);
    let first = mark_of(&mut marks, difference.first)?;
    let mut spots = Vec::with_capacity(alloc, places.len())?;
    for (i, p) in places.iter().enumerate() {
        let token = token_before_at(files, places, i, difference, steps);
        let left = mark_beside(&mut marks, difference.first, first, token)?;
        spots.push(Spot { place: *p, left })?;
    }
    Ok(spots)
}

/// The places with the marks of the tokens before them, of which some were read. Two places need no map.
pub(crate) fn spots_of<'a, F: Files>(
    alloc: Global,
    files: &FileList<'a, F>,
    places: &[Place],
    difference: &Difference<'a>,
    steps: &mut Steps<F::Reads>,
) -> Result<Vec<Spot>, Memory>
    requires places { All (IsPlace (tokens_in files.now)) places.now }
    requires differ { IsDifference (token_before (tokens_in files.now)) places.now difference.now }
    ensures places { IfOk result (λ spots. map (λ s. s.place) spots.items ≡ places.now) }
    ensures marks { IfOk result (λ spots. AreSpots (tokens_in files.now) spots.items) }
    ensures steps { steps.new + difference.now.read ≤ steps.old + length places.now }
{
    if places.len() == 2 {
        return pair_of(alloc, files, places, difference);
    }
    spots_by_map(alloc, files, places, difference, steps)
}

/// The rows with the marks of the tokens `n` after their spots, of which some were read.
pub(crate) fn marked_of<'a, F: Files>(
    alloc: Global,
    files: &FileList<'a, F>,
    rows: &[Row],
    n: u32,
    difference: &Difference<'a>,
    steps: &mut Steps<F::Reads>,
) -> Result<Vec<MarkedRow>, Memory>
    requires places { All (λ r. IsPlace (tokens_in files.now) r.first.place) rows.now }
    requires differ { GoOnApart (tokens_in files.now) n rows.now difference.now }
    requires numbers { IsInNumbers n difference.now }
    ensures rows { IfOk result (λ marked. map (λ x. x.row) marked.items ≡ rows.now) }
    ensures marks { IfOk result (λ marked. AreRowsMarked (tokens_in files.now) n marked.items) }
    ensures fits { IfOk result (λ marked. (x : MarkedRow) → Contains marked.items x → 0 < x.mark → n + 1 < 2 ^ 32) }
    ensures steps { steps.new + difference.now.read ≤ steps.old + length rows.now }
{
    let mut marks = BTreeMap::new(alloc);
    let first = mark_of(&mut marks, difference.first)?;
    let mut marked = Vec::with_capacity(alloc, rows.len())?;
    for (i, r) in rows.iter().enumerate() {
        let token = token_behind_at(files, rows, i, n, difference, steps);
        let mark = mark_beside(&mut marks, difference.first, first, token)?;
        marked.push(MarkedRow { row: *r, mark })?;
    }
    Ok(marked)
}
