ghost use Rattle.std.specs.Prelude.{◌≡◌, ◌<◌, ◌≤◌, ◌↔◌, IsTrue, IfOk, OnOk, length, All, Any};
ghost use Rattle.cq_groups.specs.Rows.{all_of, IsRow};
ghost use Rattle.cq_groups.specs.Sets.{spread, HasLeft, AreByMark, AddsParts, HaveOneLeft, MayGive};
ghost use Rattle.cq_groups.specs.Steps.{AddsAll, AddsGroupOf, ArePartRows, lists_in};

use crate::keeping::kept_places;
use crate::rows::rows_of_part;
use crate::spots::{MarkedRow, Row, Set};
use cq_base::{Group, Memory, Places};
use std::alloc::Global;

/// Whether the mark is that of the token before each spot of a row.
fn has_left(row: &Row, left: usize) -> bool
    ensures { IsTrue result ↔ HasLeft left row.now }
{
    row.first.left == left && (row.others == 0 || row.left == left)
}

/// Whether the mark is one of a token, and that of the token before each spot.
fn have_left(rows: &[Row], left: usize) -> bool
    ensures { IsTrue result ↔ ((0 < left) × All (HasLeft left) rows.now) }
{
    left > 0 && rows.iter().all(|row| has_left(row, left))
}

/// Whether the tokens before the spots are there and equal.
fn have_one_left(rows: &[Row]) -> bool
    requires { 0 < length rows.now }
    ensures { IsTrue result ↔ HaveOneLeft (all_of rows.now) }
{
    have_left(rows, rows[0].first.left)
}

/// Whether a row has spots after its first one.
fn has_others(row: &Row) -> bool
    ensures { IsTrue result ↔ 0 < row.now.others }
{
    row.others > 0
}

/// Whether there are two spots or more.
fn are_several(rows: &[Row]) -> bool
    ensures { IsTrue result ↔ 2 ≤ length (all_of rows.now) }
{
    if rows.len() > 1 {
        return true;
    }
    if rows.len() < 1 {
        return false;
    }
    has_others(&rows[0])
}

/// Whether they are two or more, and not all have one token before them.
pub(crate) fn may_give(rows: &[Row]) -> bool
    ensures { IsTrue result ↔ MayGive (all_of rows.now) }
{
    are_several(rows) && !have_one_left(rows)
}

/// Adds the group of a set that stops here, if its word is long enough and two of its places are kept.
pub(crate) fn add_group(
    alloc: Global,
    set: &Set,
    min: u32,
    groups: &mut Vec<Group>,
) -> Result<(), Memory>
    ensures { OnOk result (AddsGroupOf min set.now groups.old.items groups.new.items) }
{
    if set.depth < min {
        return Ok(());
    }
    let places = kept_places(alloc, set.depth, &set.rows)?;
    if places.len() < 2 {
        return Ok(());
    }
    let places = Places::from_vec(places);
    groups.push(Group {
        tokens: set.depth,
        places,
    })?;
    Ok(())
}

/// The highest of the marks, or 0.
pub(crate) fn highest(marked: &[MarkedRow]) -> usize
    ensures all { All (λ x. x.mark ≤ result) marked.now }
    ensures one { 0 < result → Any (λ x. x.mark ≡ result) marked.now }
{
    let mut most = 0;
    for x in marked {
        most = most.max(x.mark);
    }
    most
}

/// The rows of each mark, from 1 to the highest. It looks at each row once.
fn parts_of(alloc: Global, marked: &[MarkedRow], highest: usize) -> Result<Vec<Vec<Row>>, Memory>
    requires { All (λ x. x.mark ≤ highest) marked.now }
    ensures { IfOk result (λ parts. AreByMark highest marked.now (lists_in parts.items)) }
{
    let mut parts = Vec::with_capacity(alloc, highest)?;
    for _mark in 0..highest {
        parts.push(Vec::new(alloc))?;
    }
    for x in marked {
        if x.mark > 0 {
            parts[x.mark - 1].push(x.row)?;
        }
    }
    Ok(parts)
}

/// Adds the parts that may give groups.
fn push_all(
    alloc: Global,
    parts: Vec<Vec<Row>>,
    depth: u32,
    sets: &mut Vec<Set>,
) -> Result<(), Memory>
    requires { ArePartRows depth parts.items }
    ensures { OnOk result (AddsAll depth parts.items sets.old.items sets.new.items) }
{
    for part in parts {
        if may_give(&part) {
            let rows = rows_of_part(alloc, depth, part)?;
            sets.push(Set { depth, rows })?;
        }
    }
    Ok(())
}

/// Adds the parts with marks up to the highest that may give groups.
pub(crate) fn push_parts(
    alloc: Global,
    marked: &[MarkedRow],
    highest: usize,
    depth: u32,
    sets: &mut Vec<Set>,
) -> Result<(), Memory>
    requires low { All (λ x. x.mark ≤ highest) marked.now }
    requires rows { All (λ x. IsRow depth x.row) marked.now }
    ensures { OnOk result (AddsParts depth (spread marked.now) highest sets.old.items sets.new.items) }
{
    let parts = parts_of(alloc, marked, highest)?;
    push_all(alloc, parts, depth, sets)
}
