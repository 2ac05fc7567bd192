ghost use Rattle.std.specs.Prelude.{◌≡◌, ℕ, ◌+◌, ◌*◌, ◌^◌, ◌<◌, ◌≤◌, true, false, Some, IfOk, All, map};
ghost use Rattle.cq_clones.specs.Groups.{is_free, kept_of};
ghost use Rattle.cq_groups.specs.Rows.{further, all_of, IsRow};
ghost use Rattle.cq_groups.specs.Sets.{IsFreeAt, KeepsRow};

use crate::spots::Row;
use cq_base::{Memory, Place};
use std::alloc::Global;

/// Whether a place begins at or after the end of a word of `tokens` tokens at another one.
fn is_free_behind(tokens: u32, last: Place, p: Place) -> bool
    ensures { result ≡ is_free tokens (Some last) p }
{
    last.file != p.file || u64::from(last.at) + u64::from(tokens) <= u64::from(p.at)
}

/// The place of a row's spot, so many after its first one.
fn place_in(row: &Row, k: usize) -> Place
    requires within { k ≤ row.now.others }
    requires inside { 0 < row.now.others → row.now.first.place.at + row.now.others * row.now.gap < 2 ^ 32 }
    ensures { result ≡ further row.now.first.place (k * row.now.gap) }
{
    let place = row.first.place;
    if row.others == 0 {
        return place;
    }
    Place {
        file: place.file,
        at: place.at + k as u32 * row.gap,
    }
}

/// The position of the first of a row's spots, from a given one on, that is kept after the last one that was; if none is,
/// how many spots there are. It costs a division.
fn first_kept(row: &Row, from: usize, last: Option<Place>, tokens: u32) -> usize
    requires within { from ≤ row.now.others + 1 }
    requires row { IsRow tokens row.now }
    ensures later { from ≤ result }
    ensures end { result ≤ row.now.others + 1 }
    ensures reached { (k : ℕ) → from ≤ k → k < result → IsFreeAt tokens last row.now k false }
    ensures free { result ≤ row.now.others → IsFreeAt tokens last row.now result true }
{
    let count = row.others as usize + 1;
    let Some(kept) = last else {
        return from;
    };
    if from >= count {
        return count;
    }
    let next = place_in(row, from);
    if is_free_behind(tokens, kept, next) {
        return from;
    }
    if row.others == 0 {
        return count;
    }
    let reach = u64::from(kept.at) + u64::from(tokens) - u64::from(next.at);
    let passed = reach.div_ceil(u64::from(row.gap));
    count.min(from + passed as usize)
}

/// Adds the places of a row that are kept after the last one that was, and returns the last one then. It costs a division
/// for each of them.
fn keep_row(
    row: &Row,
    tokens: u32,
    last: Option<Place>,
    kept: &mut Vec<Place>,
) -> Result<Option<Place>, Memory>
    requires { IsRow tokens row.now }
    ensures { IfOk result (λ latest. KeepsRow tokens row.now last latest kept.old.items kept.new.items) }
{
    let others = row.others as usize;
    let mut latest = last;
    let mut i = first_kept(row, 0, latest, tokens);
    while i <= others {
        let place = place_in(row, i);
        kept.push(place)?;
        latest = Some(place);
        i = first_kept(row, i + 1, latest, tokens);
    }
    Ok(latest)
}

/// Of the places of a word of `tokens` tokens those that are kept.
pub(crate) fn kept_places(alloc: Global, tokens: u32, rows: &[Row]) -> Result<Vec<Place>, Memory>
    requires { All (IsRow tokens) rows.now }
    ensures { IfOk result (λ kept. kept.items ≡ kept_of tokens (map (λ s. s.place) (all_of rows.now))) }
{
    let mut kept = Vec::new(alloc);
    let mut last: Option<Place> = None;
    for row in rows {
        last = keep_row(row, tokens, last, &mut kept)?;
    }
    Ok(kept)
}
