ghost use Rattle.std.specs.Prelude.{◌+◌, ◌-◌, ◌^◌, ◌<◌, ◌≤◌, ◌↔◌, length, option_map, IsTrue, IsSome, IfSome, IfNone, All};
ghost use Rattle.cq_clones.specs.Groups.{IsPlace, token_before, AreSame};
ghost use Rattle.cq_tokens.specs.Packed.{norm_in};
ghost use Rattle.cq_tokens.specs.Parts.{tokens_in};
ghost use Rattle.cq_groups.specs.Differences.{GoOnApart, RowsGoOnByOne, IsTokenBefore, IsTokenBehind};
ghost use Rattle.cq_groups.specs.Sets.{AreOne, IsDifference, IsInNumbers};

use crate::spots::Row;
use cq_base::{Place, Steps};
use cq_tokens::{FileList, Files, Seen};

/// What was read of the tokens on one side of some places, if they are not all there and the same.
#[derive(Clone, Copy)]
pub(crate) struct Difference<'a> {
    /// The token of the first place, if there is one: that of each place that was read, but of the last.
    pub first: Option<Seen<'a>>,
    /// The token of the last place that was read. It is another one, or one of the two is not there.
    pub last: Option<Seen<'a>>,
    /// How many places were read, from the first on.
    pub read: usize,
}

/// Whether both tokens are there and the same.
pub(crate) fn are_same(a: Option<Seen<'_>>, b: Option<Seen<'_>>) -> bool
    ensures { IsTrue result ↔ AreSame (option_map norm_in a.entry) (option_map norm_in b.entry) }
{
    match (a, b) {
        (Some(a), Some(b)) => a.is_same(&b),
        _ => false,
    }
}

/// The first difference among the tokens before some places; None if they are all there and the same.
pub(crate) fn difference_before<'a, F: Files>(
    files: &FileList<'a, F>,
    places: &[Place],
    steps: &mut Steps<F::Reads>,
) -> Option<Difference<'a>>
    requires several { 2 ≤ length places.now }
    requires places { All (IsPlace (tokens_in files.now)) places.now }
    ensures one { IfNone result (AreOne (token_before (tokens_in files.now)) places.now) }
    ensures differ { IfSome result (IsDifference (token_before (tokens_in files.now)) places.now) }
    ensures read { IfSome result (λ d. steps.new ≤ steps.old + d.read) }
    ensures steps { steps.new ≤ steps.old + length places.now }
{
    let first = files.token_before(places[0], steps);
    for i in 1..places.len() {
        let last = files.token_before(places[i], steps);
        if !are_same(first, last) {
            return Some(Difference {
                first,
                last,
                read: i + 1,
            });
        }
    }
    None
}

/// The first difference among the tokens `n` after the first spots of rows; None if they are all there and the same.
pub(crate) fn difference_behind<'a, F: Files>(
    files: &FileList<'a, F>,
    rows: &[Row],
    n: u32,
    steps: &mut Steps<F::Reads>,
) -> Option<Difference<'a>>
    requires several { 2 ≤ length rows.now }
    requires places { All (λ r. IsPlace (tokens_in files.now) r.first.place) rows.now }
    ensures one { IfNone result (RowsGoOnByOne (tokens_in files.now) n rows.now) }
    ensures fits { IfNone result (n + 1 < 2 ^ 32) }
    ensures numbers { IfSome result (IsInNumbers n) }
    ensures differ { IfSome result (GoOnApart (tokens_in files.now) n rows.now) }
    ensures read { IfSome result (λ d. steps.new ≤ steps.old + d.read) }
    ensures steps { steps.new ≤ steps.old + length rows.now }
{
    let first = files.token_behind(rows[0].first.place, n, steps);
    for i in 1..rows.len() {
        let last = files.token_behind(rows[i].first.place, n, steps);
        if !are_same(first, last) {
            return Some(Difference {
                first,
                last,
                read: i + 1,
            });
        }
    }
    None
}

/// The token before the place at `i`. It is read unless it was.
pub(crate) fn token_before_at<'a, F: Files>(
    files: &FileList<'a, F>,
    places: &[Place],
    i: usize,
    difference: &Difference<'a>,
    steps: &mut Steps<F::Reads>,
) -> Option<Seen<'a>>
    requires within { i < length places.now }
    requires places { All (IsPlace (tokens_in files.now)) places.now }
    requires differ { IsDifference (token_before (tokens_in files.now)) places.now difference.now }
    ensures token { IsTokenBefore (tokens_in files.now) places.now i (option_map norm_in result) }
    ensures step { steps.new + (i - difference.now.read) ≤ steps.old + (i + 1 - difference.now.read) }
{
    if i + 1 < difference.read {
        return difference.first;
    }
    if i < difference.read {
        return difference.last;
    }
    files.token_before(places[i], steps)
}

/// The token `n` after the first spot of the row at `i`. It is read unless it was.
pub(crate) fn token_behind_at<'a, F: Files>(
    files: &FileList<'a, F>,
    rows: &[Row],
    i: usize,
    n: u32,
    difference: &Difference<'a>,
    steps: &mut Steps<F::Reads>,
) -> Option<Seen<'a>>
    requires within { i < length rows.now }
    requires places { All (λ r. IsPlace (tokens_in files.now) r.first.place) rows.now }
    requires differ { GoOnApart (tokens_in files.now) n rows.now difference.now }
    requires numbers { IsInNumbers n difference.now }
    ensures fits { IsSome (option_map norm_in result) → n + 1 < 2 ^ 32 }
    ensures token { IsTokenBehind (tokens_in files.now) n rows.now i (option_map norm_in result) }
    ensures step { steps.new + (i - difference.now.read) ≤ steps.old + (i + 1 - difference.now.read) }
{
    if i + 1 < difference.read {
        return difference.first;
    }
    if i < difference.read {
        return difference.last;
    }
    files.token_behind(rows[i].first.place, n, steps)
}
