ghost use Rattle.std.specs.Prelude.{◌↔◌, ◌+◌, ◌<◌, ◌≤◌, length, IsTrue, option_map};
ghost use Rattle.cq_clones.specs.Groups.{file_at, IsPlace, word_at, StandsAt, AreSame};
ghost use Rattle.cq_tokens.specs.Packed.{norm_in};
ghost use Rattle.cq_tokens.specs.Parts.{tokens_in};
ghost use Rattle.cq_scan.specs.Match.{AreSameBehind, AreSameBefore, Matches};

use cq_base::{Place, Steps};
use cq_tokens::{FileList, Files, Seen};

/// Whether both tokens are there and equal.
fn are_equal(a: Option<Seen<'_>>, b: Option<Seen<'_>>) -> bool
    ensures { IsTrue result ↔ AreSame (option_map norm_in a.entry) (option_map norm_in b.entry) }
{
    match (a, b) {
        (Some(a), Some(b)) => a.is_same(&b),
        _ => false,
    }
}

/// Whether the tokens `n` after two places are there and equal.
fn are_same<F: Files>(
    files: &FileList<'_, F>,
    p: Place,
    q: Place,
    n: u32,
    steps: &mut Steps<F::Reads>,
) -> bool
    requires p_file { p.file < length (tokens_in files.now) }
    requires q_file { q.file < length (tokens_in files.now) }
    ensures { IsTrue result ↔ AreSameBehind (tokens_in files.now) p q n }
{
    let a = files.token_behind(p, n, steps);
    let b = files.token_behind(q, n, steps);
    are_equal(a, b)
}

/// Whether the tokens before two places are there and equal.
#[tactic(auto, using(cq_tokens::proofs::Places::file_of_place))]
pub(crate) fn are_same_before<F: Files>(
    files: &FileList<'_, F>,
    p: Place,
    q: Place,
    steps: &mut Steps<F::Reads>,
) -> bool
    requires p_in { IsPlace (tokens_in files.now) p }
    requires q_in { IsPlace (tokens_in files.now) q }
    ensures { IsTrue result ↔ AreSameBefore (tokens_in files.now) p q }
{
    let a = files.token_before(p, steps);
    let b = files.token_before(q, steps);
    are_equal(a, b)
}

/// How many tokens from two places on are equal.
#[tactic(auto, using(cq_tokens::proofs::Places::file_of_place))]
pub(crate) fn match_len<F: Files>(
    files: &FileList<'_, F>,
    p: Place,
    q: Place,
    steps: &mut Steps<F::Reads>,
) -> u32
    requires p_in { IsPlace (tokens_in files.now) p }
    requires q_in { IsPlace (tokens_in files.now) q }
    ensures { Matches (tokens_in files.now) p q result }
{
    let p_left = files.file_len(p.file) - p.at;
    let q_left = files.file_len(q.file) - q.at;
    let most = p_left.min(q_left);
    for n in 0..most {
        if !are_same(files, p, q, n, steps) {
            return n;
        }
    }
    most
}

/// Whether the word of `n` tokens at `p` is at `q` too.
#[tactic(auto, using(cq_tokens::proofs::Places::file_of_place))]
pub(crate) fn stands_at<F: Files>(
    files: &FileList<'_, F>,
    p: Place,
    n: u32,
    q: Place,
    steps: &mut Steps<F::Reads>,
) -> bool
    requires p_in { IsPlace (tokens_in files.now) p }
    requires within { p.at + n ≤ length (file_at (tokens_in files.now) p.file) }
    requires q_in { IsPlace (tokens_in files.now) q }
    ensures { IsTrue result ↔ StandsAt (tokens_in files.now) (word_at (tokens_in files.now) p n) q }
{
    if files.file_len(q.file) - q.at < n {
        return false;
    }
    for k in 0..n {
        if !are_same(files, p, q, k, steps) {
            return false;
        }
    }
    true
}
