ghost use Rattle.std.specs.Prelude.{◌≡◌, true, IfOk};
ghost use Rattle.std.specs.List.Sorted.{IsNonDecreasingBy};
ghost use Rattle.cq_normal.specs.Kept as spec;

use cq_base::{Mark, Memory, Spelled, Token};
use std::alloc::Global;

// Whether the last mark that begins before this byte is on, or none begins before it. It is a binary search.
fn is_on(marks: &[Mark], byte: u32) -> bool
    requires { IsNonDecreasingBy (λ m. m.at) marks.now }
    ensures { result ≡ spec.is_on true marks.now byte }
{
    let before = marks.partition_point(|mark| mark.at < byte);
    if before == 0 {
        return true;
    }
    marks[before - 1].on
}

/// The tokens that the marks of their text leave in. Without marks it costs nothing.
pub(crate) fn kept(marks: &[Mark], tokens: Vec<Spelled>) -> Vec<Spelled>
    requires { IsNonDecreasingBy (λ m. m.at) marks.now }
    ensures { result.items ≡ spec.kept marks.now tokens.items }
{
    if marks.is_empty() {
        return tokens;
    }
    let mut tokens = tokens;
    tokens.retain(|spelled| is_on(marks, spelled.token.start));
    tokens
}

/// Where tokens are.
pub fn spans_of(alloc: Global, tokens: &[Spelled]) -> Result<Vec<Token>, Memory>
    ensures { IfOk result (λ v. v.items ≡ spec.spans_of tokens.now) }
{
    Ok(tokens.iter().map(|s| s.token).collect(alloc)?)
}
