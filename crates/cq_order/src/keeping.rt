ghost use Rattle.std.specs.Prelude.{◌≡◌, IfOk};
ghost use Rattle.cq_clones.specs.Groups.{is_free, kept_of};

use cq_base::{Memory, Place};
use std::alloc::Global;

// Whether an occurrence begins at or after the end of the last kept one of its file.
fn is_free(tokens: u32, last: Option<Place>, p: Place) -> bool
    ensures { result ≡ is_free tokens last p }
{
    match last {
        None => true,
        Some(last) => {
            last.file != p.file || u64::from(last.at) + u64::from(tokens) <= u64::from(p.at)
        }
    }
}

/// Of all occurrences of a word of `tokens` tokens, in order, those that are kept: each that begins at or after the
/// end of the last kept one in its file.
pub fn kept(alloc: Global, tokens: u32, all: &[Place]) -> Result<Vec<Place>, Memory>
    ensures { IfOk result (λ kept. kept.items ≡ kept_of tokens all.now) }
{
    let mut kept = Vec::new(alloc);
    let mut last = None;
    for p in all {
        if is_free(tokens, last, *p) {
            kept.push(*p)?;
            last = Some(*p);
        }
    }
    Ok(kept)
}
