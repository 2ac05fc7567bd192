ghost use Rattle.std.specs.Prelude.{◌≡◌, ◌≤◌, ◌<◌, IfOk, All, length, replicate};
ghost use Rattle.cq_func.specs.Tables as spec;

use cq_base::Memory;
use std::alloc::Global;

/// One number, many times.
pub(crate) fn repeated(alloc: Global, number: u32, many: usize) -> Result<Vec<u32>, Memory>
    ensures { IfOk result (λ v. v.items ≡ replicate many number) }
{
    Ok(vec![in alloc; number; many]?)
}

/// For each place the least one above it whose mark is what it looks for, or the number of places if there is none.
/// Marks are below `width`. It goes once through the places, from the last to the first, and keeps for each mark the
/// nearest place that has it.
pub(crate) fn places_above(
    alloc: Global,
    wanted: &[u32],
    marks: &[u32],
    width: usize,
) -> Result<Vec<u32>, Memory>
    requires alike { length wanted.now ≡ length marks.now }
    requires few { length marks.now ≤ 262144 }
    requires looked_for { All (λ w. w < width) wanted.now }
    requires marked { All (λ m. m < width) marks.now }
    ensures { IfOk result (λ t. spec.AreAbove wanted.now marks.now t.items) }
{
    let mut nearest = repeated(alloc, marks.len() as u32, width)?;
    let mut found = repeated(alloc, marks.len() as u32, marks.len())?;
    let mut at = marks.len();
    while at > 0 {
        at -= 1;
        found[at] = nearest[wanted[at] as usize];
        nearest[marks[at] as usize] = at as u32;
    }
    Ok(found)
}

/// For each number below `width` the least place that has it as its mark, or the number of places if there is none.
pub(crate) fn first_places(alloc: Global, marks: &[u32], width: usize) -> Result<Vec<u32>, Memory>
    requires few { length marks.now ≤ 262144 }
    requires marked { All (λ m. m < width) marks.now }
    ensures { IfOk result (λ t. spec.AreFirst marks.now width t.items) }
{
    let mut first = repeated(alloc, marks.len() as u32, width)?;
    let mut at = marks.len();
    while at > 0 {
        at -= 1;
        first[marks[at] as usize] = at as u32;
    }
    Ok(first)
}
