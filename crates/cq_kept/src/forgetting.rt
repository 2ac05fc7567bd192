ghost use Rattle.std.specs.Prelude.{◌≡◌, ◌+◌, ◌<◌, ◌^◌, not, nat_eq, filter, AllPairs};
ghost use Rattle.std.specs.BTreeMap.{keys};
ghost use Rattle.std.specs.List.Sorted.{IsStrictlyIncreasing};
ghost use Rattle.cq_kept.specs.Accepted.{text_in, not_over, over_behind, IsPartOf};
ghost use Rattle.cq_kept.specs.Over.{IsNoLater};

use crate::accepting::text_len;
use crate::kept::Kept;
use crate::over::Over;
use std::collections::{BTreeMap, VecDeque};

/// Takes out each change that is over at a floor, and returns how many bytes their texts had. It takes no memory, and costs
/// a search for each.
pub fn forget<W: Drop>(
    kept: &mut BTreeMap<u64, Kept<W>>,
    over: &mut VecDeque<Over>,
    floor: u64,
) -> u64
    requires order { AllPairs IsNoLater over.old.items }
    requires rising { IsStrictlyIncreasing (keys kept.old) }
    requires few { text_in kept.old < 2 ^ 64 }
    ensures over { over.new.items ≡ over_behind floor over.old.items }
    ensures numbers { keys kept.new ≡ not_over over.old.items floor (keys kept.old) }
    ensures same { IsPartOf kept.old kept.new }
    ensures bytes { result + text_in kept.new ≡ text_in kept.old }
{
    let mut bytes = 0u64;
    'over: while let Some(first) = over.front() {
        if floor < first.by {
            return bytes;
        }
        let number = first.number;
        over.pop_front();
        let taken = take_out(kept, number);
        bytes += taken;
    }
    bytes
}

// Takes a change out, and returns how many bytes of text it had.
fn take_out<W: Drop>(kept: &mut BTreeMap<u64, Kept<W>>, number: u64) -> u64
    requires { IsStrictlyIncreasing (keys kept.old) }
    ensures numbers { keys kept.new ≡ filter (λ n. not (nat_eq number n)) (keys kept.old) }
    ensures same { IsPartOf kept.old kept.new }
    ensures bytes { result + text_in kept.new ≡ text_in kept.old }
{
    match kept.remove(&number) {
        Some(gone) => text_len(&gone.change),
        None => 0,
    }
}
