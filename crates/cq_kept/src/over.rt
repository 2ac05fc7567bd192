ghost use Rattle.std.specs.Prelude.{◌≡◌, ◌++◌, ◌<◌};
ghost use Rattle.std.specs.VecDeque.{deque_len, deque_capacity};
ghost use Rattle.cq_kept.specs.Over.{noted};

use std::collections::VecDeque;

/// A change that is over as soon as a floor is at another one, which made it so: the numbers of both.
#[derive(Clone, Copy, Debug, PartialEq, Eq)]
pub struct Over {
    pub by: u64,
    pub number: u64,
}

/// One more, if the change made another one over. It takes no memory.
pub fn note_over(all: &mut VecDeque<Over>, by: u64, number: Option<u64>)
    requires { deque_len all.old < deque_capacity all.old }
    ensures items { all.new.items ≡ all.old.items ++ noted by number }
    ensures room { deque_capacity all.new ≡ deque_capacity all.old }
{
    if let Some(number) = number {
        all.push_back_reserved(Over { by, number });
    }
}
