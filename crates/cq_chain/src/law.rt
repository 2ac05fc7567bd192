ghost use Rattle.cq_chain.specs.Held.{callers_of, IsLawful, IsBoard, IsShardAt, asks};
ghost use Rattle.cq_chain.specs.Lasts.{lasts};
ghost use Rattle.cq_history.specs.State.{maker};

use crate::about::About;
use cq_board::Board;
use cq_cells::Law;
use cq_history::Event;
use cq_shard::{Indexed, Shard};
use std::marker::PhantomData;

/// What is true of a board and of its shards after each history, over works of this kind.
pub struct BoardLaw<W> {
    work: PhantomData<W>,
}

impl<W: Indexed> Law<Board<W>, Shard, Event, About> for BoardLaw<W> {
    ghost callers = { callers_of };

    ghost lawful = { IsLawful };

    ghost board = { IsBoard };

    ghost shard = { IsShardAt W.keys_in W.IsWorkOf };

    ghost caller = { maker };

    ghost asks = { asks };

    ghost lasts = { lasts W.keys_in W.IsWorkOf };
}
