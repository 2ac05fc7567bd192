use crate::item::Item;
use crate::locked::Seated;
use std::marker::Model;

/// A caller's right to step on the cells. Contracts see what the caller knows: the history that it has seen, the cell
/// that it holds, how far the shards are, and how many questions were counted. A pass that is dropped while it holds a
/// cell leaves that cell held.
#[derive(Drop)]
pub struct Pass<B, S, E, K> {
    pub(crate) seat: Seated<Item<B, S>, E, K>,
    pub(crate) by: u32,
    pub(crate) next: u32,
    pub(crate) asked: u64,
}

impl<B, S, E, K> Model for Pass<B, S, E, K> {
    ghost use Rattle.cq_cells.specs.Passes.{PassState, pass_state, PassOk};
    ghost use Rattle.cq_cells.specs.declared.item.Item.{Item};

    ghost Value = { PassState (Item B S) E K };

    ghost view = { λ p. pass_state p.seat.table_id p.asked p.seat.me.0 };

    ghost invariant = { λ p. PassOk p.by p.next p.seat.me.0 p.seat.me.1 };
}

impl<B, S, E, K> Pass<B, S, E, K> {
    ghost use Rattle.std.specs.Prelude.{◌≡◌, ◌+◌, ◌-◌, ◌^◌, min};
    ghost use Rattle.cq_cells.specs.Passes.{by_of};

    /// The number of its caller.
    pub fn by(&self) -> u32
        ensures { result ≡ by_of self.now }
    {
        self.by
    }

    /// The number that the next split gives. 0 in each pass but the first.
    pub fn next(&self) -> u32
        ensures { result ≡ self.now.next }
    {
        self.next
    }

    /// Counts so many questions more, up to 2^64 - 1. Nothing else changes.
    pub fn count_reads(&mut self, reads: u64)
        ensures { self.new ≡ record self.old { asked = min (self.old.asked + reads) (2 ^ 64 - 1) } }
    {
        self.asked = self.asked.saturating_add(reads);
    }
}
