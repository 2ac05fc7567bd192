// The rule of the table, and what each step on a word shows.
ghost use Rattle.cq_cells.specs.Rule.{Kept};
ghost use Rattle.cq_cells.specs.Steps.{taken, noted, released, compared, first_view, spent, less, child, witness, beside_of};

use crate::law::{CellLaw, Noting};
use crate::view::View;
use atomic_table::{Join, Play, Split, TableRule};
use std::marker::PhantomData;

pub struct CellRule<L> {
    law: PhantomData<L>,
}

// The key of the table is what the cells are made with.
impl<I, E, K, L: CellLaw<I, E, K>> TableRule<Option<I>, View<I, E, K>, K> for CellRule<L> {
    ghost holds = { λ key. Kept (L.lawful key) (L.fits key) L.asks L.caller (L.total key) key };

    ghost first = { λ key. first_view (L.total key) key };
}

// A cell is taken.
pub struct Take<L> {
    law: PhantomData<L>,
}

impl<I, E, K, L: CellLaw<I, E, K>> Play<Option<I>, View<I, E, K>> for Take<L> {
    ghost then = { taken L.lawful L.fits L.caller };
}

// An event is noted on the cell in hand.
pub struct Note<N> {
    event: PhantomData<N>,
}

impl<I, E, K, N: Noting<E>> Play<Option<I>, View<I, E, K>> for Note<N> {
    ghost then = { noted N.event };
}

// The cell in hand is released.
pub struct Release;

impl<I, E, K> Play<Option<I>, View<I, E, K>> for Release {
    ghost then = { released };
}

// What two passes have seen is compared, once they are joined.
pub struct Compare<L> {
    law: PhantomData<L>,
}

impl<I, E, K, L: CellLaw<I, E, K>> Play<Option<I>, View<I, E, K>> for Compare<L> {
    ghost then = { compared L.caller };
}

// The next caller gets a pass.
pub struct NewCaller;

impl<I, E, K> Split<View<I, E, K>> for NewCaller {
    ghost left = { less };

    ghost right = { child };
}

// A seat of no caller is split off, which has seen as much.
pub struct Witness;

impl<I, E, K> Split<View<I, E, K>> for Witness {
    ghost left = { λ v. v };

    ghost right = { witness };
}

// A pass is joined into another.
pub struct Beside;

impl<I, E, K> Join<View<I, E, K>> for Beside {
    ghost both = { beside_of };

    ghost spent = { spent };
}
