// What is true of the board and of the shards.
ghost use Rattle.std.specs.Prelude.{◌≡◌, ◌≢◌, ◌≤◌, ℕ, List, [], ◌∷◌, ◌++◌, Option};

use crate::item::Item;
use std::marker::{Brand, PhantomData};

/// What is true of a board B and of shards S, after each history of events E, in cells that were made with a key K.
pub trait Law<B, S, E, K> {
    // How many callers there may be.
    ghost callers: { K → ℕ };

    // Which histories may be.
    ghost lawful: { K → List E → Type 0 };

    // What the board is after this history.
    ghost board: { K → List E → B → Type 0 };

    // What the shard with this number is after this history, once it has applied this many changes.
    ghost shard: { K → List E → ℕ → ℕ → S → Type 0 };

    // Who made an event, if anybody.
    ghost caller: { E → Option ℕ };

    // How many changes each shard must have applied before this event.
    ghost asks: { E → ℕ };

    // A shard stays right after one event more, if it has applied what the event asks for.
    ghost lasts: { (key : K) (log : List E) (e : E) (s a : ℕ) (x : S) → lawful key (log ++ e ∷ []) → asks e ≤ a → shard key log s a x → shard key (log ++ e ∷ []) s a x };
}

/// What is true of the value in each cell, by the cell's number and the half of its word.
pub trait CellLaw<I, E, K> {
    // How many callers there may be.
    ghost total: { K → ℕ };

    ghost lawful: { K → List E → Type 0 };

    // The value of the cell with this number, after this history, if its word's half is this count.
    ghost fits: { K → List E → ℕ → ℕ → I → Type 0 };

    ghost caller: { E → Option ℕ };

    // What an event asks of the count of each cell but the first.
    ghost asks: { E → ℕ };

    // What is in the other cells stays right when the history grows.
    ghost lasts: { (key : K) (log : List E) (e : E) (k c : ℕ) (x : I) → k ≢ 0 → lawful key (log ++ e ∷ []) → asks e ≤ c → fits key log k c x → fits key (log ++ e ∷ []) k c x };
}

/// The board's law for cell 0, and the shards' for the others.
pub struct ByCell<L> {
    law: PhantomData<L>,
}

impl<B, S, E, K, L: Law<B, S, E, K>> CellLaw<Item<B, S>, E, K> for ByCell<L> {
    ghost use Rattle.cq_cells.specs.Items.{Fits, fits_last};

    ghost total = { L.callers };

    ghost lawful = { L.lawful };

    ghost fits = { λ key. Fits (L.board key) (L.shard key) };

    ghost caller = { L.caller };

    ghost asks = { L.asks };

    ghost lasts = { λ key. fits_last (L.lawful key) (L.board key) (L.shard key) L.asks (L.lasts key) };
}

/// Which event is noted. Each call picks it.
pub trait Noting<E> {
    ghost use Rattle.std.specs.Prelude.{Option};

    ghost event: { Option E };
}

impl<E> Noting<E> for Brand {
    ghost use Rattle.std.specs.Prelude.{None};

    ghost event = { None };
}
