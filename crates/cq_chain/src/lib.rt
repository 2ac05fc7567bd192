//! A board and its shards in locked cells, which the passes of any number of threads share. These are the cells of
//! cq_cells, over one law: what a board and a shard are after a history of events. No call takes memory except `new`, and
//! only the two that enter may wait.
//!
//! # The rule
//!
//! One history runs through all cells, and exists only in the proof. Between any two atomic steps of any passes:
//!
//! - The history is lawful for the board's settings and callers, and each change that it accepts is sound. What a pass has
//!   seen is a front of it, and some pass has seen it whole.
//! - A pass has seen all events of its caller, and of each caller that ended in it. No two passes have a caller in common,
//!   and a number that is not made yet has no event.
//! - A board that nobody holds stands for the history.
//! - A shard that nobody holds has the windows of the changes that it has applied, but for those that its floor has passed.
//!   It has applied what is published and nothing that is not ready, and its floor is at most the history's.
//! - What a pass holds is as it was taken. Whoever holds the board has seen the whole history, and nobody else adds to it
//!   meanwhile.
//! - What a pass knows a shard to have applied, it has applied. Shards never go back.
//!
//! # What a holder finds, and what it owes
//!
//! Whoever enters the board finds what the whole history left, and has seen that history then. It may do one thing that the
//! board allows, and leaves with that event: of its own caller, or of nobody, as a publication and a floor are. A version
//! is published only if the pass knows each shard to have applied it. It knows so because it was there: it need not hold
//! the shards, since they don't go back.
//!
//! Whoever enters a shard finds it right for some history that begins with what it has seen. Others may have gone on from
//! there: accepted, published, applied, swept. But the caller's own events are all seen, so its open version is what it was,
//! no floor passes that version, and the shard has applied what was published when it was opened. So a reader finds the
//! entries of its version in each shard, whenever it comes there, though it never holds two cells. Leaving, a pass has
//! applied at most one change, which is ready in what it has seen, or has swept up to the floor there. It owes that the
//! shard is then right for each history that may have come meanwhile, if it was.
//!
//! A split makes the next caller's pass, which has seen as much. A join ends the callers of another pass: of the two
//! histories, one is a front of the other, and the longer is kept.
//!
//! A pass also counts the questions that were asked with it. The count is not part of the rule.
//!
//! # Waiting, and cost
//!
//! A pass that finds a cell held parks until a release wakes it. Nothing is proved about who goes first, nor that any does.
//! A pass that is dropped while it holds a cell leaves the cell held for ever. A call moves the board or the shard out of
//! its slot or into it, and takes a few atomic steps; the cells take a word and a slot each.
#![tactic(auto)]

mod about;
mod cells;
mod law;

pub use about::About;
pub use cells::{Cells, Pass};
pub use law::BoardLaw;
