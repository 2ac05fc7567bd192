//! A board and its shards in locked cells, under one rule for all threads. `Law` says what a board and a shard are
//! after a history of events; the calls of `Cells` say what a caller finds and owes. No call takes memory but `new`,
//! and only the two that enter may wait.
//!
//! # The rule
//!
//! A cell is a word and a slot of `atomic_table`. The upper 63 bits of the word are a count, of events in the
//! board's, modulo 2^63, and of applied changes in a shard's; the lowest bit is 1 while a pass holds the cell, whose
//! value is then out of the slot. The history exists only in the proof. Between any two atomic steps of any passes,
//! `Kept` of specs/Rule.antt is true:
//!
//! - The history is lawful. What a pass has seen is a front of it, and some pass has seen it whole.
//! - Each number of a caller that is made is that of one pass, numbers of a pass differ, and each pass has seen all
//!   events of its callers, also of those that were joined into it. A number that is not made has no event.
//! - A free board is what the history leaves, and a free shard is right for it, at the count of its word.
//! - A held cell is in the hand of one pass. Its view has the value as it was taken, which is still right, and the
//!   event that was noted since. The holder of the board has seen the whole history, so nobody else adds to it
//!   meanwhile.
//! - A count that a pass knows a shard to have reached is no more than that shard's. Counts of shards never fall.
//! - The first pass makes the numbers; its room is the callers less the numbers made.
//!
//! A pass also counts the questions that were asked with it. The count is beside the pass's seat and is not part of the
//! rule.
//!
//! # The steps
//!
//! | Step | On | What it does |
//! |---|---|---|
//! | split | a load of the board's word | makes the next caller's pass, which has seen as much |
//! | join | two loads of it | the pass that stays takes the longer history, and the other's numbers |
//! | take | a compare-and-exchange, even to odd | the pass holds the cell; with the board it has seen all |
//! | move out, move in | the slot | reads or writes the value, as plain memory |
//! | note | a load of the board's word | puts the event into the holder's view |
//! | release | a store, of twice the count | the event is the history's, the value is free |
//!
//! An event is noted only if the history stays lawful, its maker is the holder's caller, and the holder knows each
//! shard to have reached what the event asks for. So no pass ever holds two cells, and still board and shards agree:
//! a pass that takes a shard finds it right for some history that begins with what it has seen.
//!
//! Three steps are not what one might write down first. A join is two loads, since a join may only use the two views,
//! and only the rule knows that one history begins with the other: the first load puts the other view beside this
//! one, the second compares them. A release is one store of the whole word, and not one more or one less: the count
//! goes by the value that is put back, and the same step serves with an event and without. What was done to a shard
//! is not noted but owed at its release, for each history that may be by then; no other pass can see the difference.
//!
//! # Waiting
//!
//! A pass that finds the cell held looks at its word for some microseconds, about as long as a change is applied to a
//! shard, and then parks on it until a release wakes it; each release wakes one. It may find the cell held again by one
//! that came later, and waits again. Nothing is proved of who goes first, nor that any
//! does. A pass that is dropped while it holds a cell leaves the cell held, and whoever enters it then waits for
//! ever.
#![tactic(auto)]

mod cells;
mod item;
mod law;
mod locked;
mod pass;
mod rule;
mod view;

pub use cells::Cells;
pub use law::Law;
pub use pass::Pass;
