//! A hub whose passes are used from any number of threads: a board and its shards in locked cells. What is proved over
//! any hub holds of it, with others' events between any two calls of a pass.
//!
//! # What a call does within a hold
//!
//! No call holds two cells, and none waits while it holds one. No text, no path and no work is copied there.
//!
//! - `accept`, the board: two owners for each text of the change, which is the caller's own before; four searches, each a
//!   logarithm, among what is kept, among the changes that are not done, among the places that have files or the
//!   projects with gates, and after what is over; and the memory for what they add. A change that is refused is dropped
//!   there.
//! - `ask`, the board: three numbers are read, and the first of the changes that are not done is looked for, a logarithm.
//! - `take`, the board: a search among the changes that were given back or among those that are not done, a logarithm;
//!   and an owner of a text. What was given back and finished by another since is passed over by the next call, a
//!   logarithm for each: over all calls that is at most one more for each `back`, and in one call at most as many as were
//!   held at once.
//! - `job`, the board: a search among what is kept; an owner of a text.
//! - `back`, the board: a search among what is kept, and the change goes among those that were given back, a logarithm.
//! - `finish`, the board: the change is looked for among what is kept, where its work goes, and among those that are not
//!   done, a logarithm each. A work that comes too late is dropped there.
//! - `open_view`, the board: an owner of the listing. If memory was refused in the middle of a publication, the
//!   caller's or another's, it reports so again until an `advance` has made the listing.
//! - `close_view`, the board: a number is cleared. The listing is dropped afterwards.
//! - `read_bucket`, the shard of the key: a look at a word of each of its runs, a search in those that may have the key,
//!   and one among the view's files for each entry with the key. Those that are there are copied out.
//! - `count_reads` takes no cell.
//! - `advance`, the board: an owner of each work that is to be applied, and a list of them. So this hold takes memory,
//!   and is as long as the list. Then, shard by shard, a hold of the shard for each change: a look at each key of its
//!   work, an entry for each that is the shard's, and the merging that this brings. Between two shards the gate is
//!   called, and nothing is held. Each caller begins at a shard of its own and goes round, every second one downwards, so
//!   that callers that bring the same changes meet and don't follow each other. At last, the board again: the
//!   publication, which costs what cq_board says of it. If as much is published by then, or was at first, that hold
//!   rebuilds the listing instead if memory was refused in the middle of a publication of several changes; this takes
//!   the time of all changes that are kept once.
//! - `sweep`, the board: a look at each caller's view, and what raising the floor forgets. If some shard was not swept
//!   up to that floor, also the puts that it keeps: an owner of the listing if the floor is the published version.
//!   While an older version is viewed it is a list, so this hold takes memory then, and is as long as what is kept.
//!   Then, shard by shard, a hold of the shard for what cq_shard says of a sweep. A publication before the last of them
//!   copies the listing that has an owner more, as for a view. If all shards were swept up to that floor, as a word
//!   beside the cells says, none is taken.
//!
//! Whoever enters a shard may bring it on by one change, by the rule of the cells. So no shard takes several changes as
//! one run, as those of the plain hub do. Each shard looks at all keys of a work, since they aren't divided beforehand.
#![tactic(auto)]

mod advancing;
mod calls;
mod deed;
mod shared;
mod sweeping;

pub use shared::Shared;
