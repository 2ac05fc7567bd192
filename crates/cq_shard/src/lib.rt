//! A shard of the index: the windows of the applied puts whose keys, modulo the number of shards, are the shard's.
//!
//! Applying a change costs a look at each key of its work, and one step and one entry for each that is the shard's. If
//! all shards apply some changes, `parted` looks at each key once for all of them. The entries are kept in runs in order
//! of their keys, one run for some changes that follow each other. A run is merged with the one before it if that has
//! less than twice its entries, so an entry is moved about as often as the logarithm of how many there are. Beside its
//! entries a run has marks, one to two bytes for each, set when it is made: one bit is set for each key that it has, and
//! few others if keys are spread evenly over all 64 bits. If they are not, marks say little.
//!
//! A bucket costs a look at a word of each run's marks. In a run that may have the key it costs a search, which looks at a
//! few adjacent entries if keys are spread evenly and is at most a binary search and eight looks more. It also costs one
//! search among the live changes for each entry with its key. From a sweep that took a put out until all runs are cleared,
//! each live change is searched for among the puts too.
//!
//! A shard knows each put that it has applied and that no sweep took out, even if none of its keys is the shard's, at 16
//! bytes, and at most the same again of spare room. The puts are in blocks of up to 1,024. A sweep takes no memory. The
//! puts to keep are some of the shard's puts up to the floor, in the same order. So if none goes of a block, its last put
//! is as far on among those to keep as among the puts, and one comparison passes the block over. In any other block both
//! are alike up to the first that goes, and from there on they are not, so it is found by a binary search, and each
//! further one so among the rest. What is between two that go, or after the last, moves up at once, 16 bytes for each. So
//! a sweep costs a comparison for each block, and for each put that goes a few searches in its block and a move of what
//! comes after it there. If there are more than twice as many blocks as the puts need, they are packed before another one
//! begins, which copies each put.
//!
//! Entries that go stay in their runs at first. A run is rid of them before it is merged, for a search among the puts for
//! each of its entries, so if a file is put again and swept each time, a run has at most one put that is gone. Once the
//! entries that are gone (a put without entries counts as one) are no fewer than those that are left, all runs are
//! cleared in place: so each entry or put that goes pays for a search of at most two entries there. A run that was
//! cleared keeps its room, and its marks those of keys that went, until it is merged.
#![tactic(auto)]

mod applying;
mod indexed;
mod laws;
mod marks;
mod parting;
mod puts;
mod run;
mod runs;
mod searching;
mod shard;
mod store;
mod table;

pub use indexed::{Indexed, lent};
pub use laws::{
    applying_adds_its_rows, it_answers_what_it_holds, it_knows_what_is_kept, it_stands_at_first,
    it_stands_on, it_stands_swept, shards_stay, sweeping_takes_out_alone,
};
pub use parting::parted;
pub use shard::Shard;
