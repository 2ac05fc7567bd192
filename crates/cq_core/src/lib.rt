//! The board with its shards, one step at a time: what a server of any number of callers may do, in the order in which it
//! happens. A step is done exactly if it is allowed, and otherwise changes nothing. A step costs what the call of the
//! board or of the shard costs. Publishing also costs a look at each shard, and sweeping what the board takes to list the
//! puts that the floor keeps; it is not asked for a shard that was swept so far before. Opening a view rebuilds the
//! listing first, if memory was refused while it was changed.
#![tactic(auto)]

mod machine;
mod step;

pub use machine::Core;
pub use step::{Outcome, Step};
