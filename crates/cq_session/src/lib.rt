//! One caller's talk with a hub: the lines of a source are answered one by one, each by calls of the hub. What is written
//! is defined by the lines and by a history of events that continues from line to line; nothing is kept here but the
//! greatest number that was named. An upload costs one reading of its line; a query that may finish works costs these
//! works, and a listing what `cq_answer` costs; after an answer the hub is swept. That a change was accepted is written
//! without memory.
//!
//! The buckets of one project's files in an open view of any hub: a question goes to the hub, and the entries of other
//! projects are taken out of its answer in place, each by a binary search among the changes of the project's files, and
//! nothing is made for it.
#![tactic(auto)]

mod answering;
mod buckets;
mod helping;
mod keeper;
mod met;
mod project;
mod server;
mod serving;
mod stop;
mod telling;
mod viewing;

pub use answering::query_reply;
pub use buckets::PassBuckets;
pub use keeper::{Keeper, NoLog};
pub use project::keep;
pub use server::Server;
pub use serving::{kept_session, session};
pub use stop::Stop;
