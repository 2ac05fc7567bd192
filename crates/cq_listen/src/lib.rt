//! Many sessions over the shared hub, one for each connection, and workers beside them. Only the calling thread asks the
//! doors. It hands each connection to a session thread through a queue with one place per thread, and asks for the next one
//! only while a place is free. All memory that is taken for this comes before the first door: a pass and a cutter for each
//! session, a pass for each worker, one keyer for all of them, and the queue.
//!
//! A connection is of a type that can't be dropped: whoever has one hands it on, or serves it to its end. Nothing is proved
//! about who is served first, nor that anything returns.
#![tactic(auto)]

mod benches;
mod connection;
mod doorway;
mod floor;
mod listening;
mod passes;
mod queue;
mod seats;
mod sessions;
mod workers;

pub use floor::Floor;
pub use listening::{Passes, Served, serve, serve_over};
pub use passes::passes_of;
