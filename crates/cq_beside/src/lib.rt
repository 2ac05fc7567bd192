//! A session with workers beside it, over the shared hub: each worker makes the works of accepted changes, on a thread and
//! a pass of its own. If nobody else calls the hub, the replies are those that a server may give with workers beside it. It
//! costs a thread and a keyer for each worker.
#![tactic(auto)]

mod joining;
mod serving;

pub use serving::{Crew, serve_one};
