//! A server that comes back: it takes its log from a source, serves the doors, and continues the log in a sink. Each line that
//! is accepted is written there before its reply is, so a server that is started again from the log has each change that a
//! reply reported, under the same number. Taking the log costs one reading of each line; the works of its changes are made
//! when they are asked for, or by the workers of the server.
#![tactic(auto)]

mod doors;
mod log;
mod reloading;
mod serving;

pub use serving::{Ground, Kept, Place, serve_kept};
