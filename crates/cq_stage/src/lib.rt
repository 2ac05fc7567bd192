//! The stage of trials on real threads: clients that send their lines when something has come, doors by which they come, a gate
//! that holds workers and commits or writes its calls down, and a log of what is written to each client, which a trial reads
//! after the run. Whoever waits gives up after a stated number of turns, and the stage says who did, and for what.
#![tactic(auto)]

mod calls;
mod client;
mod door;
mod log;
mod scene;
mod source;
mod stage;

pub use client::Client;
pub use door::{LogDoors, LogSink};
pub use log::Log;
pub use scene::{Hold, Scene};
pub use source::ClientSource;
pub use stage::{Late, Stage, Until, Who};
