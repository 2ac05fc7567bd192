//! What is in the lock of a server that keeps a log: the log, and the pass of the hub's first caller, the only one that may
//! accept changes. A change is accepted and its line is written by one call, so the lines are those of the accepted changes in
//! the order of their numbers. A call costs what it costs to accept a change and to write its line.
#![tactic(auto)]

mod accepting;
mod locked;
mod naming;

pub use locked::Locked;
pub use naming::LogOf;
