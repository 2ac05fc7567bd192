//! The real doors: TCP connections over std's sockets, each a source and a sink over its stream. They count the calls that
//! fail, report how many connections are still to come, and say nothing about what a socket held: these few lines are
//! trusted to be what the operating system did. A call costs what the operating system asks for.
#![tactic(auto)]

mod doors;

pub use doors::TcpDoors;
