//! The outside: where bytes come from and go to, where connections come from, and where a test may look on. Each end
//! counts its faults and answers `Failed` only if that count rose. The ends in memory report every byte that was read
//! or taken. The ends over std's readers and writers report no bytes: those few lines are trusted to be what the
//! operating system did. A call costs what it copies.
#![tactic(auto)]

mod door;
mod gate;
mod memory;
mod sink;
mod source;
mod standard;

pub use door::{Doors, MemDoors};
pub use gate::{Gate, OpenGate};
pub use memory::{MemSink, MemSource};
pub use sink::{Sink, send};
pub use source::{Failed, Source};
pub use standard::{StdSink, StdSource};
