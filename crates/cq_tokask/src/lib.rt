//! A kept version of one project, asked by the lines of a source. A line is a query, answered on the version's files with
//! their works; any other request is refused. What is written is defined only by the snapshot and the lines, except that a
//! reply may report out of memory. A query costs what `cq_answer` says of it, over an index of the version's windows that
//! is made once. The file before the lines is taken in pieces, with memory only for what has come of it.
#![tactic(auto)]

mod answering;
mod asking;
mod kept;
mod laws;
mod taking;
mod telling;
mod version;

pub use kept::{Asked, ask};
pub use laws::a_kept_version_answers_as_its_changes;
