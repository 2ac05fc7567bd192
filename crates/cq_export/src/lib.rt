//! A version of one project, written as its token file. The lines of a source are changes, which a board of its own takes;
//! the works are made once all lines were taken, and nothing is indexed. What is written is defined only by these changes.
//! It costs the works of all texts that were put, one publication, and what `cq_tokfile` says of writing a file; the file
//! is held whole before its first byte is written.
#![tactic(auto)]

mod exporting;
mod laws;
mod publishing;
mod saying;
mod sharing;
mod taking;
mod working;

pub use exporting::{Exported, export};
pub use laws::{
    a_written_version_answers_as_a_session, a_written_version_answers_as_a_session_beside,
};
