//! The whole program as one call, `top`, over the runtime, arguments, source, sink, doors, gate and counter that it is
//! given. `cqd` calls it with the real ones, and `cqd_cases` with ends in memory.
#![tactic(auto)]

mod clients;
mod host;
mod laws;
mod logged;
mod program;
mod status;
mod workers;

pub use laws::{
    a_command_that_nothing_fails_is_done, a_kept_version_that_nothing_fails_is_asked,
    a_version_that_nothing_fails_is_written, what_was_exported_is_asked_as_run,
};
pub use program::top;
pub use status::{Exit, Status};
