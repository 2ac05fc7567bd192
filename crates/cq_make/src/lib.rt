//! The project that `make` makes of a number: small files, each of which repeats lines of the files before it. They are
//! put into a hub of their own, and one line reports what a client would be told of the project. `make` costs the works of
//! the files, two listings of the project and the line; a file has less than 300 bytes.
#![tactic(auto)]

mod asking;
mod generator;
mod making;
mod putting;
mod summary;

pub use making::{Project, make};
