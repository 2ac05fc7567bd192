//! Token files: a version of a project with the works of its files as bytes. `decode` computes the keys of the tokens that
//! it reads again, and `encode` reads each token twice and takes memory only for the file. `Loaded` is an index of the
//! windows by key, 24 bytes for each.
#![tactic(auto)]

mod decoding;
mod encoding;
mod lengths;
mod loaded;
mod snapshot;

pub use decoding::decode;
pub use encoding::{Encoded, encode};
pub use loaded::Loaded;
pub use snapshot::Snapshot;
