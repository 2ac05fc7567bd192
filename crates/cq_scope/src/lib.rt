//! Patterns of paths: `*` stands for any characters of one part of a path, `?` for one of them, and the part `**` for any
//! number of parts, or none. Whether a path fits a pattern is decided without memory and without recursion, by rows of a
//! table of 513 places, at a cost that grows at most with the product of both lengths. Of the files of a version, those are
//! chosen whose path fits and that changed since another version, at that cost for each that did, and one look for each
//! other.
#![tactic(auto)]

mod choosing;
mod laws;
mod part;
mod parts;
mod pattern;
mod row;

pub use choosing::{choose, is_chosen};
pub use laws::{a_star_takes_any_front, two_stars_take_any_parts};
pub use pattern::{Pattern, fits};
