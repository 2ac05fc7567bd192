//! Replies, written as lines of JSON. The line of a reply is one definition over `serde_json`'s own compact text, its
//! keys in byte order, and `line_of` gives exactly that. A reply of n bytes is written from its rows straight into one
//! buffer; the four short ones that a server must always be able to give take no memory at all.
#![tactic(auto)]

mod files;
mod functions;
mod groups;
mod line;
mod measures;
mod member;
mod refusal;
mod reply;
mod short;
mod write;

pub use line::{Fixed, Line};
pub use measures::write_metrics;
pub use member::{write_flag, write_number};
pub use reply::{
    FileRow, FileRows, FunctionRows, GroupRow, GroupRows, PlaceRow, PlaceRows, Reply, SharedPath,
    Shown,
};
pub use short::{Short, fixed};
pub use write::line_of;
