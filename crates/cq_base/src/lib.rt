//! Plain values that every layer shares: texts and their lines, tokens as they are read and as they are compared,
//! places, groups, settings, refusals, and the counter of steps. The codes and names that keys, token files, requests and
//! replies use are here, in one table each. A contract above sees each as a list, a number or a record.
//! Nothing here costs more than one walk over the bytes or items that it is given.
#![tactic(auto)]

mod change;
mod entry;
mod group;
mod keys;
mod lang;
mod laws;
mod lines;
mod measures;
mod memory;
mod norm;
mod refusal;
mod settings;
mod steps;
mod text;
mod ticks;
mod token;

pub use change::{Change, Compare, Condition, Conditions};
pub use entry::Entry;
pub use group::{Group, Place, Places};
pub use keys::Keys;
pub use lang::Lang;
pub use laws::tables_are_read_back;
pub use lines::{line_count, line_of};
pub use measures::{FileCounts, Measures, Metric};
pub use memory::Memory;
pub use norm::Norm;
pub use refusal::Refusal;
pub use settings::{Field, Settings};
pub use steps::{Counters, Steps};
pub use text::Text;
pub use token::{Class, Mark, Spelled, Token};
