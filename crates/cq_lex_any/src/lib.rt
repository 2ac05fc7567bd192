//! The language `any`, for texts of no language in particular: a token is a longest run of characters that may
//! continue an identifier (UAX #31, XID_Continue), or any other single character that is not a blank. There are no
//! comments, and no text is a fault. Each unit is looked at once, twice at the end of a run.
#![tactic(auto)]

mod faults;
mod language;
mod run;
mod taking;

pub use faults::no_text_is_a_fault;
pub use language::Any;
