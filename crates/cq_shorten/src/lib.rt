//! A log's lines that its last version needs: of each file that exists the line of its last put, and of each project that of
//! its last gate, in the order in which they came. A log of just these has the same files and gates; its changes have other
//! numbers, from 1 on. What no later version can need is let go on the way, so that no more is held than the log's versions
//! need, twice over at most. Texts are not analysed.
#![tactic(auto)]

mod held;
mod keeping;
mod laws;
mod nothing;
mod shortening;

pub use held::Shortener;
pub use laws::{a_short_log_is_a_log, it_is_needed_as_worked_out, what_is_needed_leaves_the_same};
pub use nothing::Unworked;
pub use shortening::{Shortened, shorten};
