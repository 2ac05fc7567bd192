//! A server's log: its accepted changes, each as the line that came, in the order of their numbers. What a log holds is a
//! function of its lines, and never shrinks as the log grows. A line that a crash cut off says nothing; an empty line after
//! it mends the log. The reader takes a log line by line, hands each change to a taker, and answers what has to be written
//! before another line. It keeps one line at a time, and costs one reading of each.
#![tactic(auto)]

mod laws;
mod mending;
mod reading;
mod taker;
mod taking;

pub use laws::{
    a_log_grows, a_restart_is_the_same, mending_changes_nothing, mending_mends,
    they_end_as_worked_out, they_hold_as_worked_out,
};
pub use mending::mend;
pub use taker::Taker;
pub use taking::{Taken, take_log};
