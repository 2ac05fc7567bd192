//! A core that is stepped by a script, to play the orders in which clients, workers and versions may meet. Each line is
//! one step of one of sixteen callers, in JSON, and is answered by one line: the outcome of the step.
//!
//! `read_step` reads a line by one table of the steps and their fields, with one order of refusals, over `serde_json`'s own
//! reading of bytes. A line is parsed once, and the request in it is moved out of what was parsed.
//!
//! `drive` takes the steps. What it writes is defined by the lines and by the history that their steps make. What is read
//! in an open view is what its version has, whatever is applied, published and swept meanwhile. A step costs what
//! `cq_core` says of it, a change is analysed once, and a reply costs what `cq_answer` says.
//!
//! `line_of` writes an outcome as `serde_json`'s compact text. The outcome of a step that changed something is written
//! without memory, so what was done is always reported. A list of n entries is written once, into one buffer.
#![tactic(auto)]

mod buckets;
mod driver;
mod driving;
mod laws;
mod outcome;
mod reading;
mod row;
mod step;
mod stepping;
mod telling;
mod viewing;
mod write;

pub use driver::Driver;
pub use driving::drive;
pub use laws::the_steps_are_as_worked_out;
pub use outcome::{Entries, ScriptOutcome};
pub use reading::read_step;
pub use step::ScriptStep;
pub use write::line_of;
