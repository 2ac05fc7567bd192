//! The command-line arguments, which are called words here. Which are valid is a grammar of our own over a command's
//! row of options and flags; `clap` decides, and is proved to decide just so. It costs a walk over the words for each
//! word, and memory for what `clap` keeps of them. Whether words are valid is also decided without memory, so that
//! invalid ones are refused as such whatever memory there is.
#![tactic(auto)]

mod asked;
mod command;
mod form;
mod laws;
mod numbers;
mod reading;
mod table;

pub use command::{Command, Export, Listen, Make, Run};
pub use form::is_command;
pub use laws::words_in_form;
pub use reading::{connections, default_settings, read_command};
