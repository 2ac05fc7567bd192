//! Which texts name a project, and which are paths of files. It costs one walk over the bytes, and takes no memory.
#![tactic(auto)]

mod paths;
mod projects;

pub use paths::{is_path, is_path_text};
pub use projects::is_project;
