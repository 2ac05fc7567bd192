//! The byte form of a token file: what it has of a version of a project, part by part and whole. What is read is sound and
//! spelled so; what is sound and spelled so is read unless memory is refused; and no form of a sound value is the beginning
//! of another's. A reader never goes back in the bytes, and takes memory only for elements that it has read, whatever
//! number of them is claimed. A writer adds at the end, and leaves what comes before as it is, even if memory is refused.
#![tactic(auto)]

mod apart;
mod conditions;
mod contents;
mod file;
mod files;
mod frame;
mod functions;
mod head;
mod laws;
mod numbers;
mod rising;
mod tokens;
mod unread;

pub use conditions::{put_condition, put_conditions};
pub use contents::{ContentsRecord, read_whole};
pub use file::{FileRecord, put_front};
pub use frame::{announced, put_mark};
pub use functions::{put_function, put_functions};
pub use head::{Head, put_head_of};
pub use laws::{
    conditions_have_one_form, files_have_one_form, frames_have_one_form, functions_have_one_form,
    heads_have_one_form, no_whole_begins_another, tokens_have_one_form, wholes_have_one_form,
};
pub use numbers::{put_u32, put_u64};
pub use tokens::put_token;
pub use unread::Unread;
