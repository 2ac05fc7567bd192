//! The projects of a version, each with its files in path order: how one edit changes them in place, and how a batch of
//! edits builds new lists.
//!
//! One edit costs a search among the projects and one among its project's files, a move in that list, 8 bytes a file, and
//! a walk over the positions of its spots, 4 bytes a file, but none if the file comes last. If someone else holds the
//! project, it costs a copy of both first, an owner a file. A batch costs for each edit a search among the projects, one
//! among its project's files and one among the paths of the batch. For each project whose files changed it also costs one
//! walk that moves them into a new list, 8 bytes a file and no search, and the spots of its changes; if someone else
//! holds the project, a copy first, an owner a file. A project in which a batch named many files keeps a word of each
//! path, 8 bytes a file, so that the searches of later batches look at few files. A batch that runs out of memory is
//! dropped with its projects. What a reader looks up in a project, by path or by change, is a binary search: the spots
//! are kept with its list of files. No text, no path and no work is copied.
#![tactic(auto)]

mod draft;
mod files;
mod guesses;
mod held;
mod merging;
mod project_files;
mod projects;
mod spots;

pub use draft::{Draft, drafts_of, edit_draft, finished_all, own_drafts};
pub use held::{Held, Project};
pub use project_files::ProjectFiles;
pub use projects::{ProjectEdit, edit_in, find_project};
