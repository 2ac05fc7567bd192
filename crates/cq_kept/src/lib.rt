//! The accepted changes of a server: those that its floor keeps, and how many there were. What no version from the floor on
//! needs is forgotten as the floor rises: a drop, a put whose file was put or dropped again up to there, a gate that was
//! followed by another one of its project. Contracts see the slots of all changes that were accepted; those that are
//! forgotten cost nothing, and only clauses speak of them.
//!
//! Each change that is kept is found by its number, in a logarithm of how many are kept, whatever its number is. Accepting
//! one costs an owner for each of its texts, and searches among what is kept, and among the places that have files or the
//! projects with gates. A change that another one supersedes is noted with it, 16 bytes, in the order of the latter: so
//! raising the floor costs a search for each change that is forgotten, and no memory. The puts that the floor keeps are
//! listed by a walk of what is kept up to there. No text is copied: each is held once, by an owner that all who need it
//! share. The text of a put is given up when its work is made; its length counts as long as the put is kept.
#![tactic(auto)]

mod accepting;
mod changes;
mod forgetting;
mod kept;
mod original;
mod over;
mod past;
mod presence;
mod put_text;
mod slot_tests;

pub use accepting::stored;
pub use changes::Changes;
pub use kept::{FileKey, Kept, ProjectKey, Stored};
pub use put_text::PutText;
pub use slot_tests::{is_done, is_free};
