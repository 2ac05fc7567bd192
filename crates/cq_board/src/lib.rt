//! The board: the accepted changes, who works on them, the published versions and the open views. A call adds its event
//! to every history for which the board stands, exactly if the event is lawful, or changes nothing. Callers are
//! numbered from 0.
//!
//! What no version from the floor on needs is forgotten as the floor rises: a drop, a put whose file was put or dropped
//! again up to there, a gate that was followed by another one of its project. Each change that is kept is found by its
//! number, in a logarithm of how many are kept, whatever its number is; those that are forgotten cost nothing, and only
//! clauses speak of them.
//!
//! Accepting a change costs an owner for each of its texts, twice, and four searches: among what is kept, among the
//! changes that are not done, among the places that have files or the projects with gates, and after what is over. All
//! memory that giving it back, finishing it and forgetting it need is taken then, except for 8 bytes for each change that
//! may be kept, which are taken with the board. Finishing one costs two searches, and reporting up to which all are done
//! costs one. Taking one costs a search among the changes that were given back or one among those that are not done. One
//! that was given back and that another caller has finished since is passed over at the next taking, by a search of its
//! own, and forgotten. Over all takings that is at most one search more for each giving back, so a logarithm a call over
//! any run of calls; one taking passes over at most as many as were held at once. Opening a view costs an owner of the
//! listing, and shutting one a number.
//!
//! A change that another one supersedes is noted with it, 16 bytes, in the order of the latter. Raising the floor costs a
//! look at each caller's view and a search for each change that is forgotten, and no memory. The puts that the floor
//! keeps are the live numbers of the listing if this is of the floor's version, which costs an owner of it; otherwise
//! they are listed by a walk of what is kept up to there. While someone has that owner, a publication copies the listing,
//! as for a view.
//!
//! Publishing costs what cq_projects takes for the edits of the changes: a single one is a search and a move, several
//! move the files of each project that they change once. If a view still shows a list, it is copied first, an owner a
//! file, and the numbers of all files, 8 bytes each; otherwise both are changed in place, the numbers in one walk if many
//! were replaced or dropped. If memory is refused while several changes are made in place, the board keeps an empty
//! listing, and opens no view until `relist` or the next publication has rebuilt the listing, which costs what publishing
//! all that is kept at once does. No text, no path and no work is copied: each is held once, by an owner that what is
//! kept, listings and jobs share.
#![tactic(auto)]

mod answers;
mod board;
mod editing;
mod free;
mod keep;
mod laws;
mod listing;
mod live;
mod refusing;
mod undone;

pub use answers::{Asked, Finished, Job, Refused};
pub use board::Board;
pub use keep::Keep;
pub use laws::shards_have_the_entries;
pub use listing::{Listing, View};
