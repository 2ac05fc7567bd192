//! The groups of all files, or of one, from an index of windows by their keys (Hummel et al., ICSM 2010). `list_file` asks
//! for a bucket for each key of its file, and `list_all` for each key that windows at two places have: a key that only one
//! window has gives no group, and is counted as a question without being asked. `refine` makes the groups of a bucket, and
//! the list is sorted once. The buckets are the caller's.
//!
//! A list of n windows copies their keys and sorts them in n log n comparisons. It reads at most as many tokens as the
//! buckets have windows, times two more than the longest repeat. It sorts its g groups in g log g comparisons, and keeps
//! the keys that it asks for, the groups and one bucket at a time. The list of one file first drops the groups that have
//! no place in it.
//!
//! A bucket is refined by sets of places that share their first tokens. A set is split by the next token until no set is
//! left, without recursion. Each token is read at most once for each set that a place is in, and the token before a place
//! once. A place that is alone in its set costs nothing more, and a bucket of one entry costs nothing at all. A set whose
//! places all have the same token before them gives no group, and neither do its parts: it is never kept.
//!
//! Places of a file that follow each other at one distance, each within the word of the one before, are a row. All but
//! the last place of a row go on by the same token, which is read once. A set keeps its places in rows, so a depth costs
//! as much as the set has rows: as few as two for a file of equal tokens. If all n rows go on by one token, the set
//! grows in place, with n reads at most. Otherwise the rows that go on as the first one does stay together, and each
//! other row is looked up among the k different tokens of the others in a map; two places need no map. Rows are joined
//! at each depth that is a power of two. Each kept place of a group is found by a division. No token is copied, and
//! memory is linear in the entries of the bucket.
//!
//! An `Index` lends the spots of its corpus's changes, so the file of an entry is found by binary search, and nothing that
//! grows with the corpus is made for a bucket.
#![tactic(auto)]

mod buckets;
mod differing;
mod entries;
mod index;
mod keeping;
mod keys;
mod listing;
mod marks;
mod refining;
mod rows;
mod sets;
mod spots;

pub use buckets::Buckets;
pub use entries::refine;
pub use index::Index;
pub use listing::{list_all, list_file};
