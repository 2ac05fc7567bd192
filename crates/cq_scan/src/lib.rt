//! The plain listing of a corpus's groups: every two places are compared. It knows no key and no index, and is the
//! yardstick of every faster listing: what it answers is exactly the definition of groups, in order, each once. Over N
//! places and G groups it costs N^2 comparisons of words, and N reads and G comparisons more for each pair that is
//! maximal; it takes memory only for its answer and two lists of places, and its stack doesn't grow with the input.
#![tactic(auto)]

mod corpus;
mod known;
mod listing;
mod occurrences;

pub use listing::scan;
