//! The definitions of clone detection: what the groups of a corpus are, over lists of tokens of any type, and what
//! the keys of its windows say. The listings above are proved to give exactly these. The functions have no body:
//! their contracts are laws of the definitions, for a reader and for the proofs above.
#![tactic(auto)]

mod laws;

pub use laws::{has_one_list, lists_every_match, shows_its_tokens};
