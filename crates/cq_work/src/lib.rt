//! The analysis of an upload, which is made once and shared behind `Arc`s: what its text is lexed to by its language, the
//! listed tokens as they are compared, the keys of their windows, its functions, and what is counted of it. It costs one
//! reading of the text, one move of each token, and what the keys cost.
//!
//! A window is a run of `chunk` neighbouring tokens, and its key a number of at most 64 bits. Equal windows have equal
//! keys. Different windows may have equal keys too: nothing above rests on more. A file of n tokens costs n codes, one
//! walk over each token's text, and a fold over the `chunk` codes of the first window; each later key is rolled on from
//! the one before (Karp and Rabin, 1987), in a few steps whatever `chunk` is.
#![tactic(auto)]

mod code;
mod counting;
mod keyer;
mod keying;
mod laws;
mod lexing;
mod plain;
mod rolling;
mod shown;
mod work;

pub use keyer::Keyer;
pub use keying::files_are_keyed_by_their_windows;
pub use laws::works_are_bounded;
pub use plain::plain_key;
pub use work::{State, Work, work_for, work_of};
