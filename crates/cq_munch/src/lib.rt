//! A text cut into its longest elements, once for every language. A language's tables are sets of spellings; `munch`
//! is proved to give exactly the tokens that they define, or the first fault, or that there are too many, for every
//! `Lexis`. Beside it is what a language's scanner is made of: tables that fit patterns, machines that read a character
//! at a time, comments, quoted texts, and the joining of rows. A table or a machine looks at each unit once, and a
//! machine may continue after units that were read without it. Memory grows with the units and the tokens.
#![tactic(auto)]

mod automaton;
mod backslash;
mod comment;
mod cutting;
mod element;
mod ends;
mod lexis;
mod lines;
mod machine;
mod mark;
mod marking;
mod munching;
mod names;
mod plain;
mod quoted;
mod rows;
mod spelling;
mod tabled;
mod unit;
mod words;

pub use automaton::{Automaton, Itself, StandIn, longest_found, longest_seen, scan_once};
pub use backslash::follows_backslash;
pub use comment::{block_comment, line_comment, opens_comment};
pub use element::{Found, Spell};
pub use ends::LineEnds;
pub use lexis::{Lexis, Translated};
pub use machine::{Machine, longest_spelling, longest_spelling_from};
pub use mark::is_mark;
pub use marking::the_last_word_counts;
pub use munching::{Lexed, munch, one_answer};
pub use names::named_found;
pub use plain::plain_units;
pub use quoted::Quote;
pub use rows::{better, found_of};
pub use tabled::{Tabled, element_at, sign_at, starts_with};
pub use unit::Unit;
pub use words::{is_listed_by_letter, is_spelled};
