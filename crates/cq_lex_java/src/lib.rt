//! The language Java: its identifiers, keywords, numbers, characters, strings, text blocks, separators, operators and
//! comments (JLS 3), after Unicode escapes are translated. A blank is recognised by one test, and the opening of a comment
//! or of a text block by a few more. A character of ASCII in a name costs a look into a table, and the name is compared
//! with the keywords of its first letter and its length. One table scans all other elements, and another one text blocks:
//! a look for each unit, up to the first that cannot continue the element. The opening of a text block is read once more.
//! It takes no memory except for the units, of which a text of n bytes has at most n, of 12 bytes each, twice while
//! escapes are read. Whether there may be any is one search of the bytes.
#![tactic(auto)]

mod block;
mod element;
mod escape;
mod language;
mod scanner;
mod translation;
mod words;

pub use block::text_blocks_are_written;
pub use language::Java;
pub use translation::escapes_go_by_count;
