//! The language Go: its names, keywords, operators, literals, comments and blanks, by the Go specification, and the
//! semicolons that it inserts. One test recognises a blank first. Comments have scanners of their own; one table scans
//! every other element, which costs a look into it for each unit, up to the first that cannot continue the element. A character of ASCII in a name costs a look into a smaller table, and the name is compared with the keywords
//! of its first letter and its length. It takes no memory. The units of a text of n bytes take at most 12 n bytes; the
//! semicolons cost one look at each byte between two tokens, and one move of each token.
#![tactic(auto)]

mod language;
mod scanner;
mod semicolon;
mod words;

pub use language::Go;
pub use semicolon::semicolons_end_lines;
