//! The language C: its names, keywords, numbers, texts, header names, punctuators, comments and blanks as a preprocessor
//! reads them (C11 6.4), after line splices are removed. One test recognises a blank first. Comments and header names have
//! scanners of their own, and strings and character constants a table each; one table scans every other element. A table
//! costs a look into it for each unit, up to the first that cannot continue the element. A header name is read twice. A
//! character of ASCII in a name costs a look into a smaller table, and the name is compared with the keywords of its first
//! letter and its length. A quote that nothing closes on its line is searched for once, which decides for all later ones of
//! its kind on the line. It takes no memory except for the units, of which a text of n bytes has at most n, of 12 bytes
//! each, twice while splices are taken out. Whether there are any is a search of the bytes.
#![tactic(auto)]

mod characters;
mod constants;
mod element;
mod faults;
mod header;
mod identifier;
mod language;
mod mode;
mod scanner;
mod splice;
mod strings;
mod text;

pub use faults::only_open_comments_are_faults;
pub use header::header_names_are_enclosed;
pub use language::C;
pub use splice::only_splices_are_left_out;
