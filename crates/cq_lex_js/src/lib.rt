//! The languages JavaScript and TypeScript: their names, reserved words, punctuators, literals, comments and blanks, by the
//! lexical grammar of ECMA-262, and elements of JSX in JavaScript. A slash begins a regular expression or is a division by the
//! token before it, and a closing brace ends a substitution of a template by what is open there; both are in the mode. One
//! table scans literals, two the children and tags of JSX, another every other element, and comments have scanners of their
//! own: a look into a table for each unit, up to the first that cannot continue the element. It takes no memory. The units of
//! a text of n bytes take at most 12 n bytes.
#![tactic(auto)]

mod children;
mod element;
mod language;
mod literal;
mod mode;
mod scanner;
mod tag;
mod typescript;
mod words;

pub use language::JavaScript;
pub use mode::what_is_open_is_a_stack;
pub use typescript::TypeScript;
