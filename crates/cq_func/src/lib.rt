//! The functions of a file: name, lines and complexity of each, in the order of their names. What a function is, is
//! defined over tokens, for each language by its own rule; docs/LANGUAGES.md has them. The definition counts brackets, and
//! the code never goes back: it costs a few walks over the tokens, whatever their nesting, and the memory of a few numbers
//! for each token.
#![tactic(auto)]

mod brackets;
mod c;
mod found;
mod function;
mod go;
mod java;
mod js;
mod own;
mod places;
mod spelling;
mod ts;

pub use function::{Function, functions};
