//! Tokens as they are compared: those that the marks in comments keep, each as language, class and spelling. The spelling
//! is dropped if its class is ignored. It costs one move of each token, and a search among the marks if there are any; a
//! digraph of C is spelled out again, in a byte or two.
#![tactic(auto)]

mod keeping;
mod normal;

pub use keeping::spans_of;
pub use normal::{Normal, meaning, normalise};
