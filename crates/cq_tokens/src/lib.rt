//! The tokens of a file, and the files that are read or listed together. A `FileList` and a `Corpus` are made only if what
//! is always asked of such files holds, and they keep it. `Tokens::at` is the only way to read a token, and each read is
//! one step on a counter of the tokens' own ledger, so a caller's counter bounds what was read. A read costs a look into
//! two lists and takes no memory. A file's tokens take 8 bytes each, and the bytes of their texts.
#![tactic(auto)]

mod corpus;
mod files;
mod laws;
mod packed;
mod plain;
mod reading;
mod seen;
mod tokens;

pub use corpus::{Corpus, FileList};
pub use files::Files;
pub use laws::equal_tokens_tie;
pub use plain::{FileTokens, PlainFiles};
pub use seen::Seen;
pub use tokens::Tokens;
