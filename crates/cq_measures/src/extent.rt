use cq_base::{FileCounts, Token};

/// The lines that a place covers: its file, and its first and its last line.
#[derive(Clone, Copy, Debug, PartialEq, Eq, PartialOrd, Ord)]
pub(crate) struct Extent {
    pub file: u32,
    pub first: u32,
    pub last: u32,
}

/// A file as it is measured: its counts, and where its tokens are.
#[derive(Clone, Copy)]
pub struct FileLines<'a> {
    pub counts: FileCounts,
    pub spans: &'a [Token],
}
