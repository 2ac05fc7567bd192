ghost use Rattle.std.specs.Prelude.{◌≡◌};

use cq_base::{Change, Memory, Refusal, Text};
use json::Invalid;
use std::alloc::AllocError;

/// What a query shows.
#[derive(Clone, Copy, Debug, PartialEq, Eq)]
pub enum Kind {
    Files,
    Groups,
    Measures,
    Verdict,
    Functions,
}

/// A question about one project.
#[derive(Debug, Drop)]
pub struct Query {
    pub kind: Kind,
    pub project: Text,
    /// The file that is asked about; the whole project if there is none. Functions are always asked of a file.
    pub path: Option<Text>,
    /// The least number of tokens of a run.
    pub min: u32,
    /// The version from which on an answer is wanted.
    pub at: u64,
    /// Whether work that is left is to be done first.
    pub finish: bool,
    /// The pattern that a file's path has to fit to be measured; all files if there is none. It is a path, and comes
    /// without a path.
    pub scope: Option<Text>,
    /// The version above which a file's change has to be for the file to be measured.
    pub since: u64,
}

/// What a line asks for.
#[derive(Debug, Drop)]
pub enum Request {
    Change(Change),
    Query(Query),
    /// How far the server has come.
    State,
}

/// Why no request was read.
#[derive(Debug, Drop)]
pub enum ReadError {
    /// The line is refused.
    Refused(Refusal),
    /// Memory was refused.
    Memory,
}

impl From<Memory> for ReadError {
    ghost use Rattle.cq_request.specs.declared.request.ReadError.TheVariants as error;

    ghost from_gives = { λ _ e. e ≡ error.Memory };

    fn from(_: Memory) -> ReadError {
        ReadError::Memory
    }
}

impl From<AllocError> for ReadError {
    ghost use Rattle.cq_request.specs.declared.request.ReadError.TheVariants as error;

    ghost from_gives = { λ _ e. e ≡ error.Memory };

    fn from(_: AllocError) -> ReadError {
        ReadError::Memory
    }
}

impl From<Invalid> for ReadError {
    ghost use Rattle.cq_base.specs.declared.refusal.Refusal.TheVariants as refusal;
    ghost use Rattle.cq_request.specs.declared.request.ReadError.TheVariants as error;

    ghost from_gives = { λ _ e. e ≡ error.Refused refusal.Json };

    fn from(_: Invalid) -> ReadError {
        ReadError::Refused(Refusal::Json)
    }
}
