use cq_base::{Lang, Memory, Text};
use std::alloc::{AllocError, AllocFailed, Global};
use std::sync::Arc;
use thiserror::Error;

/// What a caller learns of the changes: how many are accepted, up to which all are done, the first that is not done, and
/// the last published version.
#[derive(Clone, Copy, Debug, PartialEq, Eq)]
pub struct Asked {
    pub accepted: u64,
    pub done: u64,
    pub undone: Option<u64>,
    pub published: u64,
}

/// A change whose work is to be made.
#[derive(Drop)]
pub struct Job {
    pub change: u64,
    pub lang: Lang,
    pub text: Arc<Text, Global>,
}

/// Why a change is not accepted.
#[derive(Clone, Copy, Debug, PartialEq, Eq, Error)]
pub enum Refused {
    /// It drops a path whose last put or drop is no put.
    #[error("there is no file at the path to drop")]
    Absent,
    /// So many changes are kept as may be, or so many were accepted.
    #[error("too many changes")]
    FullChanges,
    /// Its text and all kept texts have more bytes than may be.
    #[error("the kept texts would have too many bytes")]
    FullText,
    #[error("out of memory")]
    Memory,
}

impl From<Memory> for Refused {
    ghost use Rattle.std.specs.Prelude.{◌≡◌};
    ghost use Rattle.cq_board.specs.declared.answers.Refused.{Refused};

    ghost from_gives = { λ _ r. r ≡ Refused.Memory };

    fn from(_e: Memory) -> Refused {
        Refused::Memory
    }
}

impl From<AllocError> for Refused {
    ghost use Rattle.std.specs.Prelude.{◌≡◌};
    ghost use Rattle.cq_board.specs.declared.answers.Refused.{Refused};

    ghost from_gives = { λ _ r. r ≡ Refused.Memory };

    fn from(_e: AllocError) -> Refused {
        Refused::Memory
    }
}

impl<T: Drop> From<AllocFailed<T>> for Refused {
    ghost use Rattle.std.specs.Prelude.{◌≡◌};
    ghost use Rattle.cq_board.specs.declared.answers.Refused.{Refused};

    ghost from_gives = { λ _ r. r ≡ Refused.Memory };

    fn from(_e: AllocFailed<T>) -> Refused {
        Refused::Memory
    }
}

/// Whether a work was the first of its change.
#[derive(Clone, Copy, Debug, PartialEq, Eq)]
pub enum Finished {
    Done,
    /// The change was done already, and nothing has changed.
    Already,
}
