ghost use Rattle.std.specs.Prelude.{◌≡◌};
ghost use Rattle.cq_tokform.specs.declared.unread.Unread.TheVariants as unread;

use cq_base::Memory;
use std::alloc::{AllocError, AllocFailed};

/// Why nothing was read.
#[derive(Clone, Copy, Debug, PartialEq, Eq)]
pub enum Unread {
    /// Memory was refused, and nothing is known of the bytes.
    Memory,
    /// The bytes don't begin with what was to be read.
    Refused,
}

impl From<AllocError> for Unread {
    ghost from_gives = { λ _ e. e ≡ unread.Memory };

    fn from(_: AllocError) -> Unread {
        Unread::Memory
    }
}

impl<T: Drop> From<AllocFailed<T>> for Unread {
    ghost from_gives = { λ _ e. e ≡ unread.Memory };

    fn from(_: AllocFailed<T>) -> Unread {
        Unread::Memory
    }
}

impl From<Memory> for Unread {
    ghost from_gives = { λ _ e. e ≡ unread.Memory };

    fn from(_: Memory) -> Unread {
        Unread::Memory
    }
}
