ghost use Rattle.std.specs.Prelude.{◌≡◌};
ghost use Rattle.cq_board.specs.Calls.{refusal_in};
ghost use Rattle.cq_kept.specs.Slots.{change_of};

use crate::Refused;
use cq_kept::{Changes, Stored};
use cq_shard::Indexed;

/// Why a change is not accepted, if it is not.
pub fn refusal<W: Indexed>(changes: &Changes<W>, change: &Stored) -> Option<Refused>
    ensures { result ≡ refusal_in changes.now (change_of change.now) }
{
    if changes.is_absent(change) {
        return Some(Refused::Absent);
    }
    if changes.is_full() {
        return Some(Refused::FullChanges);
    }
    if changes.is_long(change) {
        return Some(Refused::FullText);
    }
    None
}
