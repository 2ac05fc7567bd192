ghost use Rattle.std.specs.Prelude.{◌≡◌};
ghost use Rattle.cq_history.specs.State.{is_done, is_free};
ghost use Rattle.cq_kept.specs.Slots.{slot_from};

use crate::kept::{Kept, Stored};

/// Whether nothing is left to do for the change.
pub fn is_done<W>(kept: &Kept<W>) -> bool
    ensures { result ≡ is_done (slot_from kept.now) }
{
    match &kept.change {
        Stored::Put { .. } => kept.work.is_some(),
        Stored::Drop { .. } => true,
        Stored::Gate { .. } => true,
    }
}

/// Whether the change is neither done nor taken.
pub fn is_free<W>(kept: &Kept<W>) -> bool
    ensures { result ≡ is_free (slot_from kept.now) }
{
    !is_done(kept) && kept.holder.is_none()
}
