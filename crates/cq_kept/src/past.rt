ghost use Rattle.std.specs.Prelude.{◌≡◌, List};
ghost use base.Fml.{ftrue};
ghost use Rattle.cq_history.specs.State.{Slot};
ghost use Rattle.cq_kept.specs.Slots.{change_of, with_change, with_holder, with_work};

use crate::kept::Stored;
use std::marker::{Model, PhantomData};

// The slots of all changes that were accepted, also of those that are forgotten, which only clauses see. It takes no bytes.
// Its function `of` is proved by hand, since it sets it.
#[derive(Drop)]
pub(crate) struct Past {
    marker: PhantomData<()>,
    pub(crate) ghost slots: { List Slot },
}

impl Model for Past {
    ghost also_owns = { λ _. ftrue };
}

unsafe impl Send for Past {}

impl Past {
    // Of these slots.
    pub(crate) fn of() -> Past
        ghost slots: { List Slot }
        ensures { result.slots ≡ slots }
    {
        Past {
            marker: PhantomData,
        }
    }

    // One change more.
    pub(crate) fn accepted(&self, change: &Stored) -> Past
        ghost slots: { List Slot }
        requires { slots ≡ with_change self.now.slots (change_of change.now) }
        ensures { result.slots ≡ with_change self.now.slots (change_of change.now) }
    {
        let _ = self;
        let _ = change;
        Past::of()
    }

    // The change of this number has this holder.
    pub(crate) fn held(&self, number: u64, holder: Option<u32>) -> Past
        ghost slots: { List Slot }
        requires { slots ≡ with_holder self.now.slots number holder }
        ensures { result.slots ≡ with_holder self.now.slots number holder }
    {
        let _ = self;
        let _ = (number, holder);
        Past::of()
    }

    // The work of the change of this number is done.
    pub(crate) fn finished(&self, number: u64) -> Past
        ghost slots: { List Slot }
        requires { slots ≡ with_work self.now.slots number }
        ensures { result.slots ≡ with_work self.now.slots number }
    {
        let _ = self;
        let _ = number;
        Past::of()
    }
}
