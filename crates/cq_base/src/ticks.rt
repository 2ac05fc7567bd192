ghost use Rattle.std.specs.Prelude.{◌≡◌, ◌+◌, ℕ};
ghost use base.Fml.{ftrue};

use std::marker::{Model, PhantomData};

// A number that only clauses see. It takes no bytes. Its two functions are proved by hand, since they set it.
#[derive(Drop)]
pub(crate) struct Ticks {
    marker: PhantomData<()>,
    pub(crate) ghost number: { ℕ },
}

impl Model for Ticks {
    ghost also_owns = { λ _. ftrue };
}

impl Ticks {
    pub(crate) fn none() -> Ticks
        ensures { result.number ≡ 0 }
    {
        Ticks {
            marker: PhantomData,
        }
    }

    pub(crate) fn next(&self) -> Ticks
        ensures { result.number ≡ self.now.number + 1 }
    {
        let _ = self;
        Ticks {
            marker: PhantomData,
        }
    }
}
