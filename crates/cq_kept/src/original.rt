ghost use Rattle.std.specs.Prelude.{◌≡◌, ℕ, List};
ghost use base.Fml.{ftrue};

use cq_base::Text;
use std::marker::{Model, PhantomData};

// The bytes of an uploaded text, whether it is still there or was given up. Only clauses see them, and they take no memory.
// `of`, which sets them, is proved by hand.
#[derive(Drop)]
pub(crate) struct Original {
    marker: PhantomData<()>,
    pub(crate) ghost bytes: { List ℕ },
}

impl Model for Original {
    ghost also_owns = { λ _. ftrue };
}

unsafe impl Send for Original {}

impl Original {
    // These bytes.
    pub(crate) fn of() -> Original
        ghost bytes: { List ℕ }
        ensures { result.bytes ≡ bytes }
    {
        Original {
            marker: PhantomData,
        }
    }

    // Those of a text.
    pub(crate) fn of_text(text: &Text) -> Original
        ghost bytes: { List ℕ }
        requires { bytes ≡ text.now }
        ensures { result.bytes ≡ text.now }
    {
        let _ = text;
        Original::of()
    }

    // The same ones.
    pub(crate) fn again(&self) -> Original
        ghost bytes: { List ℕ }
        requires { bytes ≡ self.now.bytes }
        ensures { result.bytes ≡ self.now.bytes }
    {
        let _ = self;
        Original::of()
    }
}
