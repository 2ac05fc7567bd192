ghost use Rattle.cq_lex_any.specs.Any.{run_rest};

use cq_munch::Machine;

/// Before a run of identifier characters, or in it.
#[derive(Clone, Copy, Debug, PartialEq, Eq)]
pub(crate) enum Run {
    Before,
    Inside,
}

impl Machine for Run {
    ghost rest = { run_rest };

    fn step(self, ch: char) -> Option<Self> {
        if unicode_ident::is_xid_continue(ch) {
            Some(Run::Inside)
        } else {
            None
        }
    }

    fn accepts(self) -> bool {
        self == Run::Inside
    }
}
