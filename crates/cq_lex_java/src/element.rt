ghost use Rattle.std.specs.Prelude.{◌≡◌, ◌<◌, ◌^◌, length};
ghost use Rattle.cq_munch.specs.Characters.{characters};
ghost use Rattle.cq_munch.specs.Tabled.{RowsTake};
ghost use Rattle.cq_lex_java.specs.Java.{rows};
ghost use Rattle.cq_lex_java.specs.Openers.{is_end};

use crate::scanner::{CLASSES, ENDS, NAMES, SPELLS, STEPS};
use crate::words::{RESERVED, Seen};
use cq_munch::{Automaton, Found, Unit, named_found};

/// Whether the character U+001A is all that is left.
pub(crate) fn is_end(units: &[Unit]) -> bool
    ensures { result ≡ is_end (characters units.now) }
{
    match units {
        [last] => last.ch == '\u{1A}',
        _ => false,
    }
}

/// The element at the front, if nothing is opened.
pub(crate) fn element(units: &[Unit], mode: u64) -> Option<Found>
    requires { length units.now < 2 ^ 32 }
    ensures { RowsTake rows mode (characters units.now) result }
{
    let by = Automaton {
        classes: &CLASSES,
        steps: &STEPS,
        ends: &ENDS,
    };
    named_found::<Seen>(by, &NAMES, &SPELLS, &RESERVED, mode, units)
}
