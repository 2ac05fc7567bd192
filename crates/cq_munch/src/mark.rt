ghost use Rattle.std.specs.Prelude.{◌≡◌, ◌<◌, length, drop};
ghost use Rattle.cq_munch.specs.Characters.{characters};
ghost use Rattle.cq_munch.specs.Language.{has_mark};

use crate::unit::Unit;

/// Whether the unit is the first of the text, and a byte order mark.
pub fn is_mark(units: &[Unit], at: u32) -> bool
    requires { at < length units.now }
    ensures { result ≡ has_mark at (drop at (characters units.now)) }
{
    at == 0 && units[at as usize].ch == '\u{FEFF}'
}
