ghost use Rattle.std.specs.Prelude.{◌≡◌, ◌==◌, ◌<◌, ◌^◌, ℕ, Bool, IsFalse, List, [], ◌∷◌, length, drop};
ghost use Rattle.cq_munch.specs.Characters.{characters};
ghost use Rattle.cq_munch.specs.Language.{Takes};
ghost use Rattle.cq_munch.specs.Lexed.{unit_at};
ghost use Rattle.cq_munch.specs.Table.{Row, starts};
ghost use Rattle.cq_munch.specs.Tabled.{RowsTake, language_of, sign};
ghost use Rattle.cq_munch.specs.declared.element.Spell.{Spell};
ghost use Rattle.cq_munch.specs.declared.element.Spell.TheVariants.{Blank};

use crate::element::{Found, Spell};
use crate::mark::is_mark;
use crate::unit::Unit;

/// A language by its table. It remembers nothing of a text but the mode.
pub trait Tabled: Copy {
    /// Its blanks of one character, in a mode.
    ghost is_blank: { ℕ → ℕ → Bool };

    /// The rows that are tried in a mode, before a text that begins with no such blank.
    ghost rows: { ℕ → List ℕ → List Row };

    /// The mode after an element.
    ghost behind: { ℕ → Spell → List ℕ → ℕ };

    /// Whether the character is such a blank.
    fn is_blank(mode: u64, ch: char) -> bool
        ensures { result ≡ is_blank mode ch };

    /// The mode after a blank of one character.
    fn after_blank(mode: u64, ch: char) -> u64
        ensures { result ≡ behind mode Blank (ch ∷ []) };

    /// The longest element at the front, with the mode before it; None exactly if the rows allow none.
    fn taken(units: &[Unit], mode: u64) -> Option<Found>
        requires { length units.now < 2 ^ 32 }
        ensures { RowsTake (rows mode (characters units.now)) mode (characters units.now) result };

    /// The mode after an element of these units.
    fn mode_behind(mode: u64, spell: Spell, units: &[Unit]) -> u64
        ensures { result ≡ behind mode spell (characters units.now) };
}

// The element at a unit that is no blank.
fn taken_at<X: Tabled>(units: &[Unit], at: u32, mode: u64) -> Option<Found>
    requires inside { at < length units.now }
    requires short { length units.now < 2 ^ 32 }
    requires visible { IsFalse (X.is_blank mode (unit_at units.now at).ch) }
    ensures { Takes (language_of X.is_blank X.rows X.behind) at mode (drop at (characters units.now)) result }
{
    if is_mark(units, at) {
        return Some(Found {
            spell: Spell::Blank,
            units: 1,
            mode: X::after_blank(mode, units[at as usize].ch),
        });
    }
    let rest = &units[at as usize..];
    match X::taken(rest, mode) {
        None => None,
        Some(found) => Some(Found {
            spell: found.spell,
            units: found.units,
            mode: X::mode_behind(mode, found.spell, &rest[..found.units as usize]),
        }),
    }
}

/// The element at a unit, in a mode; None exactly if the language allows none there. A blank costs no call.
#[inline(always)]
pub fn element_at<X: Tabled>(units: &[Unit], at: u32, mode: u64) -> Option<Found>
    requires inside { at < length units.now }
    requires short { length units.now < 2 ^ 32 }
    ensures { Takes (language_of X.is_blank X.rows X.behind) at mode (drop at (characters units.now)) result }
{
    let first = units[at as usize].ch;
    if X::is_blank(mode, first) {
        return Some(Found {
            spell: Spell::Blank,
            units: 1,
            mode: X::after_blank(mode, first),
        });
    }
    taken_at::<X>(units, at, mode)
}

/// Whether this character is at the front.
pub fn starts_with(ch: char, units: &[Unit]) -> bool
    ensures { result ≡ starts (λ c. c == ch) (characters units.now) }
{
    match units {
        [first, ..] => first.ch == ch,
        [] => false,
    }
}

/// Just this character, if it is at the front.
pub fn sign_at(ch: char, spell: Spell, units: &[Unit], mode: u64) -> Option<Found>
    ensures { RowsTake (sign spell ch ∷ []) mode (characters units.now) result }
{
    if starts_with(ch, units) {
        Some(Found {
            spell,
            units: 1,
            mode,
        })
    } else {
        None
    }
}
