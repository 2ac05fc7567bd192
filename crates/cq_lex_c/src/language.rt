ghost use Rattle.std.specs.Prelude.{◌<◌, ◌^◌, IsFalse, Ok, length, drop};
ghost use Rattle.std.proofs.Math.Nat.{le_refl};
ghost use Rattle.cq_munch.specs.Characters.{characters};
ghost use Rattle.cq_munch.specs.Language.{Takes};
ghost use Rattle.cq_munch.specs.Lexed.{unit_at};
ghost use Rattle.cq_munch.specs.Tabled.{RowsTake};
ghost use Rattle.cq_lex_c.specs.C.{c, is_blank, rows_at};
ghost use Rattle.cq_lex_c.specs.OneKind.{one_kind_of_c};
ghost use Rattle.cq_lex_c.specs.Splices.{spliced};
ghost use Rattle.cq_lex_c.specs.Unclosed.{IsTrueOf};

use crate::element::{is_blank, is_unquoted, taken, without_quotes};
use crate::mode::{mode_behind, mode_behind_blank};
use crate::splice::unspliced;
use crate::text::{Unclosed, nothing_known, prefixed_at, text_at};
use cq_base::{Memory, Spelled, Text};
use cq_munch::{Found, Lexis, Spell, Translated, Unit, is_mark, plain_units};
use std::alloc::Global;

/// The language C. It remembers the quotes that were looked at and that nothing closes, so that a line of them is
/// read once.
#[derive(Clone, Copy, Debug, PartialEq, Eq)]
pub struct C {
    unclosed: Unclosed,
}

// The element at a unit that is no blank and no byte order mark, with the mode before it. After most characters no text in quotes is looked for.
fn found_at(unclosed: &mut Unclosed, units: &[Unit], at: u32, mode: u64) -> Option<Found>
    requires inside { at < length units.now }
    requires short { length units.now < 2 ^ 32 }
    requires remembered { IsTrueOf unclosed.old (characters units.now) }
    ensures found { RowsTake (rows_at mode (drop at (characters units.now))) mode (drop at (characters units.now)) result }
    ensures remembered { IsTrueOf unclosed.new (characters units.now) }
{
    let rest = &units[at as usize..];
    if is_unquoted(units[at as usize].ch) {
        return without_quotes(rest, mode);
    }
    let text = text_at(units, at as usize, unclosed);
    let prefixed = prefixed_at(units, at as usize, unclosed);
    taken(rest, mode, text, prefixed)
}

// The element at a unit that is no blank.
fn taken_at(unclosed: &mut Unclosed, units: &[Unit], at: u32, mode: u64) -> Option<Found>
    requires inside { at < length units.now }
    requires short { length units.now < 2 ^ 32 }
    requires visible { IsFalse (is_blank mode (unit_at units.now at).ch) }
    requires remembered { IsTrueOf unclosed.old (characters units.now) }
    ensures taken { Takes c at mode (drop at (characters units.now)) result }
    ensures remembered { IsTrueOf unclosed.new (characters units.now) }
{
    let rest = &units[at as usize..];
    if is_mark(units, at) {
        return Some(Found {
            spell: Spell::Blank,
            units: 1,
            mode: mode_behind_blank(mode, units[at as usize].ch),
        });
    }
    match found_at(unclosed, units, at, mode) {
        None => None,
        Some(found) => Some(Found {
            spell: found.spell,
            units: found.units,
            mode: mode_behind(mode, found.spell, &rest[..found.units as usize]),
        }),
    }
}

impl Lexis for C {
    ghost language = { c };

    ghost translated = { λ units. Ok (spliced 0 units) };

    ghost completed = { λ text tokens. tokens };

    fn translate(alloc: Global, text: &Text) -> Result<Translated, Memory> {
        let units = plain_units(alloc, text)?;
        Ok(Translated::Units(unspliced(alloc, text, units)?))
    }

    ghost is_true_of = { λ language text. IsTrueOf language.unclosed text };

    fn new() -> Self {
        C {
            unclosed: nothing_known(),
        }
    }

    // So that a blank costs the loop over the elements no call.
    #[inline(always)]
    fn longest(&mut self, units: &[Unit], at: u32, mode: u64) -> Option<Found> {
        let first = units[at as usize].ch;
        if is_blank(first) {
            return Some(Found {
                spell: Spell::Blank,
                units: 1,
                mode: mode_behind_blank(mode, first),
            });
        }
        taken_at(&mut self.unclosed, units, at, mode)
    }

    fn complete(
        _alloc: Global,
        _text: &Text,
        tokens: Vec<Spelled>,
    ) -> Result<Vec<Spelled>, Memory> {
        Ok(tokens)
    }

    ghost none_lost = { λ text tokens. le_refl (length tokens) };

    ghost one_kind = { one_kind_of_c };
}
