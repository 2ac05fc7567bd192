ghost use Rattle.std.specs.Prelude.{Ok, ⊤, length};
ghost use Rattle.std.proofs.Math.Nat.{le_refl};
ghost use Rattle.cq_lex_js.specs.JavaScript.{is_plain_blank, javascript, rows_at};
ghost use Rattle.cq_lex_js.specs.Modes.{mode_behind};
ghost use Rattle.cq_lex_js.specs.OneKind.{one_kind_of_javascript};

use crate::element::{is_plain_blank, taken};
use crate::mode::mode_behind;
use cq_base::{Memory, Spelled, Text};
use cq_munch::{Found, Lexis, Spell, Tabled, Translated, Unit, element_at, plain_units};
use std::alloc::Global;

/// The language JavaScript.
#[derive(Clone, Copy, Debug, PartialEq, Eq)]
pub struct JavaScript;

impl Tabled for JavaScript {
    ghost is_blank = { is_plain_blank };

    ghost rows = { rows_at };

    ghost behind = { mode_behind };

    #[inline(always)]
    fn is_blank(mode: u64, ch: char) -> bool {
        is_plain_blank(mode, ch)
    }

    #[inline(always)]
    fn after_blank(mode: u64, _ch: char) -> u64 {
        mode
    }

    fn taken(units: &[Unit], mode: u64) -> Option<Found> {
        taken(units, mode)
    }

    fn mode_behind(mode: u64, spell: Spell, units: &[Unit]) -> u64 {
        mode_behind(mode, spell, units)
    }
}

impl Lexis for JavaScript {
    ghost language = { javascript };

    ghost translated = { λ units. Ok units };

    ghost completed = { λ text tokens. tokens };

    fn translate(alloc: Global, text: &Text) -> Result<Translated, Memory> {
        Ok(Translated::Units(plain_units(alloc, text)?))
    }

    ghost is_true_of = { λ language text. ⊤ };

    fn new() -> Self {
        JavaScript
    }

    // So that a blank costs the loop over the elements no call.
    #[inline(always)]
    fn longest(&mut self, units: &[Unit], at: u32, mode: u64) -> Option<Found> {
        element_at::<JavaScript>(units, at, mode)
    }

    fn complete(
        _alloc: Global,
        _text: &Text,
        tokens: Vec<Spelled>,
    ) -> Result<Vec<Spelled>, Memory> {
        Ok(tokens)
    }

    ghost none_lost = { λ text tokens. le_refl (length tokens) };

    ghost one_kind = { one_kind_of_javascript };
}
