ghost use Rattle.std.specs.Prelude.{◌<◌, ◌^◌, Ok, ⊤, length};
ghost use Rattle.cq_munch.specs.Characters.{characters};
ghost use Rattle.cq_munch.specs.Tabled.{RowsTake, stays};
ghost use Rattle.cq_lex_go.specs.Go.{go, is_blank, rows, rows_at};
ghost use Rattle.cq_lex_go.specs.OneKind.{one_kind_of_go};
ghost use Rattle.cq_lex_go.specs.NoneLost.{none_lost};
ghost use Rattle.cq_lex_go.specs.Semicolons.{completed};

use crate::scanner::{CLASSES, ENDS, NAMES, SPELLS, STEPS};
use crate::semicolon::with_semicolons;
use crate::words::{RESERVED, Seen};
use cq_base::{Memory, Spelled, Text};
use cq_munch::{
    Automaton, Found, Lexis, LineEnds, Spell, Tabled, Translated, Unit, block_comment, element_at,
    line_comment, named_found, opens_comment, plain_units,
};
use std::alloc::Global;

/// The language Go.
#[derive(Clone, Copy, Debug, PartialEq, Eq)]
pub struct Go;

// The element at the front, if no comment is opened.
fn element(units: &[Unit], mode: u64) -> Option<Found>
    requires { length units.now < 2 ^ 32 }
    ensures { RowsTake rows mode (characters units.now) result }
{
    let by = Automaton {
        classes: &CLASSES,
        steps: &STEPS,
        ends: &ENDS,
    };
    named_found::<Seen>(by, &NAMES, &SPELLS, &RESERVED, mode, units)
}

impl Tabled for Go {
    ghost is_blank = { is_blank };

    ghost rows = { rows_at };

    ghost behind = { stays };

    #[inline(always)]
    fn is_blank(_mode: u64, ch: char) -> bool {
        ch == ' ' || ch == '\t' || ch == '\r' || ch == '\n'
    }

    #[inline(always)]
    fn after_blank(mode: u64, _ch: char) -> u64 {
        mode
    }

    fn taken(units: &[Unit], mode: u64) -> Option<Found> {
        if opens_comment(units, '*') {
            return block_comment(units, mode);
        }
        if opens_comment(units, '/') {
            return line_comment(LineEnds::Feed, units, mode);
        }
        element(units, mode)
    }

    #[inline(always)]
    fn mode_behind(mode: u64, _spell: Spell, _units: &[Unit]) -> u64 {
        mode
    }
}

impl Lexis for Go {
    ghost language = { go };

    ghost translated = { λ units. Ok units };

    ghost completed = { completed };

    fn translate(alloc: Global, text: &Text) -> Result<Translated, Memory> {
        Ok(Translated::Units(plain_units(alloc, text)?))
    }

    ghost is_true_of = { λ language text. ⊤ };

    fn new() -> Self {
        Go
    }

    // So that a blank costs the loop over the elements no call.
    #[inline(always)]
    fn longest(&mut self, units: &[Unit], at: u32, mode: u64) -> Option<Found> {
        element_at::<Go>(units, at, mode)
    }

    fn complete(alloc: Global, text: &Text, tokens: Vec<Spelled>) -> Result<Vec<Spelled>, Memory> {
        with_semicolons(alloc, text, tokens)
    }

    ghost none_lost = { none_lost };

    ghost one_kind = { one_kind_of_go };
}
