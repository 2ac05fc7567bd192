ghost use Rattle.std.specs.Prelude.{false, ⊤, length};
ghost use Rattle.std.proofs.Math.Nat.{le_refl};
ghost use Rattle.cq_munch.specs.Tabled.{stays};
ghost use Rattle.cq_lex_java.specs.Java.{is_blank, java, rows_at};
ghost use Rattle.cq_lex_java.specs.OneKind.{one_kind_of_java};
ghost use Rattle.cq_lex_java.specs.Translation.{translated};

use crate::block::{closed_block, opens_block};
use crate::element::{element, is_end};
use crate::translation::unescaped;
use cq_base::{Memory, Spelled, Text};
use cq_munch::{
    Found, Lexis, LineEnds, Spell, Tabled, Translated, Unit, block_comment, element_at,
    line_comment, opens_comment, plain_units, sign_at,
};
use std::alloc::Global;

/// The language Java.
#[derive(Clone, Copy, Debug, PartialEq, Eq)]
pub struct Java;

impl Tabled for Java {
    ghost is_blank = { is_blank };

    ghost rows = { rows_at };

    ghost behind = { stays };

    #[inline(always)]
    fn is_blank(_mode: u64, ch: char) -> bool {
        ch == ' ' || ch == '\t' || ch == '\u{C}' || ch == '\r' || ch == '\n'
    }

    #[inline(always)]
    fn after_blank(mode: u64, _ch: char) -> u64 {
        mode
    }

    fn taken(units: &[Unit], mode: u64) -> Option<Found> {
        if opens_comment(units, '*') {
            return block_comment(units, mode);
        }
        if opens_comment(units, '/') {
            return line_comment(LineEnds::ReturnOrFeed, units, mode);
        }
        if opens_block(units) {
            return closed_block(units, mode);
        }
        if is_end(units) {
            return sign_at('\u{1A}', Spell::Blank, units, mode);
        }
        element(units, mode)
    }

    #[inline(always)]
    fn mode_behind(mode: u64, _spell: Spell, _units: &[Unit]) -> u64 {
        mode
    }
}

impl Lexis for Java {
    ghost language = { java };

    ghost translated = { translated 0 false };

    ghost completed = { λ text tokens. tokens };

    fn translate(alloc: Global, text: &Text) -> Result<Translated, Memory> {
        let units = plain_units(alloc, text)?;
        unescaped(alloc, text, units)
    }

    ghost is_true_of = { λ language text. ⊤ };

    fn new() -> Self {
        Java
    }

    // So that a blank costs the loop over the elements no call.
    #[inline(always)]
    fn longest(&mut self, units: &[Unit], at: u32, mode: u64) -> Option<Found> {
        element_at::<Java>(units, at, mode)
    }

    fn complete(
        _alloc: Global,
        _text: &Text,
        tokens: Vec<Spelled>,
    ) -> Result<Vec<Spelled>, Memory> {
        Ok(tokens)
    }

    ghost none_lost = { λ text tokens. le_refl (length tokens) };

    ghost one_kind = { one_kind_of_java };
}
