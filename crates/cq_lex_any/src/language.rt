ghost use Rattle.std.specs.Prelude.{Ok, ⊤, length};
ghost use Rattle.std.proofs.Math.Nat.{le_refl};
ghost use Rattle.cq_lex_any.specs.Any.{any};
ghost use Rattle.cq_lex_any.specs.OneKind.{one_kind_of_any};

use crate::taking::{element, one};
use cq_base::{Memory, Spelled, Text};
use cq_munch::{Found, Lexis, Spell, Translated, Unit, is_mark, plain_units};
use std::alloc::Global;

/// The language `any`.
#[derive(Clone, Copy, Debug, PartialEq, Eq)]
pub struct Any;

impl Lexis for Any {
    ghost language = { any };

    ghost translated = { λ units. Ok units };

    ghost completed = { λ text tokens. tokens };

    fn translate(alloc: Global, text: &Text) -> Result<Translated, Memory> {
        Ok(Translated::Units(plain_units(alloc, text)?))
    }

    ghost is_true_of = { λ language text. ⊤ };

    fn new() -> Self {
        Any
    }

    fn longest(&mut self, units: &[Unit], at: u32, mode: u64) -> Option<Found> {
        if is_mark(units, at) {
            Some(one(Spell::Blank, mode))
        } else {
            Some(element(&units[at as usize..], mode))
        }
    }

    fn complete(
        _alloc: Global,
        _text: &Text,
        tokens: Vec<Spelled>,
    ) -> Result<Vec<Spelled>, Memory> {
        Ok(tokens)
    }

    ghost none_lost = { λ text tokens. le_refl (length tokens) };

    ghost one_kind = { one_kind_of_any };
}
