ghost use Rattle.std.specs.Prelude.{◌≡◌, Ok, ⊤, length};
ghost use Rattle.std.proofs.Math.Nat.{le_refl};
ghost use Rattle.cq_munch.specs.Characters.{characters};
ghost use Rattle.cq_lex_js.specs.JavaScript.{is_plain_blank};
ghost use Rattle.cq_lex_js.specs.OneKind.{one_kind_of_typescript};
ghost use Rattle.cq_lex_js.specs.TypeScript as spec;

use crate::element::{is_plain_blank, taken};
use crate::mode::{after_punctuator, after_token, expects_operand, with_token};
use cq_base::{Class, Memory, Spelled, Text};
use cq_munch::{
    Found, Lexis, Spell, Tabled, Translated, Unit, element_at, is_spelled, plain_units, sign_at,
};
use std::alloc::Global;

/// The language TypeScript.
#[derive(Clone, Copy, Debug, PartialEq, Eq)]
pub struct TypeScript;

// Whether the greater-than sign at the front is by itself, though another follows.
fn is_closing(units: &[Unit]) -> bool
    ensures { result ≡ spec.is_closing (characters units.now) }
{
    match units {
        [a, b, c, d, ..] => {
            a.ch == '>' && b.ch == '>' && !(c.ch == '=' || c.ch == '>' && d.ch == '=')
        }
        [a, b, c] => a.ch == '>' && b.ch == '>' && c.ch != '=',
        [a, b] => a.ch == '>' && b.ch == '>',
        _ => false,
    }
}

fn after_sign(mode: u64, units: &[Unit]) -> u64
    ensures { result ≡ spec.after_sign mode (characters units.now) }
{
    if is_spelled(b"<", units) {
        return with_token(mode, 0);
    }
    if is_spelled(b"!", units) && !expects_operand(mode) {
        return with_token(mode, 1);
    }
    after_punctuator(mode, units)
}

fn after_typed(mode: u64, class: Class, units: &[Unit]) -> u64
    ensures { result ≡ spec.after_typed mode class (characters units.now) }
{
    match class {
        Class::Punct => after_sign(mode, units),
        Class::Ident | Class::Word | Class::Literal => after_token(mode, class, units),
    }
}

impl Tabled for TypeScript {
    ghost is_blank = { is_plain_blank };

    ghost rows = { spec.typed_at };

    ghost behind = { spec.typed_behind };

    #[inline(always)]
    fn is_blank(mode: u64, ch: char) -> bool {
        is_plain_blank(mode, ch)
    }

    #[inline(always)]
    fn after_blank(mode: u64, _ch: char) -> u64 {
        mode
    }

    fn taken(units: &[Unit], mode: u64) -> Option<Found> {
        if is_closing(units) {
            return sign_at('>', Spell::Token(Class::Punct), units, mode);
        }
        taken(units, mode)
    }

    fn mode_behind(mode: u64, spell: Spell, units: &[Unit]) -> u64 {
        match spell {
            Spell::Blank | Spell::Comment => mode,
            Spell::Token(class) => after_typed(mode, class, units),
        }
    }
}

impl Lexis for TypeScript {
    ghost language = { spec.typescript };

    ghost translated = { λ units. Ok units };

    ghost completed = { λ text tokens. tokens };

    fn translate(alloc: Global, text: &Text) -> Result<Translated, Memory> {
        Ok(Translated::Units(plain_units(alloc, text)?))
    }

    ghost is_true_of = { λ language text. ⊤ };

    fn new() -> Self {
        TypeScript
    }

    // So that a blank costs the loop over the elements no call.
    #[inline(always)]
    fn longest(&mut self, units: &[Unit], at: u32, mode: u64) -> Option<Found> {
        element_at::<TypeScript>(units, at, mode)
    }

    fn complete(
        _alloc: Global,
        _text: &Text,
        tokens: Vec<Spelled>,
    ) -> Result<Vec<Spelled>, Memory> {
        Ok(tokens)
    }

    ghost none_lost = { λ text tokens. le_refl (length tokens) };

    ghost one_kind = { one_kind_of_typescript };
}
