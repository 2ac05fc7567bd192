ghost use Rattle.std.specs.Prelude.{◌≡◌, ◌<◌, ◌^◌, ℕ, length};
ghost use Rattle.cq_munch.specs.Characters.{characters};
ghost use Rattle.cq_munch.specs.Language.{Takes};
ghost use Rattle.cq_lex_any.specs.Any.{plain, class_of};

use crate::run::Run;
use cq_base::Class;
use cq_munch::{Found, Spell, Unit, longest_spelling};

/// An element of one unit.
pub(crate) fn one(spell: Spell, mode: u64) -> Found
    ensures { result ≡ record { spell = spell; units = 1; mode = mode } }
{
    Found {
        spell,
        units: 1,
        mode,
    }
}

fn class_of(first: char) -> Class
    ensures { result ≡ class_of first }
{
    if first.is_ascii_digit() {
        Class::Literal
    } else {
        Class::Ident
    }
}

/// The element at the front, if there is no byte order mark.
pub(crate) fn element(rest: &[Unit], mode: u64) -> Found
    requires some { 0 < length rest.now }
    requires short { length rest.now < 2 ^ 32 }
    ensures taken { (at : ℕ) → Takes plain at mode (characters rest.now) (Some result) }
    ensures same { result.mode ≡ mode }
{
    let first = rest[0].ch;
    if first.is_whitespace() {
        return one(Spell::Blank, mode);
    }
    match longest_spelling(Run::Before, rest) {
        None => one(Spell::Token(Class::Punct), mode),
        Some(len) => Found {
            spell: Spell::Token(class_of(first)),
            units: len as u32,
            mode,
        },
    }
}
