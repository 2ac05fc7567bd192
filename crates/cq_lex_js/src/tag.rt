ghost use Rattle.std.specs.Prelude.{◌<◌, ◌^◌, length};
ghost use Rattle.cq_munch.specs.Characters.{characters};
ghost use Rattle.cq_munch.specs.Patterned.{rows_seen};
ghost use Rattle.cq_munch.specs.Tabled.{RowsTake};
ghost use Rattle.cq_lex_js.specs.Characters.{stood};
ghost use Rattle.cq_lex_js.specs.Jsx.{tag};

use crate::words::Seen;
use cq_base::Class;
use cq_munch::{Automaton, Found, Spell, Unit, longest_seen};

/// The element of the language at the front, in a tag of JSX.
pub(crate) fn part_of_tag(units: &[Unit], mode: u64) -> Option<Found>
    requires { length units.now < 2 ^ 32 }
    ensures { RowsTake (rows_seen stood tag) mode (characters units.now) result }
{
    let by = Automaton {
        classes: &CLASSES,
        steps: &STEPS,
        ends: &ENDS,
    };
    longest_seen::<Seen>(
        by,
        &[
            Spell::Blank,
            Spell::Token(Class::Ident),
            Spell::Token(Class::Literal),
            Spell::Token(Class::Punct),
        ],
        mode,
        units,
    )
}

// What follows was written by bench/tables.
pub(crate) static CLASSES: [u8; 130] = [
    0, 0, 0, 0, 0, 0, 0, 0, 0, 1, 1, 1, 1, 1, 0, 0, 0, 0, 0, 0, 0, 0, 0, 0, 0, 0, 0, 0, 0, 0, 0, 0,
    1, 0, 2, 0, 3, 0, 0, 4, 0, 0, 0, 0, 0, 5, 6, 6, 5, 5, 5, 5, 5, 5, 5, 5, 5, 5, 6, 0, 6, 6, 6, 0,
    0, 3, 3, 3, 3, 3, 3, 3, 3, 3, 3, 3, 3, 3, 3, 3, 3, 3, 3, 3, 3, 3, 3, 3, 3, 3, 3, 0, 0, 0, 0, 3,
    0, 3, 3, 3, 3, 3, 3, 3, 3, 3, 3, 3, 3, 3, 3, 3, 3, 3, 3, 3, 3, 3, 3, 3, 3, 3, 3, 6, 0, 0, 0, 0,
    3, 5,
];

pub(crate) static STEPS: [[u8; 32]; 7] = [
    *b"06324050000000000000000000000000",
    *b"00020200000000000000000000000000",
    *b"33733330000000000000000000000000",
    *b"44447440000000000000000000000000",
    *b"00000000000000000000000000000000",
    *b"00000000000000000000000000000000",
    *b"00000000000000000000000000000000",
];

pub(crate) static ENDS: [u8; 7] = [0, 2, 0, 0, 4, 1, 3];
