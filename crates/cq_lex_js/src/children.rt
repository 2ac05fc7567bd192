ghost use Rattle.std.specs.Prelude.{◌<◌, ◌^◌, length};
ghost use Rattle.cq_munch.specs.Characters.{characters};
ghost use Rattle.cq_munch.specs.Patterned.{rows_seen};
ghost use Rattle.cq_munch.specs.Tabled.{RowsTake};
ghost use Rattle.cq_lex_js.specs.Characters.{stood};
ghost use Rattle.cq_lex_js.specs.Jsx.{children};

use crate::words::Seen;
use cq_base::Class;
use cq_munch::{Automaton, Found, Spell, Unit, longest_seen};

/// The element of the language at the front, among the children of an element of JSX.
pub(crate) fn child(units: &[Unit], mode: u64) -> Option<Found>
    requires { length units.now < 2 ^ 32 }
    ensures { RowsTake (rows_seen stood children) mode (characters units.now) result }
{
    let by = Automaton {
        classes: &CLASSES,
        steps: &STEPS,
        ends: &ENDS,
    };
    longest_seen::<Seen>(
        by,
        &[
            Spell::Blank,
            Spell::Token(Class::Literal),
            Spell::Token(Class::Punct),
        ],
        mode,
        units,
    )
}

// What follows was written by bench/tables.
pub(crate) static CLASSES: [u8; 130] = [
    0, 0, 0, 0, 0, 0, 0, 0, 0, 1, 1, 1, 1, 1, 0, 0, 0, 0, 0, 0, 0, 0, 0, 0, 0, 0, 0, 0, 0, 0, 0, 0,
    1, 0, 0, 0, 2, 0, 0, 0, 0, 0, 0, 0, 0, 3, 4, 5, 3, 3, 3, 3, 3, 3, 3, 3, 3, 3, 4, 0, 6, 0, 7, 0,
    0, 2, 2, 2, 2, 2, 2, 2, 2, 2, 2, 2, 2, 2, 2, 2, 2, 2, 2, 2, 2, 2, 2, 2, 2, 2, 2, 0, 0, 0, 0, 2,
    0, 2, 2, 2, 2, 2, 2, 2, 2, 2, 2, 2, 2, 2, 2, 2, 2, 2, 2, 2, 2, 2, 2, 2, 2, 2, 2, 8, 0, 9, 0, 0,
    2, 3,
];

pub(crate) static STEPS: [[u8; 32]; 12] = [
    *b"25222230400000000000000000000000",
    *b"26222200000000000000000000000000",
    *b"08000700000000000000000000000000",
    *b"00000000000000000000000000000000",
    *b"00000000000000000000000000000000",
    *b"26222200000000000000000000000000",
    *b"07900004000000000000000000000000",
    *b"08000700000000000000000000000000",
    *b"0;99:004000000000000000000000000",
    *b"0:<00000000000000000000000000000",
    *b"0;00:004000000000000000000000000",
    *b"0;<<:004000000000000000000000000",
];

pub(crate) static ENDS: [u8; 12] = [0, 2, 3, 3, 1, 0, 0, 0, 0, 0, 0, 0];
