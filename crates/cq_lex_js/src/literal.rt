ghost use Rattle.std.specs.Prelude.{◌≡◌, ◌<◌, ◌^◌, ◌&&◌, ◌||◌, ◌==◌, length};
ghost use Rattle.std.specs.Char.{is_ascii_digit};
ghost use Rattle.cq_munch.specs.Characters.{characters};
ghost use Rattle.cq_munch.specs.Patterned.{rows_seen};
ghost use Rattle.cq_munch.specs.Tabled.{RowsTake};
ghost use Rattle.cq_lex_js.specs.Characters.{lined};
ghost use Rattle.cq_lex_js.specs.JavaScript.{is_quote, opens_literal};
ghost use Rattle.cq_lex_js.specs.Literals.{literals};
ghost use Rattle.cq_lex_js.specs.Modes.{ends_substitution, expects_operand};

use crate::mode::{ends_substitution, expects_operand};
use crate::words::Lined;
use cq_base::Class;
use cq_munch::{Automaton, Found, Spell, Unit, longest_seen};

fn is_quote(ch: char) -> bool
    ensures { result ≡ is_quote ch }
{
    ch == '"' || ch == '\'' || ch == '`'
}

fn begins_literal(ch: char, mode: u64) -> bool
    ensures { result
        ≡ (is_ascii_digit ch || (is_quote ch || (((ch == 47) && expects_operand mode) || ((ch == 125) && ends_substitution mode)))) }
{
    ch.is_ascii_digit()
        || is_quote(ch)
        || ch == '/' && expects_operand(mode)
        || ch == '}' && ends_substitution(mode)
}

/// Whether a literal is opened at the front.
pub(crate) fn opens_literal(units: &[Unit], mode: u64) -> bool
    ensures { result ≡ opens_literal mode (characters units.now) }
{
    match units {
        [first, next, ..] => begins_literal(first.ch, mode)
            || first.ch == '.' && next.ch.is_ascii_digit(),
        [first] => begins_literal(first.ch, mode),
        [] => false,
    }
}

/// The literal at the front, if it is closed.
#[inline(always)]
pub(crate) fn closed_literal(units: &[Unit], mode: u64) -> Option<Found>
    requires { length units.now < 2 ^ 32 }
    ensures { RowsTake (rows_seen lined literals) mode (characters units.now) result }
{
    let by = Automaton {
        classes: &CLASSES,
        steps: &STEPS,
        ends: &ENDS,
    };
    longest_seen::<Lined>(by, &[Spell::Token(Class::Literal)], mode, units)
}

// What follows was written by bench/tables.
static CLASSES: [u8; 130] = [
    0, 0, 0, 0, 0, 0, 0, 0, 0, 0, 1, 0, 0, 2, 0, 0, 0, 0, 0, 0, 0, 0, 0, 0, 0, 0, 0, 0, 0, 0, 0, 0,
    0, 0, 3, 0, 4, 0, 0, 5, 0, 0, 0, 6, 0, 6, 7, 8, 9, 10, 11, 11, 11, 11, 11, 11, 12, 12, 0, 0, 0,
    0, 0, 0, 0, 13, 14, 13, 13, 15, 13, 16, 16, 16, 16, 16, 16, 16, 16, 17, 16, 16, 16, 16, 16, 16,
    16, 16, 18, 16, 16, 19, 20, 21, 0, 22, 23, 13, 14, 13, 13, 15, 13, 16, 16, 16, 16, 16, 16, 16,
    24, 17, 16, 16, 16, 16, 16, 16, 16, 16, 18, 16, 16, 25, 0, 26, 0, 0, 27, 0,
];

static STEPS: [[u8; 32]; 38] = [
    *b"00040506723330000000000800800000",
    *b"0000000@0999:0;<0>?00000=0000000",
    *b"0000000@0AAAA00<000000B0=0000000",
    *b"400=4444444444444444C44444440000",
    *b"50055=55555555555555D55555550000",
    *b"000000000EEEE0000000000000000000",
    *b"F00FFFFF0FFFFFFFFFFGHFFFFFF00000",
    *b"8888I888888888888888J88=88880000",
    *b"000000000999:0000000000000000000",
    *b"0000000@0::::00<0000000000000000",
    *b"000000000KK000000000000000000000",
    *b"000000M00LLLL0000000000000000000",
    *b"00000000000000000000000000000000",
    *b"000000000NNN00000000000000000000",
    *b"000000000OOOOOOO0000000000000000",
    *b"000000000EEEE00<0000000000000000",
    *b"0000000@0AAAA00<000000B0=0000000",
    *b"000000000AAAA0000000000000000000",
    *b"44P44444444444444444444444440000",
    *b"55Q55555555555555555555555550000",
    *b"000000000EEEE00<0000006000000000",
    *b"F00FFFFFRFFFFFFFFFFSTFFFFFF00000",
    *b"G00GGGGGGGGGGGGGGGGGUFGGGGG00000",
    *b"F00FFFFFFFFFFFFFFFFFFFFFFFF00000",
    *b"8888I888888888888888J88=8=880000",
    *b"88888888888888888888888888880000",
    *b"000000000KK00000000000;0=0000000",
    *b"000000000LLLL000000000M000000000",
    *b"000000000LLLL0000000000000000000",
    *b"000000000NNN0000000000>0=0000000",
    *b"000000000OOOOOOO000000?0=0000000",
    *b"440=4444444444444444C44444440000",
    *b"55055=55555555555555D55555550000",
    *b"0000R0000RRRRRRRRRR000R0R0000000",
    *b"S00SSSSSSSSSSSSSSSSSVFSSSSS00000",
    *b"F00FFFFFFFFFFFFFFFFFFFFFFFF00000",
    *b"G00GGGGGGGGGGGGGGGGGGGGGGGG00000",
    *b"S00SSSSSSSSSSSSSSSSSSSSSSSS00000",
];

static ENDS: [u8; 38] = [
    0, 1, 1, 0, 0, 0, 0, 0, 1, 1, 0, 0, 1, 0, 0, 1, 1, 0, 0, 0, 1, 0, 0, 0, 0, 0, 1, 1, 0, 1, 1, 0,
    0, 1, 0, 0, 0, 0,
];
