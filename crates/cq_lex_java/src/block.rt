ghost use Rattle.std.specs.Prelude.{◌≡◌, ◌<◌, ◌^◌, length};
ghost use Rattle.cq_munch.specs.Characters.{characters};
ghost use Rattle.cq_munch.specs.Patterned.{rows_of};
ghost use Rattle.cq_munch.specs.Tabled.{RowsTake};
ghost use Rattle.cq_lex_java.specs.Blocks.{is_line_end, is_space, opens, opening, text_blocks};
ghost use Rattle.cq_lex_java.specs.TextBlocks.{TextBlocksAreWritten};

use cq_base::Class;
use cq_munch::{Automaton, Found, Itself, Spell, Unit, longest_found};

fn is_line_end(ch: char) -> bool
    ensures { result ≡ is_line_end ch }
{
    ch == '\r' || ch == '\n'
}

fn is_space(ch: char) -> bool
    ensures { result ≡ is_space ch }
{
    ch == ' ' || ch == '\t' || ch == '\u{C}'
}

// Whether there are blanks and a line's end at the front.
fn ends_opening(units: &[Unit]) -> bool
    ensures { result ≡ opening (characters units.now) }
{
    for unit in units {
        if is_line_end(unit.ch) {
            return true;
        }
        if !is_space(unit.ch) {
            return false;
        }
    }
    false
}

/// Whether a text block is opened at the front.
pub(crate) fn opens_block(units: &[Unit]) -> bool
    ensures { result ≡ opens (characters units.now) }
{
    match units {
        [first, second, third, rest @ ..] => first.ch == '"'
            && second.ch == '"'
            && third.ch == '"'
            && ends_opening(rest),
        _ => false,
    }
}

/// The text block at the front, if it is closed.
pub(crate) fn closed_block(units: &[Unit], mode: u64) -> Option<Found>
    requires { length units.now < 2 ^ 32 }
    ensures { RowsTake (rows_of text_blocks) mode (characters units.now) result }
{
    let by = Automaton {
        classes: &CLASSES,
        steps: &STEPS,
        ends: &ENDS,
    };
    longest_found::<Itself>(by, &[Spell::Token(Class::Literal)], mode, units)
}

/// A text block is exactly three quotes, blanks, a line end, a content with no three quotes except after a backslash, and
/// three quotes.
pub fn text_blocks_are_written()
    ensures { TextBlocksAreWritten }
{}

// What follows was written by bench/tables.
pub(crate) static CLASSES: [u8; 128] = [
    0, 0, 0, 0, 0, 0, 0, 0, 0, 1, 2, 0, 1, 2, 0, 0, 0, 0, 0, 0, 0, 0, 0, 0, 0, 0, 0, 0, 0, 0, 0, 0,
    1, 0, 3, 0, 0, 0, 0, 0, 0, 0, 0, 0, 0, 0, 0, 0, 0, 0, 0, 0, 0, 0, 0, 0, 0, 0, 0, 0, 0, 0, 0, 0,
    0, 0, 0, 0, 0, 0, 0, 0, 0, 0, 0, 0, 0, 0, 0, 0, 0, 0, 0, 0, 0, 0, 0, 0, 0, 0, 0, 0, 4, 0, 0, 0,
    0, 0, 0, 0, 0, 0, 0, 0, 0, 0, 0, 0, 0, 0, 0, 0, 0, 0, 0, 0, 0, 0, 0, 0, 0, 0, 0, 0, 0, 0, 0, 0,
];

pub(crate) static STEPS: [[u8; 32]; 9] = [
    *b"00020000000000000000000000000000",
    *b"00030000000000000000000000000000",
    *b"00040000000000000000000000000000",
    *b"04500000000000000000000000000000",
    *b"55567000000000000000000000000000",
    *b"55587000000000000000000000000000",
    *b"55555000000000000000000000000000",
    *b"55597000000000000000000000000000",
    *b"00000000000000000000000000000000",
];

pub(crate) static ENDS: [u8; 9] = [0, 0, 0, 0, 0, 0, 0, 0, 1];
