ghost use Rattle.std.specs.Prelude.{◌≡◌, ◌<◌, ◌^◌, ◌&&◌, ◌||◌, ◌==◌, length};
ghost use Rattle.cq_munch.specs.Characters.{characters};
ghost use Rattle.cq_munch.specs.Tabled.{RowsTake};
ghost use Rattle.cq_lex_js.specs.JavaScript.{is_blank, is_plain_blank, opens_deeper, properties, rows, rows_at};
ghost use Rattle.cq_lex_js.specs.Modes.{expects_operand};
ghost use Rattle.cq_lex_js.specs.Punctuators.{is_choice};

use crate::children::child;
use crate::literal::{closed_literal, opens_literal};
use crate::mode::{
    expects_operand, is_after_point, is_among_children, is_full, is_in_element, is_in_tag,
};
use crate::scanner::{CLASSES, ENDS, NAMES, SPELLS, STEPS};
use crate::tag::part_of_tag;
use crate::words::{RESERVED, Seen};
use cq_base::Class;
use cq_munch::{
    Automaton, Found, LineEnds, Spell, Unit, block_comment, line_comment, named_found,
    opens_comment, sign_at,
};

// Whether the character is a blank of ASCII.
fn is_blank(ch: char) -> bool
    ensures { result ≡ is_blank ch }
{
    ch == ' ' || ch == '\n' || ch == '\t' || ch == '\r' || ch == '\u{B}' || ch == '\u{C}'
}

/// Whether the character is a blank of ASCII, and neither a child nor a tag of JSX is read.
pub(crate) fn is_plain_blank(mode: u64, ch: char) -> bool
    ensures { result ≡ is_plain_blank mode ch }
{
    is_blank(ch) && !is_in_element(mode)
}

// Whether a question mark, a point and a digit are at the front.
fn is_choice(units: &[Unit]) -> bool
    ensures { result ≡ is_choice (characters units.now) }
{
    match units {
        [mark, point, digit, ..] => mark.ch == '?' && point.ch == '.' && digit.ch.is_ascii_digit(),
        _ => false,
    }
}

fn is_opening(ch: char, mode: u64) -> bool
    ensures { result ≡ ((ch == 123) || ((ch == 96) || ((ch == 60) && expects_operand mode))) }
{
    ch == '{' || ch == '`' || ch == '<' && expects_operand(mode)
}

// Whether what would open something is at the front, and nothing more may be open.
fn opens_deeper(units: &[Unit], mode: u64) -> bool
    ensures { result ≡ opens_deeper mode (characters units.now) }
{
    match units {
        [first, ..] => is_full(mode) && is_opening(first.ch, mode),
        [] => false,
    }
}

// The element at the front after a point, if nothing is opened.
#[inline(always)]
fn property(units: &[Unit], mode: u64) -> Option<Found>
    requires { length units.now < 2 ^ 32 }
    ensures { RowsTake properties mode (characters units.now) result }
{
    let by = Automaton {
        classes: &CLASSES,
        steps: &STEPS,
        ends: &ENDS,
    };
    named_found::<Seen>(by, &NAMES, &SPELLS, &[], mode, units)
}

// The element at the front anywhere else, if nothing is opened.
#[inline(always)]
fn element(units: &[Unit], mode: u64) -> Option<Found>
    requires { length units.now < 2 ^ 32 }
    ensures { RowsTake rows mode (characters units.now) result }
{
    let by = Automaton {
        classes: &CLASSES,
        steps: &STEPS,
        ends: &ENDS,
    };
    named_found::<Seen>(by, &NAMES, &SPELLS, &RESERVED, mode, units)
}

/// The element at the front, with the mode before it.
pub(crate) fn taken(units: &[Unit], mode: u64) -> Option<Found>
    requires { length units.now < 2 ^ 32 }
    ensures { RowsTake (rows_at mode (characters units.now)) mode (characters units.now) result }
{
    if opens_deeper(units, mode) {
        return None;
    }
    if is_among_children(mode) {
        return child(units, mode);
    }
    if opens_comment(units, '*') {
        return block_comment(units, mode);
    }
    if opens_comment(units, '/') {
        return line_comment(LineEnds::Separator, units, mode);
    }
    if is_in_tag(mode) {
        return part_of_tag(units, mode);
    }
    if opens_literal(units, mode) {
        return closed_literal(units, mode);
    }
    if is_choice(units) {
        return sign_at('?', Spell::Token(Class::Punct), units, mode);
    }
    if is_after_point(mode) {
        return property(units, mode);
    }
    element(units, mode)
}
