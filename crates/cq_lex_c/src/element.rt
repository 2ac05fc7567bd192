ghost use Rattle.std.specs.Prelude.{◌≡◌, ◌<◌, ◌^◌, length, IsFalse, IfSome, IfNone};
ghost use Rattle.cq_munch.specs.Characters.{characters};
ghost use Rattle.cq_munch.specs.Longest.{LongestAt};
ghost use Rattle.cq_munch.specs.Tabled.{RowsTake};
ghost use Rattle.cq_lex_c.specs.C.{is_blank, is_unquoted, opens_header, rows, rows_at, unquoted};
ghost use Rattle.cq_lex_c.specs.Headers.{IsHeaderAt};
ghost use Rattle.cq_lex_c.specs.Texts.{IsText, IsPrefixed};

use crate::characters::Seen;
use crate::header::longest_header;
use crate::identifier::RESERVED;
use crate::scanner::{CLASSES, ENDS, NAMES, SPELLS, STEPS};
use cq_base::Class;
use cq_munch::{
    Automaton, Found, LineEnds, Spell, Unit, better, block_comment, found_of, line_comment,
    named_found, opens_comment,
};

/// Whether the character is a blank.
pub(crate) fn is_blank(ch: char) -> bool
    ensures { result ≡ is_blank 0 ch }
{
    ch == ' ' || ch == '\t' || ch == '\u{B}' || ch == '\u{C}' || ch == '\r' || ch == '\n'
}

/// Whether the character begins no text in quotes, no prefix of one, no comment and no header name.
pub(crate) fn is_unquoted(ch: char) -> bool
    ensures { result ≡ is_unquoted ch }
{
    !(ch == '"' || ch == '\'' || ch == '/' || ch == '<' || ch == 'L' || ch == 'U' || ch == 'u')
}

/// The element at the front, if it has no quotes.
pub(crate) fn without_quotes(units: &[Unit], mode: u64) -> Option<Found>
    requires { length units.now < 2 ^ 32 }
    ensures { RowsTake unquoted mode (characters units.now) result }
{
    let by = Automaton {
        classes: &CLASSES,
        steps: &STEPS,
        ends: &ENDS,
    };
    named_found::<Seen>(by, &NAMES, &SPELLS, &RESERVED, mode, units)
}

// The element at the front, if nothing is opened. The texts there, with a prefix and without, are given.
fn element(units: &[Unit], mode: u64, text: Option<usize>, prefixed: Option<usize>) -> Option<Found>
    requires short { length units.now < 2 ^ 32 }
    requires text { LongestAt IsText (characters units.now) text }
    requires prefixed { LongestAt IsPrefixed (characters units.now) prefixed }
    ensures { RowsTake rows mode (characters units.now) result }
{
    let literal = Spell::Token(Class::Literal);
    let own = found_of(literal, mode, text);
    let other = found_of(literal, mode, prefixed);
    let unquoted = without_quotes(units, mode);
    let rest = better(other, unquoted);
    better(own, rest)
}

// The header name at the front, when one is looked for.
fn header_at(units: &[Unit], mode: u64) -> Option<usize>
    ensures some { IfSome result (IsHeaderAt mode (characters units.now)) }
    ensures none { IfNone result (IsFalse (opens_header mode (characters units.now))) }
{
    if mode == 2 {
        longest_header(units)
    } else {
        None
    }
}

/// The element at the front. In mode 2 a header name comes before anything else. The
/// texts there, with a prefix and without, are given.
pub(crate) fn taken(
    units: &[Unit],
    mode: u64,
    text: Option<usize>,
    prefixed: Option<usize>,
) -> Option<Found>
    requires short { length units.now < 2 ^ 32 }
    requires text { LongestAt IsText (characters units.now) text }
    requires prefixed { LongestAt IsPrefixed (characters units.now) prefixed }
    ensures { RowsTake (rows_at mode (characters units.now)) mode (characters units.now) result }
{
    if let Some(n) = header_at(units, mode) {
        return found_of(Spell::Token(Class::Word), mode, Some(n));
    }
    if opens_comment(units, '*') {
        return block_comment(units, mode);
    }
    if opens_comment(units, '/') {
        return line_comment(LineEnds::Feed, units, mode);
    }
    element(units, mode, text, prefixed)
}
