ghost use Rattle.std.specs.Prelude.{◌≡◌, ◌<◌, ◌^◌, ◌==◌, ◌&&◌, [], ◌∷◌, length};
ghost use Rattle.cq_munch.specs.Characters.{characters};
ghost use Rattle.cq_munch.specs.Comments.{IsBlockComment, IsLineComment, blocks, lines};
ghost use Rattle.cq_munch.specs.Longest.{LongestAt};
ghost use Rattle.cq_munch.specs.Table.{begins};
ghost use Rattle.cq_munch.specs.Tabled.{RowsTake};

use crate::element::{Found, Spell};
use crate::ends::{LineEnds, ends_line};
use crate::rows::found_of;
use crate::unit::Unit;

/// Whether a slash and this character are at the front.
pub fn opens_comment(units: &[Unit], second: char) -> bool
    ensures { result ≡ begins (47 ∷ second ∷ []) (characters units.now) }
{
    match units {
        [slash, next, ..] => slash.ch == '/' && next.ch == second,
        _ => false,
    }
}

// Whether the character closes a comment after the one before it.
fn closes(before: char, ch: char) -> bool
    ensures { result ≡ ((ch == 47) && (before == 42)) }
{
    ch == '/' && before == '*'
}

// The comment in slashes and stars at the front, if it is closed. After a character that is not a star it looks at the
// next but one, since no slash between them closes the comment.
fn longest_block_comment(units: &[Unit]) -> Option<usize>
    ensures { LongestAt IsBlockComment (characters units.now) result }
{
    if !opens_comment(units, '*') {
        return None;
    }
    let mut before = 2;
    while before + 1 < units.len() {
        let ch = units[before + 1].ch;
        if closes(units[before].ch, ch) {
            return Some(before + 2);
        }
        if ch == '*' {
            before += 1;
            continue;
        }
        before += 2;
    }
    None
}

// The comment after two slashes at the front. What ends its line is not part of it.
fn longest_line_comment(ends: LineEnds, units: &[Unit]) -> Option<usize>
    ensures { LongestAt (IsLineComment ends) (characters units.now) result }
{
    if !opens_comment(units, '/') {
        return None;
    }
    for at in 2..units.len() {
        if ends_line(ends, units[at].ch) {
            return Some(at);
        }
    }
    Some(units.len())
}

/// The comment in slashes and stars at the front, if it is closed.
pub fn block_comment(units: &[Unit], mode: u64) -> Option<Found>
    requires { length units.now < 2 ^ 32 }
    ensures { RowsTake blocks mode (characters units.now) result }
{
    found_of(Spell::Comment, mode, longest_block_comment(units))
}

/// The comment after two slashes at the front. What ends its line is not part of it.
pub fn line_comment(ends: LineEnds, units: &[Unit], mode: u64) -> Option<Found>
    requires { length units.now < 2 ^ 32 }
    ensures { RowsTake (lines ends) mode (characters units.now) result }
{
    found_of(Spell::Comment, mode, longest_line_comment(ends, units))
}
