ghost use Rattle.std.specs.Prelude.{◌≡◌, ◌<◌, ◌++◌, [], length, IfOk};
ghost use Rattle.std.specs.List.{cons_option};
ghost use Rattle.std.specs.Option.{option_or};
ghost use Rattle.cq_munch.specs.Characters.{characters};
ghost use Rattle.cq_munch.specs.LastWord.{TheLastWordCounts};
ghost use Rattle.cq_munch.specs.Lexed as spec;
ghost use Rattle.cq_munch.specs.ListingMarks.{leads, said, said_at};
ghost use Rattle.cq_munch.specs.declared.element.Spell.TheVariants.{Comment};
ghost use Rattle.cq_munch.specs.Table.{begins};

use crate::unit::Unit;
use cq_base::{Mark, Memory};

// Whether the characters begin with this word of ASCII.
fn begins_with(units: &[Unit], word: &[u8]) -> bool
    ensures { result ≡ begins word.now (characters units.now) }
{
    for i in 0..word.len() {
        if i >= units.len() {
            return false;
        }
        if units[i].ch != char::from(word[i]) {
            return false;
        }
    }
    true
}

// Whether the characters at the front switch the listing on, if they are one of the two words.
fn said_at(units: &[Unit]) -> Option<bool>
    ensures { result ≡ said_at (characters units.now) }
{
    if begins_with(units, b"CPD-OFF") {
        return Some(false);
    }
    if begins_with(units, b"CPD-ON") {
        return Some(true);
    }
    None
}

// The same, or what was said before. Both words begin with a letter that most characters are not.
fn said_here(units: &[Unit], before: Option<bool>) -> Option<bool>
    requires { 0 < length units.now }
    ensures { result ≡ option_or (said_at (characters units.now)) before }
{
    if units[0].ch != 'C' {
        return before;
    }
    said_at(units).or(before)
}

// Whether the character is one of the first five of both words, which are the same.
fn leads(ch: char) -> bool
    ensures { result ≡ leads ch }
{
    ch == 'C' || ch == 'P' || ch == 'D' || ch == '-' || ch == 'O'
}

// What the last of the two words says, if there is one. If the fifth character from here is none of the words' first
// five, no word begins at any of the five: so mostly one character in five is looked at.
fn said(units: &[Unit]) -> Option<bool>
    ensures { result ≡ said (characters units.now) }
{
    let mut last = None;
    let mut at = 0;
    while at + 4 < units.len() {
        if !leads(units[at + 4].ch) {
            at += 5;
            continue;
        }
        last = said_here(&units[at..], last);
        at += 1;
    }
    last
}

/// Adds the mark that a comment is, if one of the two words is in it.
pub(crate) fn add_mark(marks: &mut Vec<Mark>, units: &[Unit]) -> Result<(), Memory>
    requires { 0 < length units.now }
    ensures { IfOk result (λ _. marks.new.items
        ≡ marks.old.items ++ cons_option (spec.mark_of Comment units.now) []) }
{
    if let Some(on) = said(units) {
        let at = units[0].start;
        marks.push(Mark { at, on })?;
    }
    Ok(())
}

/// Of the words in a comment the last one counts, wherever it is: the definition says just that.
pub fn the_last_word_counts()
    ensures { TheLastWordCounts }
{}
