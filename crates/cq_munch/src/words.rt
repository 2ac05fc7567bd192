ghost use Rattle.std.specs.Prelude.{◌≡◌, ◌↔◌, slice_index_or, IsTrue};
ghost use Rattle.std.specs.List.{list_any};
ghost use Rattle.std.specs.Str.{bytes_eq};
ghost use Rattle.cq_munch.specs.Characters.{characters};
ghost use Rattle.cq_munch.specs.ByLetter.{row_of, IsListedByLetter};

use crate::unit::Unit;

/// Whether the units spell the word. Mostly their number decides, or the first of them.
pub fn is_spelled(word: &[u8], units: &[Unit]) -> bool
    ensures { result ≡ bytes_eq word.now (characters units.now) }
{
    if word.len() != units.len() {
        return false;
    }
    for i in 0..word.len() {
        if units[i].ch != char::from(word[i]) {
            return false;
        }
    }
    true
}

fn is_among(words: &[&[u8]], name: &[Unit]) -> bool
    ensures { result ≡ list_any (λ word. bytes_eq word.now (characters name.now)) words.now }
{
    for word in words {
        if is_spelled(word, name) {
            return true;
        }
    }
    false
}

// The row of the words that begin with a character: one for each small letter of ASCII, one for the underscore, and none
// for any other.
fn row_of(ch: char) -> usize
    ensures { result ≡ row_of ch }
{
    let code = ch as u32 as usize;
    if ch.is_ascii_lowercase() {
        return code - 97;
    }
    if ch == '_' { 26 } else { 27 }
}

// The row of the words that begin as the units do.
fn row_beside(name: &[Unit]) -> usize
    ensures { result ≡ row_of (slice_index_or (characters name.now) 0 0) }
{
    match name {
        [first, ..] => row_of(first.ch),
        [] => 27,
    }
}

/// Whether the units spell a word of a table, whose rows are those of the words that begin with a, b and so on, and last
/// with an underscore. It costs a look at the length of each word in the row, and mostly at one byte of those that fit.
pub fn is_listed_by_letter(by_letter: &[&[&[u8]]], name: &[Unit]) -> bool
    ensures { IsTrue result ↔ IsListedByLetter by_letter.now (characters name.now) }
{
    match by_letter.get(row_beside(name)) {
        Some(words) => is_among(words, name),
        None => false,
    }
}
