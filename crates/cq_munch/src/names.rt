ghost use Rattle.std.specs.Prelude.{◌≡◌, ◌≤◌, ◌<◌, ◌^◌, ℕ, Some, true, IfSome, IsTrue, IsFalse, List, ◌∷◌, length, take};
ghost use Rattle.cq_munch.specs.Automata.{Tables, RowAt, tables_of};
ghost use Rattle.cq_munch.specs.ByLetter.{IsListedByLetter};
ghost use Rattle.cq_munch.specs.Characters.{characters, seen_by};
ghost use Rattle.cq_munch.specs.PlainNames.{IsItselfBelow, begins_at, kind_at, plain_fits};
ghost use Rattle.cq_munch.specs.Pattern.{Pattern};
ghost use Rattle.cq_munch.specs.Patterned.{Patterned, rows_of, with_reserved};
ghost use Rattle.cq_munch.specs.Scanners.{IsScanner, AreListed, is_name};
ghost use Rattle.cq_munch.specs.Table.{starts};
ghost use Rattle.cq_munch.specs.Tabled.{RowsTake};
ghost use Rattle.cq_munch.specs.declared.element.Spell.TheVariants.{Token};
ghost use Rattle.cq_base.specs.declared.token.Class.TheVariants.{Ident};

use crate::automaton::{Automaton, StandIn, longest_found};
use crate::element::{Found, Spell};
use crate::rows::found_of;
use crate::unit::Unit;
use crate::words::is_listed_by_letter;
use cq_base::Class;

// What the character is to a name: `3` begins one, `2` continues one, `0` ends one; the table has to decide at `1`.
fn kind_of(kinds: &[u8; 128], ch: char) -> u8
    ensures { result ≡ kind_at kinds.now ch }
{
    if ch.is_ascii() {
        kinds[ch as usize]
    } else {
        b'1'
    }
}

// Whether a name begins with the first character.
fn begins_name(kinds: &[u8; 128], units: &[Unit]) -> bool
    ensures { result ≡ starts (begins_at kinds.now) (characters units.now) }
{
    match units {
        [first, ..] => kind_of(kinds, first.ch) == b'3',
        [] => false,
    }
}

// The name at the front, if all its characters are ASCII and the next one surely ends it: what a table finds that fits
// the kinds, with fewer looks at each character.
fn plain_name(kinds: &[u8; 128], units: &[Unit]) -> Option<usize>
    ensures within { IfSome result (λ len. len ≤ length units.now) }
    ensures row { (t : Tables) (state row : ℕ) (stood : ℕ → ℕ) → plain_fits kinds.now t state row ≡ true → IsItselfBelow 128 stood
        → IfSome result (λ len. RowAt t (seen_by stood units.now) (Some (len, row))) }
{
    if !begins_name(kinds, units) {
        return None;
    }
    for at in 1..units.len() {
        let kind = kind_of(kinds, units[at].ch);
        if kind < b'2' {
            if kind == b'0' {
                return Some(at);
            }
            return None;
        }
    }
    Some(units.len())
}

// The element at the front, before reserved words are separated from other names.
fn row_found<S: StandIn>(
    by: Automaton<'_>,
    kinds: &[u8; 128],
    spells: &[Spell],
    mode: u64,
    units: &[Unit],
) -> Option<Found>
    requires { length units.now < 2 ^ 32 }
    ensures within { IfSome result (λ found. found.units ≤ length units.now) }
    ensures found { (name : Pattern) (words : List (List ℕ)) (others : Patterned) → IsScanner S.stood name words others kinds.now spells.now (tables_of by.entry)
        → RowsTake (rows_of ((Token Ident, name) ∷ others)) mode (seen_by S.stood units.now) result }
{
    match plain_name(kinds, units) {
        Some(len) => found_of(Spell::Token(Class::Ident), mode, Some(len)),
        None => longest_found::<S>(by, spells, mode, units),
    }
}

fn is_name(spell: Spell) -> bool
    ensures { result ≡ is_name spell }
{
    matches!(spell, Spell::Token(Class::Ident))
}

// Whether the element is a reserved word.
fn is_reserved(reserved: &[&[&[u8]]], found: Found, units: &[Unit]) -> bool
    requires { found.units ≤ length units.now }
    ensures name { IsTrue result → IsTrue (is_name found.spell) }
    ensures word { IsTrue result → IsListedByLetter reserved.now (characters (take found.units units.now)) }
    ensures free { IsFalse result → IsTrue (is_name found.spell) → IsListedByLetter reserved.now (characters (take found.units units.now)) → ⊥ }
{
    if !is_name(found.spell) {
        return false;
    }
    is_listed_by_letter(reserved, &units[..found.units as usize])
}

/// The element at the front of a language's rows: names, of which those in `reserved` are words, and the others that a
/// table finds; `spells` has what each row of the table is, names first, and `kinds` what each character of ASCII is to a
/// name.
pub fn named_found<S: StandIn>(
    by: Automaton<'_>,
    kinds: &[u8; 128],
    spells: &[Spell],
    reserved: &[&[&[u8]]],
    mode: u64,
    units: &[Unit],
) -> Option<Found>
    requires { length units.now < 2 ^ 32 }
    ensures { (name : Pattern) (words : List (List ℕ)) (others : Patterned) → IsScanner S.stood name words others kinds.now spells.now (tables_of by.entry)
        → AreListed reserved.now words → RowsTake (with_reserved S.stood name words others) mode (characters units.now) result }
{
    match row_found::<S>(by, kinds, spells, mode, units) {
        Some(found) => if is_reserved(reserved, found, units) {
            Some(Found {
                spell: Spell::Token(Class::Word),
                units: found.units,
                mode: found.mode,
            })
        } else {
            Some(found)
        },
        None => None,
    }
}
