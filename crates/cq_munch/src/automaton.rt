ghost use Rattle.std.specs.Prelude.{◌≡◌, ℕ, suc, ◌-◌, ◌<◌, ◌≤◌, ◌^◌, IfErr, IfNone, IfOk, IfSome, IsFalse, IsTrue, List, [], None, Some, length, slice_index_or};
ghost use Rattle.cq_munch.specs.Automata.{class_at, RowAt, tables_of};
ghost use Rattle.cq_munch.specs.Characters.{characters, seen_by};
ghost use Rattle.cq_munch.specs.Longest.{LongestAt};
ghost use Rattle.cq_munch.specs.Once.{FitsOnce, NoneBegins};
ghost use Rattle.cq_munch.specs.Pattern.{Pattern, Spells};
ghost use Rattle.cq_munch.specs.Patterned.{FitsRows, Patterned, rows_of, rows_seen};
ghost use Rattle.cq_munch.specs.Tabled.{RowsTake};

use crate::element::{Found, Spell};
use crate::rows::found_of;
use crate::unit::Unit;

/// How a language's tables see the characters past ASCII: 128 may stand for each that begins a name, 129 for each that
/// only continues one, and 130 for all others.
pub trait StandIn {
    /// The character that stands for one.
    ghost stood: { ℕ → ℕ };

    /// The character that stands for one.
    fn stand_in(ch: char) -> u32
        ensures { result ≡ stood ch };
}

/// Each character stands for itself.
#[derive(Clone, Copy, Debug, PartialEq, Eq)]
pub struct Itself;

impl StandIn for Itself {
    ghost stood = { λ c. c };

    fn stand_in(ch: char) -> u32 {
        ch as u32
    }
}

/// A scanner of some rows of spellings, as a table.
#[derive(Clone, Copy)]
pub struct Automaton<'a> {
    /// The class of each of the first characters, at most 130 of them; every other character has class 0.
    pub classes: &'a [u8],
    /// For each state and class a character: `0` if no spelling continues, `1` if the first state is next, and so on. No
    /// characters lead to the first state.
    pub steps: &'a [[u8; 32]],
    /// For each state, one more than the row whose spellings may end there, or 0 if there is none.
    pub ends: &'a [u8],
}

// The class of a character.
fn class_of(classes: &[u8], ch: u32) -> u8
    ensures { result ≡ class_at classes.now ch }
{
    if (ch as usize) < classes.len() {
        classes[ch as usize]
    } else {
        0
    }
}

// The state that an entry leads to.
fn state_in(entry: u8) -> Option<u8>
    ensures some { IfSome result (λ state. entry - 48 ≡ suc state) }
    ensures none { IfNone result (entry - 48 ≡ 0) }
{
    if entry <= b'0' {
        None
    } else {
        Some(entry - b'0' - 1)
    }
}

// The state after a character of a class.
fn next_of(steps: &[[u8; 32]], state: u8, class: u8) -> Option<u8>
    ensures some { IfSome result (λ next. slice_index_or (slice_index_or steps.now state []) class 0 - 48 ≡ suc next) }
    ensures none { IfNone result (slice_index_or (slice_index_or steps.now state []) class 0 - 48 ≡ 0) }
{
    if (state as usize) < steps.len() && class < 32 {
        state_in(steps[state as usize][class as usize])
    } else {
        None
    }
}

// The row whose spellings may end in a state.
fn row_at(ends: &[u8], state: u8) -> Option<u8>
    ensures some { IfSome result (λ row. slice_index_or ends.now state 0 ≡ suc row) }
    ensures none { IfNone result (slice_index_or ends.now state 0 ≡ 0) }
{
    if (state as usize) < ends.len() && ends[state as usize] > 0 {
        Some(ends[state as usize] - 1)
    } else {
        None
    }
}

// How many units the longest spelling at the front has, and its row. It reads up to the first unit with which no
// spelling continues, each once.
fn longest_row<S: StandIn>(by: Automaton<'_>, units: &[Unit]) -> Option<(usize, u8)>
    ensures { RowAt (tables_of by.entry) (seen_by S.stood units.now) result }
{
    let mut state = 0;
    let mut found = None;
    for i in 0..units.len() {
        let Some(next) = next_of(
            by.steps,
            state,
            class_of(by.classes, S::stand_in(units[i].ch)),
        ) else {
            return found;
        };
        state = next;
        if let Some(row) = row_at(by.ends, state) {
            found = Some((i + 1, row));
        }
    }
    found
}

/// The longest element at the front of the rows that a table fits; `spells` has what each row is. That it fits is computed:
/// for each state there is a text that leads to it, and each step leaves what the patterns leave.
pub fn longest_found<S: StandIn>(
    by: Automaton<'_>,
    spells: &[Spell],
    mode: u64,
    units: &[Unit],
) -> Option<Found>
    requires { length units.now < 2 ^ 32 }
    ensures within { IfSome result (λ found. found.units ≤ length units.now) }
    ensures found { (rows : Patterned) (texts : List (List ℕ)) → FitsRows rows texts spells.now (tables_of by.entry)
        → RowsTake (rows_of rows) mode (seen_by S.stood units.now) result }
{
    match longest_row::<S>(by, units) {
        Some((len, row)) => match spells.get(row as usize) {
            Some(spell) => found_of(*spell, mode, Some(len)),
            None => None,
        },
        None => None,
    }
}

/// The same, of rows that see characters by what stands for them.
pub fn longest_seen<S: StandIn>(
    by: Automaton<'_>,
    spells: &[Spell],
    mode: u64,
    units: &[Unit],
) -> Option<Found>
    requires { length units.now < 2 ^ 32 }
    ensures { (rows : Patterned) (texts : List (List ℕ)) → FitsRows rows texts spells.now (tables_of by.entry)
        → RowsTake (rows_seen S.stood rows) mode (characters units.now) result }
{
    longest_found::<S>(by, spells, mode, units)
}

// Whether a spelling may end in a state.
fn is_end(ends: &[u8], state: u8) -> bool
    ensures some { IsTrue result → 0 < slice_index_or ends.now state 0 }
    ensures none { IsFalse result → slice_index_or ends.now state 0 ≡ 0 }
{
    match row_at(ends, state) {
        Some(_) => true,
        None => false,
    }
}

/// How many units the spelling at the front has, of a table with one row that need not begin again; or how many units were
/// read without finding its end: then no spelling begins at any of them. Each is read once.
pub fn scan_once(by: Automaton<'_>, units: &[Unit]) -> Result<usize, usize>
    ensures found { (p : Pattern) (texts : List (List ℕ)) → FitsOnce p texts (tables_of by.entry)
        → IfOk result (λ n. LongestAt (Spells p) (characters units.now) (Some n)) }
    ensures none { (p : Pattern) (texts : List (List ℕ)) → FitsOnce p texts (tables_of by.entry)
        → IfErr result (λ read. LongestAt (Spells p) (characters units.now) None × NoneBegins p (characters units.now) 0 read) }
    ensures within { IfErr result (λ read. read ≤ length units.now) }
{
    let mut state = 0;
    for i in 0..units.len() {
        match next_of(by.steps, state, class_of(by.classes, units[i].ch as u32)) {
            None => return Err(i),
            Some(next) => {
                if is_end(by.ends, next) {
                    return Ok(i + 1);
                }
                state = next;
            }
        }
    }
    Err(units.len())
}
