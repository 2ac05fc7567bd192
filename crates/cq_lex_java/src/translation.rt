ghost use Rattle.std.specs.Prelude.{◌≡◌, ◌≤◌, ◌==◌, ◌&&◌, not, false, length, IfOk, IsUtf8};
ghost use Rattle.cq_munch.specs.Lexed.{InOrder, translation, units_of};
ghost use Rattle.cq_lex_java.specs.Translation.{spanning, read_at, translated};
ghost use Rattle.cq_lex_java.specs.Eligible.{EscapesGoByCount};
ghost use Rattle.cq_lex_java.specs.Escapes.{IsStepWithin};

use crate::escape::{Step, step_at};
use cq_base::{Memory, Text};
use cq_munch::{Translated, Unit, follows_backslash};
use std::alloc::Global;

// A character with the bytes of all the units that spell it.
fn spanning(ch: char, units: &[Unit], len: usize) -> Unit
    requires some { 1 ≤ len }
    requires within { len ≤ length units.now }
    requires in_order { InOrder 0 units.now 1048576 }
    ensures { result ≡ spanning ch units.now len }
{
    let start = units[0].start;
    let last = units[len - 1];
    Unit {
        ch,
        start,
        len: last.start + last.len - start,
    }
}

// What the unit at the front is read as, after an odd number of backslashes or not.
fn read_at(odd: bool, units: &[Unit]) -> Step
    ensures step { result ≡ read_at odd units.now }
    ensures within { IsStepWithin (length units.now) result }
{
    if odd { Step::Plain } else { step_at(units) }
}

// Whether an odd number of backslashes comes before the next unit.
fn odd_behind(odd: bool, ch: char) -> bool
    ensures { result ≡ ((ch == 92) && not odd) }
{
    ch == '\\' && !odd
}

// The units after the Unicode escapes are read, or the byte of the first fault. Each unit is looked at once, and those
// of an escape twice more.
fn translated(alloc: Global, units: &[Unit]) -> Result<Translated, Memory>
    requires { InOrder 0 units.now 1048576 }
    ensures { IfOk result (λ t. translation t ≡ translated 0 false units.now) }
{
    let mut out = Vec::with_capacity(alloc, units.len())?;
    let mut skip = 0;
    let mut odd = false;
    for (i, unit) in units.iter().enumerate() {
        if skip > 0 {
            skip -= 1;
            continue;
        }
        let here = &units[i..];
        match read_at(odd, here) {
            Step::Plain => {
                out.push(*unit)?;
                odd = odd_behind(odd, unit.ch);
            }
            Step::Fault => return Ok(Translated::Fault(unit.start)),
            Step::One(ch, len) => {
                out.push(spanning(ch, here, len))?;
                skip = len - 1;
                odd = false;
            }
        }
    }
    Ok(Translated::Units(out))
}

/// The same of a text's own units. If no u comes directly after a backslash, they are taken as they are.
pub(crate) fn unescaped(alloc: Global, text: &Text, units: Vec<Unit>) -> Result<Translated, Memory>
    requires utf8 { IsUtf8 text.now }
    requires own { units.items ≡ units_of text.now }
    requires in_order { InOrder 0 units.items 1048576 }
    ensures { IfOk result (λ t. translation t ≡ translated 0 false units.items) }
{
    if follows_backslash(text, b'u') {
        return translated(alloc, &units);
    }
    Ok(Translated::Units(units))
}

/// A backslash begins a Unicode escape only if an even number of backslashes of the text comes directly before it.
pub fn escapes_go_by_count()
    ensures { EscapesGoByCount }
{}
