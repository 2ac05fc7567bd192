ghost use Rattle.std.specs.Prelude.{◌≡◌, ℕ, List, ◌<◌, ◌≤◌, ◌^◌, suc, length, drop, IfSome};
ghost use Rattle.std.specs.Option.{option_map};
ghost use Rattle.cq_munch.specs.Characters.{characters};
ghost use Rattle.cq_munch.specs.Longest.{LongestAt};
ghost use Rattle.cq_munch.specs.Automata.{tables_of};
ghost use Rattle.cq_munch.specs.Once.{FitsOnce};
ghost use Rattle.cq_munch.specs.Pattern.{Pattern, Spells};
ghost use Rattle.cq_lex_c.specs.Texts.{string, constant, IsString, IsText, IsSmall, IsPrefixed};
ghost use Rattle.cq_lex_c.specs.Unclosed.{NoneIn, IsTrueOf};

use crate::{constants, strings};
use cq_munch::{Automaton, Unit, scan_once};

/// Units of which none begins a text in quotes of a kind: from the first up to the second.
#[derive(Clone, Copy, Debug, PartialEq, Eq)]
pub(crate) struct Span {
    pub(crate) from: usize,
    pub(crate) to: usize,
}

/// Where each kind of quote is known not to be closed.
#[derive(Clone, Copy, Debug, PartialEq, Eq)]
pub(crate) struct Unclosed {
    pub(crate) double: Span,
    pub(crate) single: Span,
}

/// Nothing is known.
pub(crate) fn nothing_known() -> Unclosed
    ensures { (text : List ℕ) → IsTrueOf result text }
{
    let span = Span { from: 0, to: 0 };
    Unclosed {
        double: span,
        single: span,
    }
}

// The text at a unit that a table finds. The units of a scan that found no end are not scanned again.
fn once_at(by: Automaton<'_>, units: &[Unit], at: usize, known: &mut Span) -> Option<usize>
    requires { at ≤ length units.now }
    ensures text { (p : Pattern) (texts : List (List ℕ)) → FitsOnce p texts (tables_of by.entry) → NoneIn p known.old (characters units.now)
        → LongestAt (Spells p) (drop at (characters units.now)) result }
    ensures known { (p : Pattern) (texts : List (List ℕ)) → FitsOnce p texts (tables_of by.entry) → NoneIn p known.old (characters units.now)
        → NoneIn p known.new (characters units.now) }
{
    if known.from <= at && at < known.to {
        return None;
    }
    match scan_once(by, &units[at..]) {
        Ok(len) => Some(len),
        Err(read) => {
            *known = Span {
                from: at,
                to: at + read,
            };
            None
        }
    }
}

// The string without a prefix at a unit.
fn string_at(units: &[Unit], at: usize, known: &mut Span) -> Option<usize>
    requires inside { at ≤ length units.now }
    requires known { NoneIn string known.old (characters units.now) }
    ensures text { LongestAt IsString (drop at (characters units.now)) result }
    ensures known { NoneIn string known.new (characters units.now) }
{
    let by = Automaton {
        classes: &strings::CLASSES,
        steps: &strings::STEPS,
        ends: &strings::ENDS,
    };
    once_at(by, units, at, known)
}

// The character constant without a prefix at a unit.
fn constant_at(units: &[Unit], at: usize, known: &mut Span) -> Option<usize>
    requires inside { at ≤ length units.now }
    requires known { NoneIn constant known.old (characters units.now) }
    ensures text { LongestAt (Spells constant) (drop at (characters units.now)) result }
    ensures known { NoneIn constant known.new (characters units.now) }
{
    let by = Automaton {
        classes: &constants::CLASSES,
        steps: &constants::STEPS,
        ends: &constants::ENDS,
    };
    once_at(by, units, at, known)
}

/// The string or character constant without a prefix at a unit.
pub(crate) fn text_at(units: &[Unit], at: usize, unclosed: &mut Unclosed) -> Option<usize>
    requires inside { at ≤ length units.now }
    requires known { IsTrueOf unclosed.old (characters units.now) }
    ensures text { LongestAt IsText (drop at (characters units.now)) result }
    ensures known { IsTrueOf unclosed.new (characters units.now) }
{
    if at >= units.len() {
        return None;
    }
    let first = units[at].ch;
    if first == '"' {
        return string_at(units, at, &mut unclosed.double);
    }
    if first == '\'' {
        return constant_at(units, at, &mut unclosed.single);
    }
    None
}

// One unit more.
fn and_one(len: Option<usize>) -> Option<usize>
    requires { IfSome len (λ n. n < 2 ^ 63) }
    ensures { result ≡ option_map suc len }
{
    match len {
        Some(n) => Some(n + 1),
        None => None,
    }
}

// What may follow a small u, from a unit on.
fn small_at(units: &[Unit], at: usize, unclosed: &mut Unclosed) -> Option<usize>
    requires inside { at ≤ length units.now }
    requires known { IsTrueOf unclosed.old (characters units.now) }
    ensures text { LongestAt IsSmall (drop at (characters units.now)) result }
    ensures known { IsTrueOf unclosed.new (characters units.now) }
{
    if at < units.len() && units[at].ch == '8' {
        and_one(string_at(units, at + 1, &mut unclosed.double))
    } else {
        text_at(units, at, unclosed)
    }
}

/// The string or character constant at a unit that has a prefix.
pub(crate) fn prefixed_at(units: &[Unit], at: usize, unclosed: &mut Unclosed) -> Option<usize>
    requires inside { at < length units.now }
    requires known { IsTrueOf unclosed.old (characters units.now) }
    ensures text { LongestAt IsPrefixed (drop at (characters units.now)) result }
    ensures known { IsTrueOf unclosed.new (characters units.now) }
{
    let first = units[at].ch;
    if first == 'u' {
        return and_one(small_at(units, at + 1, unclosed));
    }
    if first == 'U' || first == 'L' {
        return and_one(text_at(units, at + 1, unclosed));
    }
    None
}
