ghost use Rattle.std.specs.Prelude.{◌≡◌, ◌+◌, ◌-◌, ◌<◌, ◌≤◌, ◌++◌, [], ◌∷◌, length, IfOk};
ghost use Rattle.cq_munch.specs.Characters.{utf8_of};
ghost use Rattle.cq_munch.specs.Feeds.{IsCounted};
ghost use Rattle.cq_munch.specs.Lexed.{AreBytes, InOrder, end_of, unit_at, spelled_of};
ghost use Rattle.cq_munch.specs.Reached.{end_behind};

use crate::lines::{Feed, feed_further};
use crate::unit::Unit;
use cq_base::{Class, Memory, Spelled, Text, Token};
use std::alloc::Global;

// The text of the units' characters.
#[inline(never)]
fn of_units(alloc: Global, units: &[Unit]) -> Result<Text, Memory>
    ensures { IfOk result (λ t. t ≡ utf8_of units.now) }
{
    let mut text = String::with_capacity(alloc, units.len())?;
    for unit in units {
        text.push(unit.ch)?;
    }
    Ok(Text::from_vec(text.into_bytes()))
}

// The same, if they are these bytes of the source. Mostly there is a byte for each unit: then the bytes are the text.
#[inline(always)]
fn of_bytes(
    alloc: Global,
    text: &Text,
    start: u32,
    len: u32,
    units: &[Unit],
) -> Result<Text, Memory>
    requires short { length text.now ≤ 1048576 }
    requires some { 0 < length units.now }
    requires in_order { InOrder 0 units.now (length text.now) }
    requires bytes { AreBytes text.now units.now }
    requires start_is { start ≡ (unit_at units.now 0).start }
    requires end_is { start + len ≡ end_of units.now }
    requires within { start + len ≤ length text.now }
    ensures { IfOk result (λ t. t ≡ utf8_of units.now) }
{
    if len as usize == units.len() {
        let bytes = text.as_bytes();
        let end = start + len;
        return Text::from_bytes(alloc, &bytes[start as usize..end as usize]);
    }
    of_units(alloc, units)
}

/// How far the tokens of a text have come: the byte where the last one ends, and the first line feed from its last byte on.
#[derive(Clone, Copy, Debug, PartialEq, Eq)]
pub(crate) struct Reached {
    pub(crate) end: u32,
    pub(crate) feed: Feed,
}

/// Adds the token of some units, and answers how far the tokens then have come.
#[inline(always)]
pub(crate) fn add_token(
    alloc: Global,
    text: &Text,
    class: Class,
    units: &[Unit],
    reached: Reached,
    tokens: &mut Vec<Spelled>,
) -> Result<Reached, Memory>
    requires short { length text.now ≤ 1048576 }
    requires some { 0 < length units.now }
    requires in_order { InOrder reached.end units.now (length text.now) }
    requires bytes { AreBytes text.now units.now }
    requires counted { IsCounted text.now (reached.end - 1) reached.feed }
    ensures added { IfOk result (λ _. tokens.new.items ≡ tokens.old.items ++ spelled_of text.now class units.now ∷ []) }
    ensures end { IfOk result (λ r. r.end ≡ end_behind (spelled_of text.now class units.now)) }
    ensures counted { IfOk result (λ r. IsCounted text.now (r.end - 1) r.feed) }
{
    let first = units[0];
    let last = units[units.len() - 1];
    let len = last.start + last.len - first.start;
    let end = first.start + len;
    let opening = feed_further(
        text,
        reached.end.saturating_sub(1),
        reached.feed,
        first.start,
    );
    let closing = feed_further(text, first.start, opening, end - 1);
    let token = Token {
        class,
        start: first.start,
        len,
        first_line: opening.line,
        last_line: closing.line,
    };
    let text = of_bytes(alloc, text, first.start, len, units)?;
    tokens.push(Spelled { token, text })?;
    Ok(Reached { end, feed: closing })
}
