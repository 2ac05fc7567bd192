ghost use Rattle.std.specs.Prelude.{◌≡◌, ◌≤◌, length, IfOk, IfSome, IsUtf8};
ghost use Rattle.cq_munch.specs.Lexed.{units_of, AreBytes, InOrder};

use crate::unit::Unit;
use cq_base::{Memory, Text};
use std::alloc::Global;
use std::str;

/// The units of a text, each with its own bytes.
pub fn plain_units(alloc: Global, text: &Text) -> Result<Vec<Unit>, Memory>
    requires utf8 { IsUtf8 text.now }
    requires short { length text.now ≤ 1048576 }
    ensures units { IfOk result (λ v. v.items ≡ units_of text.now) }
    ensures in_order { IfOk result (λ v. InOrder 0 v.items (length text.now)) }
    ensures short { IfOk result (λ v. length v.items ≤ length text.now) }
    ensures bytes { IfOk result (λ v. AreBytes text.now v.items) }
{
    let bytes = text.as_bytes();
    match of_ascii(alloc, bytes)? {
        Some(units) => Ok(units),
        None => of_str(alloc, str::from_utf8(bytes).unwrap()),
    }
}

// The units of a text of ASCII, of which each byte is a character; None if another byte is found.
fn of_ascii(alloc: Global, bytes: &[u8]) -> Result<Option<Vec<Unit>>, Memory>
    requires short { length bytes.now ≤ 1048576 }
    ensures units { IfOk result (λ r. IfSome r (λ v. v.items ≡ units_of bytes.now)) }
    ensures in_order { IfOk result (λ r. IfSome r (λ v. InOrder 0 v.items (length bytes.now))) }
    ensures short { IfOk result (λ r. IfSome r (λ v. length v.items ≤ length bytes.now)) }
    ensures bytes { IfOk result (λ r. IfSome r (λ v. AreBytes bytes.now v.items)) }
{
    let mut units = Vec::with_capacity(alloc, bytes.len())?;
    for (i, byte) in bytes.iter().enumerate() {
        if *byte >= 128 {
            return Ok(None);
        }
        units.push_reserved(Unit {
            ch: char::from(*byte),
            start: i as u32,
            len: 1,
        });
    }
    Ok(Some(units))
}

fn of_str(alloc: Global, text: &str) -> Result<Vec<Unit>, Memory>
    requires { length text.now ≤ 1048576 }
    ensures units { IfOk result (λ v. v.items ≡ units_of text.now) }
    ensures in_order { IfOk result (λ v. InOrder 0 v.items (length text.now)) }
    ensures short { IfOk result (λ v. length v.items ≤ length text.now) }
    ensures bytes { IfOk result (λ v. AreBytes text.now v.items) }
{
    let mut units = Vec::with_capacity(alloc, text.len())?;
    let mut start = 0;
    for ch in text.chars() {
        let len = ch.len_utf8() as u32;
        units.push(Unit { ch, start, len })?;
        start += len;
    }
    Ok(units)
}
