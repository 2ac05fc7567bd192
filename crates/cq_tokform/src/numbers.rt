ghost use Rattle.std.specs.Prelude.{◌≡◌, ◌<◌, ◌^◌, [], ◌∷◌, length, OnOk, OnErr};
ghost use Rattle.std.specs.Int.{w32, w64, to_be_bytes};
ghost use Rattle.std.specs.Str.{is_utf8};
ghost use Rattle.cq_tokform.specs.Spelling as spell;
ghost use Rattle.cq_tokform.specs.Reading.{GivesValue, byte_at, number_at, text_at};
ghost use Rattle.cq_tokform.specs.Writing.{AddsBytes, IsFrontOf};

use crate::unread::Unread;
use cq_base::{Memory, Text};
use std::alloc::Global;

/// The byte at the front.
pub(crate) fn u8_at(bytes: &[u8]) -> Result<(u8, &[u8]), Unread>
    ensures { GivesValue (byte_at bytes.now) result }
{
    match bytes {
        [] => Err(Unread::Refused),
        [byte, rest @ ..] => Ok((*byte, rest)),
    }
}

/// The number of four bytes at the front.
pub(crate) fn u32_at(bytes: &[u8]) -> Result<(u32, &[u8]), Unread>
    ensures { GivesValue (number_at w32 bytes.now) result }
{
    if bytes.len() < 4 {
        return Err(Unread::Refused);
    }
    let (front, rest) = bytes.split_at(4);
    let number = u32::from_be_bytes([front[0], front[1], front[2], front[3]]);
    Ok((number, rest))
}

/// The number of eight bytes at the front.
pub(crate) fn u64_at(bytes: &[u8]) -> Result<(u64, &[u8]), Unread>
    ensures { GivesValue (number_at w64 bytes.now) result }
{
    if bytes.len() < 8 {
        return Err(Unread::Refused);
    }
    let (front, rest) = bytes.split_at(8);
    let number = u64::from_be_bytes([
        front[0], front[1], front[2], front[3], front[4], front[5], front[6], front[7],
    ]);
    Ok((number, rest))
}

fn is_utf8(bytes: &[u8]) -> bool
    ensures { result ≡ is_utf8 bytes.now }
{
    match str::from_utf8(bytes) {
        Ok(_) => true,
        Err(_) => false,
    }
}

/// The text at the front. Its length is believed only as far as bytes are there.
#[tactic(auto, unfolding(crate::specs::Reading::text_at))]
pub(crate) fn text_of(alloc: Global, bytes: &[u8]) -> Result<(Text, &[u8]), Unread>
    ensures { GivesValue (text_at bytes.now) result }
{
    let (len, rest) = u32_at(bytes)?;
    let len = len as usize;
    if rest.len() < len {
        return Err(Unread::Refused);
    }
    let (text, rest) = rest.split_at(len);
    if !is_utf8(text) {
        return Err(Unread::Refused);
    }
    Ok((Text::from_bytes(alloc, text)?, rest))
}

/// Writes a byte at the end.
/// If memory is refused, some more bytes may be after those that were there.
pub(crate) fn put_u8(out: &mut Vec<u8>, byte: u8) -> Result<(), Memory>
    ensures written { OnOk result (AddsBytes (byte ∷ []) out.old out.new) }
    ensures front { OnErr result (IsFrontOf out.old.items out.new.items) }
{
    out.push(byte)?;
    Ok(())
}

/// Writes a number of four bytes at the end.
/// If memory is refused, some more bytes may be after those that were there.
pub fn put_u32(out: &mut Vec<u8>, number: u32) -> Result<(), Memory>
    ensures written { OnOk result (AddsBytes (to_be_bytes w32 number) out.old out.new) }
    ensures front { OnErr result (IsFrontOf out.old.items out.new.items) }
{
    out.extend_from_slice(&number.to_be_bytes())?;
    Ok(())
}

/// Writes a number of eight bytes at the end.
/// If memory is refused, some more bytes may be after those that were there.
pub fn put_u64(out: &mut Vec<u8>, number: u64) -> Result<(), Memory>
    ensures written { OnOk result (AddsBytes (to_be_bytes w64 number) out.old out.new) }
    ensures front { OnErr result (IsFrontOf out.old.items out.new.items) }
{
    out.extend_from_slice(&number.to_be_bytes())?;
    Ok(())
}

/// Writes a text at the end.
/// If memory is refused, some more bytes may be after those that were there.
pub(crate) fn put_text(out: &mut Vec<u8>, text: &[u8]) -> Result<(), Memory>
    requires { length text.now < 2 ^ 32 }
    ensures written { OnOk result (AddsBytes (spell.text text.now) out.old out.new) }
    ensures front { OnErr result (IsFrontOf out.old.items out.new.items) }
{
    put_u32(out, text.len() as u32)?;
    out.extend_from_slice(text)?;
    Ok(())
}
