ghost use Rattle.std.specs.Prelude.{◌≡◌, length, OnOk, OnErr};
ghost use Rattle.cq_tokform.specs.Spelling as spell;
ghost use Rattle.cq_tokform.specs.Reading.{Gives, announced, behind_mark, body_at, frame_at};
ghost use Rattle.cq_tokform.specs.Writing.{AddsBytes, IsFrontOf};

use crate::numbers::u64_at;
use crate::unread::Unread;
use cq_base::Memory;

const MARK: [u8; 8] = *b"CQTOK001";

fn mark_of(bytes: &[u8]) -> Result<&[u8], Unread>
    ensures { Gives (λ x. x.now) result (behind_mark bytes.now) }
{
    if bytes.len() < 8 {
        return Err(Unread::Refused);
    }
    let (mark, rest) = bytes.split_at(8);
    if mark == MARK.as_slice() {
        Ok(rest)
    } else {
        Err(Unread::Refused)
    }
}

// A body of so many bytes. The length is believed only as far as bytes are there.
fn body_of(len: u64, bytes: &[u8]) -> Result<(&[u8], &[u8]), Unread>
    ensures { Gives (λ x. (x.0.now, x.1.now)) result (body_at len bytes.now) }
{
    if len > 268_435_456 {
        return Err(Unread::Refused);
    }
    let len = len as usize;
    if bytes.len() < len {
        return Err(Unread::Refused);
    }
    Ok(bytes.split_at(len))
}

#[tactic(auto, unfolding(crate::specs::Reading::frame_at))]
pub(crate) fn frame_of(bytes: &[u8]) -> Result<(&[u8], &[u8]), Unread>
    ensures { Gives (λ x. (x.0.now, x.1.now)) result (frame_at bytes.now) }
{
    let rest = mark_of(bytes)?;
    let (len, rest) = u64_at(rest)?;
    body_of(len, rest)
}

/// How many bytes the body has that the 16 bytes before it announce, if they begin a token file.
pub fn announced(bytes: &[u8]) -> Option<usize>
    requires { length bytes.now ≡ 16 }
    ensures { result ≡ announced bytes.now }
{
    let (mark, len) = bytes.split_at(8);
    if mark != MARK.as_slice() {
        return None;
    }
    let len = u64::from_be_bytes([
        len[0], len[1], len[2], len[3], len[4], len[5], len[6], len[7],
    ]);
    if len > 268_435_456 {
        return None;
    }
    Some(len as usize)
}

/// Writes what each token file begins with at the end.
/// If memory is refused, some more bytes may be after those that were there.
pub fn put_mark(out: &mut Vec<u8>) -> Result<(), Memory>
    ensures written { OnOk result (AddsBytes spell.mark out.old out.new) }
    ensures front { OnErr result (IsFrontOf out.old.items out.new.items) }
{
    out.extend_from_slice(MARK.as_slice())?;
    Ok(())
}
