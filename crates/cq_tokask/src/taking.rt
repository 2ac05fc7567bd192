ghost use Rattle.std.specs.Prelude.{◌≡◌, ◌≤◌, ◌<◌, ◌+◌, length, take, vec_len, IfOk, OnErr};
ghost use Rattle.cq_io.specs.Causes.{HasCause};
ghost use Rattle.cq_lines.specs.Calls.{ReadsAt};
ghost use Rattle.cq_tokask.specs.Taken.{AreBytes, HasNoneBehind, TakesBytes, TakesFile, TakesSome, TakesSuch, TakesUpTo};
ghost use Rattle.cq_tokform.specs.Reading as reading;

use cq_base::Memory;
use cq_io::{Failed, Source};
use cq_tokform::announced;
use std::alloc::Global;

// How many bytes are asked for at once.
const PIECE: usize = 65_536;

/// How the taking of this many bytes ended.
#[derive(Clone, Copy, Debug, PartialEq, Eq)]
pub(crate) enum Taken {
    /// All of them were taken.
    All,
    /// No byte is left, and some are missing.
    Ended,
    /// A read failed.
    Failed,
}

/// What is at the front of a source.
#[derive(Debug, Drop)]
pub(crate) enum Front {
    /// A body in its frame: these bytes, which were taken.
    Framed(Vec<u8>),
    /// Anything else.
    Other,
    /// A read failed before that could be decided.
    Failed,
}

// Reads once into the piece from a place on.
fn read_at<S: Source>(
    source: &mut S,
    piece: &mut Vec<u8>,
    at: usize,
    want: usize,
) -> Result<usize, Failed>
    requires fits { at + want ≤ vec_len piece.old }
    requires some { 0 < want }
    ensures within { IfOk result (λ n. n ≤ want) }
    ensures len { vec_len piece.new ≡ vec_len piece.old }
    ensures front { take at piece.new.items ≡ take at piece.old.items }
    ensures bytes { ReadsAt at want (S.rest source.old) (S.rest source.new) piece.new.items result }
    ensures cause { HasCause (S.faults source.old) (S.faults source.new) result }
{
    source.read(&mut piece[at..at + want])
}

// Takes some of the next bytes, as many as are wanted or fewer, and none if none are left. They come after those that are
// there; if memory for them is refused, they are lost.
fn take_some<S: Source>(
    source: &mut S,
    piece: &mut Vec<u8>,
    want: usize,
    out: &mut Vec<u8>,
) -> Result<Result<usize, Failed>, Memory>
    requires room { 0 < vec_len piece.old }
    requires some { 0 < want }
    ensures len { vec_len piece.new ≡ vec_len piece.old }
    ensures bytes { IfOk result
        (TakesSome S.Source source.old source.new out.old.items out.new.items want) }
    ensures few { OnErr result (TakesUpTo S.Source source.old source.new want) }
{
    let size = want.min(piece.len());
    match read_at(source, piece, 0, size) {
        Ok(count) => {
            out.extend_from_slice(&piece[..count])?;
            Ok(Ok(count))
        }
        Err(Failed) => Ok(Err(Failed)),
    }
}

// Takes this many of the next bytes, and never more. Memory is taken only for what has come, whatever number is
// wanted.
fn take<S: Source>(
    source: &mut S,
    piece: &mut Vec<u8>,
    count: usize,
    out: &mut Vec<u8>,
) -> Result<Taken, Memory>
    requires room { 0 < vec_len piece.old }
    ensures len { vec_len piece.new ≡ vec_len piece.old }
    ensures bytes { IfOk result
        (TakesBytes S.Source source.old source.new out.old.items out.new.items count) }
    ensures few { OnErr result (TakesUpTo S.Source source.old source.new count) }
{
    let mut left = count;
    'pieces: while left > 0 {
        match take_some(source, piece, left, out)? {
            Ok(0) => return Ok(Taken::Ended),
            Ok(taken) => left -= taken,
            Err(Failed) => return Ok(Taken::Failed),
        }
    }
    Ok(Taken::All)
}

// How long a body is, by the 16 bytes before it.
fn length_told(bytes: &[u8]) -> Option<usize>
    requires { length bytes.now ≡ 16 }
    ensures told { result ≡ reading.announced bytes.now }
    ensures fit { AreBytes bytes.now }
{
    announced(bytes)
}

/// Takes the body in its frame at the front of a source. No byte after it is taken, whatever fails. If something else
/// is there, some bytes may have been taken.
pub(crate) fn take_front<S: Source>(alloc: Global, source: &mut S) -> Result<Front, Memory>
    ensures takes { IfOk result (TakesFile S.Source source.old source.new) }
    ensures none_behind { OnErr result (TakesSuch S.Source source.old source.new HasNoneBehind) }
{
    let mut piece = vec![in alloc; 0u8; PIECE]?;
    let mut bytes = Vec::new(alloc);
    match take(source, &mut piece, 16, &mut bytes)? {
        Taken::All => {}
        Taken::Ended => return Ok(Front::Other),
        Taken::Failed => return Ok(Front::Failed),
    }
    let Some(len) = length_told(&bytes) else {
        return Ok(Front::Other);
    };
    match take(source, &mut piece, len, &mut bytes)? {
        Taken::All => Ok(Front::Framed(bytes)),
        Taken::Ended => Ok(Front::Other),
        Taken::Failed => Ok(Front::Failed),
    }
}
