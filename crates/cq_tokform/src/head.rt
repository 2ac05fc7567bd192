ghost use Rattle.std.specs.Prelude.{◌≡◌, ◌<◌, ◌^◌, length, OnOk, OnErr};
ghost use Rattle.cq_tokform.specs.Spelling as spell;
ghost use Rattle.cq_tokform.specs.Sound.{is_sound_head};
ghost use Rattle.cq_tokform.specs.Reading.{GivesValue, head_at};
ghost use Rattle.cq_tokform.specs.Writing.{AddsBytes, IsFrontOf};

use crate::numbers::{put_text, put_u8, put_u32, put_u64, text_of, u8_at, u32_at, u64_at};
use crate::unread::Unread;
use cq_base::{Memory, Settings, Text};
use std::alloc::Global;

/// What a token file is of: a version of a project.
#[derive(Debug, Drop)]
pub struct Head {
    pub version: u64,
    pub project: Text,
}

fn flag(set: bool) -> u8
    ensures { result ≡ spell.flag set }
{
    if set { 1 } else { 0 }
}

// Whether the numbers are those of a version, and of these settings.
fn is_sound(settings: &Settings, version: u64, chunk: u32, ids: u8, lits: u8) -> bool
    ensures { result ≡ is_sound_head settings.now version chunk ids lits }
{
    version <= 1_152_921_504_606_846_976
        && chunk == settings.chunk
        && ids == flag(settings.ignore_ids)
        && lits == flag(settings.ignore_lits)
}

#[tactic(auto, unfolding(crate::specs::Reading::head_at))]
pub(crate) fn head_of<'a>(
    alloc: Global,
    settings: &Settings,
    bytes: &'a [u8],
) -> Result<(Head, &'a [u8]), Unread>
    ensures { GivesValue (head_at settings.now bytes.now) result }
{
    let (version, rest) = u64_at(bytes)?;
    let (chunk, rest) = u32_at(rest)?;
    let (ids, rest) = u8_at(rest)?;
    let (lits, rest) = u8_at(rest)?;
    let (project, rest) = text_of(alloc, rest)?;
    if !is_sound(settings, version, chunk, ids, lits) {
        return Err(Unread::Refused);
    }
    Ok((Head { version, project }, rest))
}

/// Writes the head of a version of a project with these settings at the end.
/// If memory is refused, some more bytes may be after those that were there.
pub fn put_head_of(
    out: &mut Vec<u8>,
    settings: &Settings,
    version: u64,
    project: &Text,
) -> Result<(), Memory>
    requires { length project.now < 2 ^ 32 }
    ensures written { OnOk result (AddsBytes
        (spell.head settings.now (record { version = version; project = project.now }))
        out.old out.new) }
    ensures front { OnErr result (IsFrontOf out.old.items out.new.items) }
{
    put_u64(out, version)?;
    put_u32(out, settings.chunk)?;
    put_u8(out, flag(settings.ignore_ids))?;
    put_u8(out, flag(settings.ignore_lits))?;
    put_text(out, project.as_bytes())?;
    Ok(())
}
