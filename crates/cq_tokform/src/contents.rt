ghost use Rattle.std.specs.Prelude.{◌≡◌, IfOk, map};
ghost use Rattle.cq_tokform.specs.Spelling as spell;
ghost use Rattle.cq_tokform.specs.Spelling.{listed, recorded};
ghost use Rattle.cq_tokform.specs.Sound.{IsSoundWhole, have_form, has_form, is_sound_contents};
ghost use Rattle.cq_tokform.specs.Reading.{Gives, Reads, contents_at, whole_at};

use crate::apart::are_apart;
use crate::conditions::conditions_of;
use crate::file::FileRecord;
use crate::files::files_of;
use crate::frame::frame_of;
use crate::head::{Head, head_of};
use crate::rising::paths_rise;
use crate::unread::Unread;
use cq_base::{Condition, Memory, Settings};
use cq_names::{is_path, is_project};
use std::alloc::Global;

/// What a token file has: of which version of which project it is, the conditions of its gate, and its files.
#[derive(Debug, Drop)]
pub struct ContentsRecord {
    pub head: Head,
    pub conditions: Vec<Condition>,
    pub files: Vec<FileRecord>,
}

// Whether there are few enough files, each at a path.
fn have_form(files: &[FileRecord]) -> bool
    ensures { result ≡ have_form (map recorded files.now) }
{
    if files.len() > 262_144 {
        return false;
    }
    for file in files {
        if !is_path(file.path.as_bytes()) {
            return false;
        }
    }
    true
}

// Whether its names, and how many there are of each, may stand in a file, and its files are in the order of their paths.
fn has_form(contents: &ContentsRecord) -> bool
    ensures { result ≡ has_form (listed contents.now) }
{
    is_project(contents.head.project.as_bytes())
        && contents.conditions.len() <= 32
        && have_form(contents.files.as_slice())
        && paths_rise(contents.files.as_slice())
}

// Whether it may stand in a file. Its parts are sound already.
fn is_sound(alloc: Global, contents: &ContentsRecord) -> Result<bool, Memory>
    ensures { IfOk result (λ sound. sound ≡ is_sound_contents (listed contents.now)) }
{
    if !has_form(contents) {
        return Ok(false);
    }
    are_apart(alloc, contents.files.as_slice())
}

#[tactic(auto, unfolding(crate::specs::Reading::contents_at))]
fn contents_of<'a>(
    alloc: Global,
    settings: &Settings,
    bytes: &'a [u8],
) -> Result<(ContentsRecord, &'a [u8]), Unread>
    ensures { Gives (λ x. (listed x.0, x.1.now)) result (contents_at settings.now bytes.now) }
{
    let (head, rest) = head_of(alloc, settings, bytes)?;
    let (conditions, rest) = conditions_of(alloc, rest)?;
    let (files, rest) = files_of(alloc, settings, head.version, rest)?;
    let contents = ContentsRecord {
        head,
        conditions,
        files,
    };
    if !is_sound(alloc, &contents)? {
        return Err(Unread::Refused);
    }
    Ok((contents, rest))
}

#[tactic(auto, unfolding(crate::specs::Reading::whole_at))]
fn whole_of<'a>(
    alloc: Global,
    settings: &Settings,
    bytes: &'a [u8],
) -> Result<(ContentsRecord, &'a [u8]), Unread>
    ensures { Gives (λ x. (listed x.0, x.1.now)) result (whole_at settings.now bytes.now) }
{
    let (body, behind) = frame_of(bytes)?;
    let (contents, rest) = contents_of(alloc, settings, body)?;
    if !rest.is_empty() {
        return Err(Unread::Refused);
    }
    Ok((contents, behind))
}

/// The contents of the token file of these settings at the front, and the bytes after the file. It costs one walk over
/// the bytes of the file and a sort of its files' changes, and takes memory only for what it has read.
pub fn read_whole<'a>(
    alloc: Global,
    settings: &Settings,
    bytes: &'a [u8],
) -> Result<(ContentsRecord, &'a [u8]), Unread>
    ensures reads { Reads (spell.whole settings.now) (IsSoundWhole settings.now)
        (λ x. (listed x.0, x.1.now)) bytes.now result }
{
    whole_of(alloc, settings, bytes)
}
