ghost use Rattle.cq_tokform.specs.Reading.{GivesFiles, counted_at, file_at, items_at};

use crate::file::{FileRecord, file_of};
use crate::numbers::u32_at;
use crate::unread::Unread;
use cq_base::Settings;
use std::alloc::Global;

// So many files, one after the other. No memory is taken ahead of them.
fn files_at<'a>(
    alloc: Global,
    settings: &Settings,
    version: u64,
    count: u32,
    bytes: &'a [u8],
) -> Result<(Vec<FileRecord>, &'a [u8]), Unread>
    ensures { GivesFiles (items_at (file_at settings.now version) count bytes.now) result }
{
    let mut files = Vec::new(alloc);
    let mut rest = bytes;
    for _ in 0..count {
        let (file, after) = file_of(alloc, settings, version, rest)?;
        files.push(file)?;
        rest = after;
    }
    Ok((files, rest))
}

#[tactic(auto, unfolding(crate::specs::Reading::counted_at))]
pub(crate) fn files_of<'a>(
    alloc: Global,
    settings: &Settings,
    version: u64,
    bytes: &'a [u8],
) -> Result<(Vec<FileRecord>, &'a [u8]), Unread>
    ensures { GivesFiles (counted_at (file_at settings.now version) bytes.now) result }
{
    let (count, rest) = u32_at(bytes)?;
    files_at(alloc, settings, version, count, rest)
}
