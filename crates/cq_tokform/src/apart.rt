ghost use Rattle.std.specs.Prelude.{◌≡◌, IfOk, map};
ghost use Rattle.cq_tokform.specs.Spelling.{recorded};
ghost use Rattle.cq_tokform.specs.Sound.{are_apart, changes_in};

use crate::file::FileRecord;
use crate::rising::numbers_rise;
use cq_base::Memory;
use std::alloc::Global;

// The changes that put the files.
fn changes_of(alloc: Global, files: &[FileRecord]) -> Result<Vec<u64>, Memory>
    ensures { IfOk result (λ changes. changes.items ≡ changes_in (map recorded files.now)) }
{
    let mut changes = Vec::with_capacity(alloc, files.len())?;
    for file in files {
        changes.push(file.change)?;
    }
    Ok(changes)
}

/// Whether each file was put by a change of its own. It costs a sort of the changes.
pub(crate) fn are_apart(alloc: Global, files: &[FileRecord]) -> Result<bool, Memory>
    ensures { IfOk result (λ apart. apart ≡ are_apart (changes_in (map recorded files.now))) }
{
    let mut changes = changes_of(alloc, files)?;
    changes.sort_unstable();
    Ok(numbers_rise(&changes))
}
