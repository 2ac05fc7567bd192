ghost use Rattle.std.specs.Prelude.{◌≡◌, ◌+◌, ◌<◌, length, map, nat_lt, slice_index_or};
ghost use Rattle.cq_history.specs.Files.{is_before};
ghost use Rattle.cq_tokform.specs.declared.file.FileRecord.{FileRecord};
ghost use Rattle.cq_tokform.specs.Spelling.{recorded};
ghost use Rattle.cq_tokform.specs.Sound.{is_path_before, rise};

use crate::file::FileRecord;
use cq_base::Text;

// Byte by byte.
fn is_before(path: &Text, other: &Text) -> bool
    ensures { result ≡ is_before path.now other.now }
{
    path.as_bytes().cmp(other.as_bytes()).is_lt()
}

// Whether the path of a file is before that of the next one.
fn is_before_next(files: &[FileRecord], at: usize) -> bool
    requires { at + 1 < length files.now }
    ensures { (d : FileRecord) → result ≡ is_before
        (slice_index_or files.now at d).path (slice_index_or files.now (at + 1) d).path }
{
    let next = at + 1;
    is_before(&files[at].path, &files[next].path)
}

/// Whether each path is before the next one.
pub(crate) fn paths_rise(files: &[FileRecord]) -> bool
    ensures { result ≡ rise is_path_before (map recorded files.now) }
{
    let last = files.len().saturating_sub(1);
    for at in 0..last {
        if !is_before_next(files, at) {
            return false;
        }
    }
    true
}

fn is_below(n: u64, m: u64) -> bool
    ensures { result ≡ nat_lt n m }
{
    n < m
}

/// Whether each number is below the next one.
pub(crate) fn numbers_rise(numbers: &[u64]) -> bool
    ensures { result ≡ rise nat_lt numbers.now }
{
    let last = numbers.len().saturating_sub(1);
    for at in 0..last {
        if !is_below(numbers[at], numbers[at + 1]) {
            return false;
        }
    }
    true
}
