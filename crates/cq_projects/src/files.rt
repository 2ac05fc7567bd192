ghost use Rattle.std.specs.Prelude.{◌≡◌, ◌<◌, ◌≤◌, ◌++◌, IfOk, IfErr, OnOk, IsTrue, insert, length, take, drop};
ghost use Rattle.std.specs.Vec.{vec_len, vec_capacity};
ghost use Rattle.std.specs.Ordering.{nat_cmp};
ghost use Rattle.std.specs.Cmp.Lexicographic.{slice_cmp};
ghost use Rattle.cq_projects.specs.Ordered.{AreRising, AreBelow, AreAbove, IsAt, IsGap};
ghost use Rattle.cq_projects.specs.Drafts.{held_in, IsCut};
ghost use Rattle.cq_history.specs.Files.{number_at};
ghost use Rattle.cq_projects.specs.Projects.{path_in, path_of};

use crate::held::Held;
use cq_base::{Memory, Text};
use std::alloc::Global;
use std::cmp::Ordering;
use std::sync::Arc;

// How the file's path compares, byte by byte.
fn compare<W>(held: &Arc<Held<W>, Global>, path: &Text) -> Ordering
    ensures { result ≡ slice_cmp nat_cmp (path_in held.now) path.now }
{
    held.path.as_bytes().cmp(path.as_bytes())
}

/// Where the path is among files in path order, or where it belongs.
pub fn find<W>(files: &[Arc<Held<W>, Global>], path: &Text) -> Result<usize, usize>
    requires { AreRising path_in files.now }
    ensures found { IfOk result (IsAt path_in path.now files.now) }
    ensures gap { IfErr result (IsGap path_in path.now files.now) }
{
    files.binary_search_by(|f| compare(f, path))
}

// Whether a path comes after all before a place.
fn is_behind<W>(files: &[Arc<Held<W>, Global>], path: &Text, place: usize) -> bool
    requires rising { AreRising path_in files.now }
    requires within { place ≤ length files.now }
    ensures { IsTrue result → AreBelow path_in path.now (take place files.now) }
{
    place == 0 || compare(&files[place - 1], path).is_lt()
}

// Whether a path is before all from a place on.
fn is_ahead<W>(files: &[Arc<Held<W>, Global>], path: &Text, place: usize) -> bool
    requires rising { AreRising path_in files.now }
    requires within { place ≤ length files.now }
    ensures { IsTrue result → AreAbove path_in path.now (drop place files.now) }
{
    place == files.len() || compare(&files[place], path).is_gt()
}

/// Where the path is among files in path order, or where it belongs: looked for from one place up to another, and among
/// all files if it can't be there.
pub fn find_between<W>(
    files: &[Arc<Held<W>, Global>],
    path: &Text,
    from: usize,
    to: usize,
) -> Result<usize, usize>
    requires rising { AreRising path_in files.now }
    requires bound { (from ≤ to) × (to ≤ length files.now) }
    ensures found { IfOk result (IsAt path_in path.now files.now) }
    ensures gap { IfErr result (IsGap path_in path.now files.now) }
{
    if is_behind(files, path, from) && is_ahead(files, path, to) {
        return match find(&files[from..to], path) {
            Ok(i) => Ok(from + i),
            Err(i) => Err(from + i),
        };
    }
    find(files, path)
}

/// Puts a file in at an index, if there is room for it. It takes no memory.
pub fn insert_within<W: Drop>(
    files: &mut Vec<Arc<Held<W>, Global>>,
    i: usize,
    held: Arc<Held<W>, Global>,
)
    requires within { i ≤ vec_len files.old }
    requires room { vec_len files.old < vec_capacity files.old }
    ensures { files.new.items ≡ insert files.old.items i held }
{
    if files.insert(i, held).is_err() {
        unreachable!();
    }
}

/// Where files in path order are cut at a path: how many are before it, how many with the one that is there, and the
/// change that put that one, if there is one.
pub struct Cut {
    pub before: usize,
    pub behind: usize,
    pub change: Option<u64>,
}

/// Cuts files at a path, which is looked for from one place up to another, and among all files if it can't be there.
pub fn cut_at<W>(files: &[Arc<Held<W>, Global>], path: &Text, from: usize, to: usize) -> Cut
    requires rising { AreRising path_of (held_in files.now) }
    requires bound { (from ≤ to) × (to ≤ length files.now) }
    ensures cut { IsCut path.now (held_in files.now) result.before result.behind }
    ensures change { result.change ≡ number_at path.now (held_in files.now) }
{
    match find_between(files, path, from, to) {
        Ok(i) => Cut {
            before: i,
            behind: i + 1,
            change: Some(files[i].change),
        },
        Err(i) => Cut {
            before: i,
            behind: i,
            change: None,
        },
    }
}

/// Puts the files after those of a list, an owner more for each.
pub fn append_shared<W: Drop>(
    all: &mut Vec<Arc<Held<W>, Global>>,
    files: &[Arc<Held<W>, Global>],
) -> Result<(), Memory>
    ensures { OnOk result (held_in all.new.items ≡ held_in all.old.items ++ held_in files.now) }
{
    for f in files {
        let f = Arc::try_clone(f)?;
        all.push(f)?;
    }
    Ok(())
}

/// Another list of the same files, an owner more for each.
pub fn shared_files<W: Drop>(
    alloc: Global,
    files: &[Arc<Held<W>, Global>],
) -> Result<Vec<Arc<Held<W>, Global>>, Memory>
    ensures { IfOk result (λ all. held_in all.items ≡ held_in files.now) }
{
    let mut all = Vec::with_capacity(alloc, files.len())?;
    append_shared(&mut all, files)?;
    Ok(all)
}
