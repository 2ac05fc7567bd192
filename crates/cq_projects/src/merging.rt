//! The list of a project's files with a batch of edits, made in one walk in path order.
ghost use Rattle.std.specs.Prelude.{◌≡◌, ◌++◌, ◌-◌, take, drop, IfOk, OnOk};
ghost use Rattle.std.specs.Vec.Iter.{into_iter_items};
ghost use Rattle.cq_projects.specs.Drafts.{files_at, held_in, AreOwn, AreCut, AreMerged, Joins};

use crate::held::Held;
use cq_base::{Memory, Text};
use std::alloc::Global;
use std::collections::BTreeMap;
use std::sync::Arc;
use std::vec::IntoIter;

/// What a batch makes of a path: the file there, or none if its last change there drops it. It keeps how many of the
/// project's files are before the path, and how many with the one that is there.
#[derive(Drop)]
pub struct Named<W> {
    pub before: usize,
    pub behind: usize,
    pub file: Option<Arc<Held<W>, Global>>,
}

// Moves this many of the files that are left after those that are done.
fn append_moved<W: Drop>(
    done: &mut Vec<Arc<Held<W>, Global>>,
    rest: &mut IntoIter<Arc<Held<W>, Global>, Global>,
    count: usize,
) -> Result<(), Memory>
    ensures moved { OnOk result
        (done.new.items ≡ done.old.items ++ take count (into_iter_items rest.old)) }
    ensures left { OnOk result (into_iter_items rest.new ≡ drop count (into_iter_items rest.old)) }
{
    for _step in 0..count {
        if let Some(held) = rest.next() {
            done.push(held)?;
        }
    }
    Ok(())
}

// Drops this many of the files that are left.
fn let_go<W: Drop>(rest: &mut IntoIter<Arc<Held<W>, Global>, Global>, count: usize)
    ensures { into_iter_items rest.new ≡ drop count (into_iter_items rest.old) }
{
    for _step in 0..count {
        drop(rest.next());
    }
}

// Moves the files before a path after those that are done, and puts the file that is to be there. The one that was
// there is dropped.
fn merge_one<W: Drop>(
    done: &mut Vec<Arc<Held<W>, Global>>,
    rest: &mut IntoIter<Arc<Held<W>, Global>, Global>,
    before: usize,
    gone: usize,
    file: Option<Arc<Held<W>, Global>>,
) -> Result<(), Memory>
    ensures joined { OnOk result
        (Joins before file (into_iter_items rest.old) done.old.items done.new.items) }
    ensures left { OnOk result
        (into_iter_items rest.new ≡ drop gone (drop before (into_iter_items rest.old))) }
{
    append_moved(done, rest, before)?;
    let_go(rest, gone);
    if let Some(held) = file {
        done.push(held)?;
    }
    Ok(())
}

/// The files of a project with what is to be at some paths. Each owner is moved; it makes a new list, 8 bytes a file.
pub fn merged<W: Drop>(
    alloc: Global,
    files: Vec<Arc<Held<W>, Global>>,
    mut paths: BTreeMap<Arc<Text, Global>, Named<W>>,
) -> Result<Vec<Arc<Held<W>, Global>>, Memory>
    requires cut { AreCut (held_in files.items) paths.entries }
    requires own { AreOwn (files_at paths.entries) }
    ensures { IfOk result (AreMerged paths.entries files.items) }
{
    let len = files.len();
    let mut done = Vec::with_capacity(alloc, len.saturating_add(paths.len()))?;
    let mut rest = files.into_iter();
    let mut from = 0;
    while let Some((_path, named)) = paths.pop_first() {
        let behind = named.behind;
        let before = named.before - from;
        let gone = behind - named.before;
        merge_one(&mut done, &mut rest, before, gone, named.file)?;
        from = behind;
    }
    append_moved(&mut done, &mut rest, len - from)?;
    Ok(done)
}
