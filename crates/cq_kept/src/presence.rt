ghost use Rattle.std.specs.Prelude.{[], OnOk, OnErr};
ghost use Rattle.cq_kept.specs.Slots.{change_of};
ghost use Rattle.cq_kept.specs.Presence.{IsPresence, AddsPlace, TellsIfThere, ShowsTheSame};

use crate::kept::{FileKey, ProjectKey, Stored};
use crate::over::{Over, note_over};
use cq_base::Memory;
use std::alloc::Global;
use std::collections::{BTreeMap, VecDeque};

/// For each place that has a file, the change that put it there; the last gate of each project that has one; and the
/// changes that are over, in the order of those that made them so.
#[derive(Drop)]
pub struct Presence {
    pub puts: BTreeMap<FileKey, u64>,
    pub gates: BTreeMap<ProjectKey, u64>,
    pub over: VecDeque<Over>,
}

impl Presence {
    /// No files and no gates. It takes no memory.
    pub fn new(alloc: Global) -> Presence
        ensures { IsPresence [] 0 result }
    {
        Presence {
            puts: BTreeMap::new(alloc),
            gates: BTreeMap::new(alloc),
            over: VecDeque::new(alloc),
        }
    }

    /// Whether there is a file at a place.
    pub fn has(&self, file: &FileKey) -> bool
        ensures { TellsIfThere self.now file.now result }
    {
        self.puts.contains_key(file)
    }
}

/// Where files are after one change more, of this number, and what is over then. If memory is refused it is as before.
pub fn note(there: &mut Presence, number: u64, change: &Stored) -> Result<(), Memory>
    ensures more { OnOk result (AddsPlace number (change_of change.now) there.old there.new) }
    ensures same { OnErr result (ShowsTheSame there.old there.new) }
{
    there.over.reserve(2)?;
    match change {
        Stored::Put { file, .. } => {
            let key = file.shared()?;
            let replaced = there.puts.insert(key, number)?;
            note_over(&mut there.over, number, replaced);
        }
        Stored::Drop { file } => {
            let dropped = there.puts.remove(file);
            note_over(&mut there.over, number, dropped);
            note_over(&mut there.over, number, Some(number));
        }
        Stored::Gate { key, .. } => {
            let key = key.shared()?;
            let replaced = there.gates.insert(key, number)?;
            note_over(&mut there.over, number, replaced);
        }
    }
    Ok(())
}
