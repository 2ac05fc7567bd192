use cq_base::{Entry, Memory, Settings};
use cq_core::Core;
use cq_groups::Buckets;
use cq_projects::ProjectFiles;
use cq_session::keep;
use cq_work::Work;
use std::alloc::Global;
use std::sync::ledger::Ledger;

/// The buckets of a project's files in the view that a caller of a core has open: those of the key's shard, without the
/// entries of other projects. It is ready if `files` are those that the view's listing has of one project.
#[derive(Drop)]
pub(crate) struct CoreBuckets<'a, L: Ledger> {
    pub(crate) core: &'a Core<Work<L>>,
    pub(crate) settings: &'a Settings,
    pub(crate) by: u32,
    pub(crate) files: &'a ProjectFiles<Work<L>>,
    pub(crate) asked: u64,
}

impl<'a, L: Ledger> Buckets for CoreBuckets<'a, L> {
    ghost use Rattle.cq_session.specs.Projects.{keys_in_files};
    ghost use Rattle.cq_projects.specs.Spotted.{numbers_of};
    ghost use Rattle.cq_drive.specs.Cores.{keys_of};
    ghost use Rattle.cq_drive.specs.Views.{IsInView};

    ghost file_changes = { λ b. numbers_of b.files.now };

    ghost file_keys = { λ b. keys_in_files keys_of b.files.now };

    ghost asked = { λ b. b.asked };

    ghost ready = { λ b. IsInView L b.settings.now b.core.now b.by b.files.now };

    ghost moved = { λ b d. Unit {0} };

    ghost unmoved = { λ b. tt };

    ghost moved_on = { λ b d e one two. tt };

    fn bucket(&mut self, alloc: Global, key: u64) -> Result<Vec<Entry>, Memory> {
        self.asked = self.asked.saturating_add(1);
        let shard = (key % u64::from(self.settings.shards)) as u32;
        match self.core.read(alloc, self.by, shard, key)? {
            Some(mut entries) => {
                keep(&mut entries, self.files);
                Ok(entries)
            }
            None => unreachable!(),
        }
    }

    fn pass_over(&mut self, keys: u64) {
        self.asked = self.asked.saturating_add(keys);
    }
}
