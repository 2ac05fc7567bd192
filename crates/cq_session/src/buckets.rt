use crate::project::keep;
use cq_base::{Entry, Memory};
use cq_board::View;
use cq_groups::Buckets;
use cq_hub::Hub;
use cq_projects::ProjectFiles;
use cq_shard::Indexed;
use std::alloc::Global;

/// The buckets of a project's files in a view that the pass has open. It is ready if `files` are those that the view's
/// listing has of one project.
#[derive(Drop)]
pub struct PassBuckets<'a, W: Indexed, H: Hub<W>> {
    pub hub: &'a H,
    pub view: &'a View<W>,
    pub files: &'a ProjectFiles<W>,
    pub pass: &'a mut H::Pass,
}

impl<'a, W: Indexed, H: Hub<W>> Buckets for PassBuckets<'a, W, H> {
    ghost use Rattle.cq_projects.specs.Spotted.{numbers_of};
    ghost use Rattle.cq_session.specs.Projects.{keys_in_files, IsReady};
    ghost use Rattle.cq_session.specs.Moves.{MovesTo};
    ghost use Rattle.cq_session.specs.Moving.{moves_none, moves_then};

    ghost file_changes = { λ b. numbers_of b.files.now };

    ghost file_keys = { λ b. keys_in_files W.keys_in b.files.now };

    ghost asked = { λ b. H.asked b.pass.now };

    ghost ready = { λ b. IsReady H.Stands (H.callers b.hub.now) (W.IsWorkOf (H.settings b.hub.now)) b.hub.now b.view.now b.pass.now b.files.now };

    ghost moved = { λ b d. MovesTo H.Stands H.callers H.alone H.asked (λ hub. W.IsWorkOf (H.settings hub)) (record { hub = b.hub.now; shown = b.view.now; pass = b.pass.now; lent = b.pass.ghost_name }) (record { hub = d.hub.now; shown = d.view.now; pass = d.pass.now; lent = d.pass.ghost_name }) };

    ghost unmoved = { λ b. moves_none H.Stands H.callers H.alone H.asked (λ hub. W.IsWorkOf (H.settings hub)) (record { hub = b.hub.now; shown = b.view.now; pass = b.pass.now; lent = b.pass.ghost_name }) };

    ghost moved_on = { λ b d e one two. moves_then H.Stands H.callers H.alone H.asked (λ hub. W.IsWorkOf (H.settings hub)) (record { hub = b.hub.now; shown = b.view.now; pass = b.pass.now; lent = b.pass.ghost_name }) (record { hub = d.hub.now; shown = d.view.now; pass = d.pass.now; lent = d.pass.ghost_name }) (record { hub = e.hub.now; shown = e.view.now; pass = e.pass.now; lent = e.pass.ghost_name }) one two };

    fn bucket(&mut self, alloc: Global, key: u64) -> Result<Vec<Entry>, Memory> {
        let mut entries = self.hub.read_bucket(alloc, self.view, key, self.pass)?;
        keep(&mut entries, self.files);
        Ok(entries)
    }

    fn pass_over(&mut self, keys: u64) {
        self.hub.count_reads(keys, self.pass);
    }
}
