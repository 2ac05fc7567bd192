ghost use Rattle.std.specs.Prelude.{◌≡◌, IfOk, OnErr, true};
ghost use Rattle.std.specs.Arc.{arc_value};
ghost use Rattle.cq_history.specs.State.{is_done};
ghost use Rattle.cq_kept.specs.Slots.{slot_from, change_of, IsWorked};
ghost use Rattle.cq_board.specs.Edits.{IsEditFor, project_named, put_by};
ghost use Rattle.cq_projects.specs.Ordered.{AreRising};
ghost use Rattle.cq_projects.specs.Projects.{owner_name, projects_in};
ghost use Rattle.cq_board.specs.Turnover.{IsBefore, AddsKept, AddsOwned, OwnersHaveSame, from_option};

use cq_base::{Memory, Settings, Text};
use cq_kept::{Kept, Stored};
use cq_projects::{Draft, Held, Project, ProjectEdit, edit_draft, edit_in};
use cq_shard::Indexed;
use std::alloc::Global;
use std::sync::Arc;

// The project that a change names.
fn project_of(change: &Stored) -> &Arc<Text, Global>
    ensures { arc_value result.now ≡ project_named (change_of change.now) }
{
    match change {
        Stored::Put { file, .. } => &file.project,
        Stored::Drop { file } => &file.project,
        Stored::Gate { key, .. } => &key.project,
    }
}

/// The number of a change that puts a file.
pub fn put_number(change: &Stored, number: u64) -> Option<u64>
    ensures { from_option result ≡ put_by (change_of change.now) number }
{
    match change {
        Stored::Put { .. } => Some(number),
        Stored::Drop { .. } => None,
        Stored::Gate { .. } => None,
    }
}

// The edit that a change asks for, which is done.
fn edit_of<W: Indexed>(
    alloc: Global,
    settings: &Settings,
    number: u64,
    kept: &Kept<W>,
) -> Result<ProjectEdit<W>, Memory>
    requires done { is_done (slot_from kept.now) ≡ true }
    requires work { IsWorked (W.IsWorkOf settings.now) kept.now }
    ensures { IfOk result (IsEditFor (W.IsWorkOf settings.now) number (change_of kept.now.change)) }
{
    match &kept.change {
        Stored::Put { file, lang, .. } => match &kept.work {
            Some(work) => {
                let path = Arc::try_clone(&file.path)?;
                let work = Arc::try_clone(work)?;
                let held = Held {
                    path,
                    change: number,
                    lang: *lang,
                    work,
                };
                Ok(ProjectEdit::Put(Arc::new(alloc, held)?))
            }
            None => unreachable!(),
        },
        Stored::Drop { file } => Ok(ProjectEdit::Drop(Arc::try_clone(&file.path)?)),
        Stored::Gate { conditions, .. } => Ok(ProjectEdit::Gate(Arc::try_clone(conditions)?)),
    }
}

/// Makes one change more, which is the one with the next number and done. It answers the change whose file it replaced or
/// dropped, if there was one.
pub fn apply_change<W: Indexed>(
    alloc: Global,
    settings: &Settings,
    owners: &mut Vec<Arc<Project<W>, Global>>,
    number: u64,
    kept: &Kept<W>,
) -> Result<Option<u64>, Memory>
    requires done { is_done (slot_from kept.now) ≡ true }
    requires work { IsWorked (W.IsWorkOf settings.now) kept.now }
    requires before { IsBefore (W.IsWorkOf settings.now) number (projects_in owners.old.items) }
    ensures names { AreRising owner_name owners.new.items }
    ensures next { IfOk result
        (AddsOwned (W.IsWorkOf settings.now) number kept.now owners.old.items owners.new.items) }
    ensures unchanged { OnErr result (OwnersHaveSame owners.old.items owners.new.items) }
{
    let edit = edit_of(alloc, settings, number, kept)?;
    edit_in(alloc, owners, project_of(&kept.change), edit)
}

/// Makes one change more in the drafts, which is the one with the next number and done. It answers the change whose file it
/// replaced or dropped, if there was one.
pub fn draft_change<W: Indexed>(
    alloc: Global,
    settings: &Settings,
    drafts: &mut Vec<Draft<W>>,
    number: u64,
    kept: &Kept<W>,
) -> Result<Option<u64>, Memory>
    requires done { is_done (slot_from kept.now) ≡ true }
    requires work { IsWorked (W.IsWorkOf settings.now) kept.now }
    requires before { IsBefore (W.IsWorkOf settings.now) number drafts.old.items }
    ensures next { IfOk result
        (AddsKept (W.IsWorkOf settings.now) number kept.now drafts.old.items drafts.new.items) }
{
    let edit = edit_of(alloc, settings, number, kept)?;
    edit_draft(alloc, drafts, project_of(&kept.change), edit)
}
