ghost use Rattle.std.specs.Prelude.{◌≤◌, List, length, IfOk, OnOk};
ghost use Rattle.std.specs.List.{AllByRecursion};
ghost use Rattle.cq_base.specs.declared.change.Change.{Change};
ghost use Rattle.cq_base.specs.declared.settings.Settings.{Settings};
ghost use Rattle.cq_export.specs.Boards.{Holds, IsPublished, IsViewOfAll};
ghost use Rattle.cq_history.specs.State.{changes_in, ready};
ghost use Rattle.cq_tokask.specs.Exported.{IsOfChanges};
ghost use Rattle.cq_tokform.specs.Sound.{IsSoundCondition};

use crate::sharing::{copied, shared};
use cq_base::{Memory, Settings, Text};
use cq_board::{Board, View};
use cq_shard::Indexed;
use cq_tokfile::Snapshot;
use cq_work::Work;
use std::alloc::Global;
use std::sync::ledger::Ledger;

// The version of all changes is published. There is nothing to publish if there are none.
fn publish_all<W: Indexed>(
    alloc: Global,
    settings: &Settings,
    board: &mut Board<W>,
) -> Result<(), Memory>
    requires holds { Holds settings.now board.old }
    requires all { length (changes_in board.old.state) ≤ ready board.old.state }
    ensures { OnOk result (IsPublished settings.now (changes_in board.old.state) board.new) }
{
    let last = board.ready();
    if last == 0 {
        return Ok(());
    }
    match board.publish(alloc, last) {
        Ok(()) => Ok(()),
        Err(Memory) => Err(Memory),
    }
}

// A view of the version of all changes.
fn last_view<L: Ledger>(
    alloc: Global,
    settings: &Settings,
    board: &mut Board<Work<L>>,
) -> Result<View<Work<L>>, Memory>
    requires holds { Holds settings.now board.old }
    requires all { length (changes_in board.old.state) ≤ ready board.old.state }
    ensures { IfOk result (IsViewOfAll settings.now (changes_in board.old.state)) }
{
    publish_all(alloc, settings, board)?;
    let view = board.open(0)?;
    Ok(view)
}

// What a view shows of a project.
fn shown<L: Ledger>(
    alloc: Global,
    view: &View<Work<L>>,
    project: &Text,
) -> Result<Snapshot<L>, Memory>
    ensures shows { IfOk result (λ snapshot. (settings : Settings) (changes : List Change)
        → IsViewOfAll settings changes view.now
        → IsOfChanges settings changes project.now snapshot) }
    ensures conditions { IfOk result
        (λ snapshot. AllByRecursion IsSoundCondition snapshot.conditions.items) }
{
    let files = shared(alloc, view.listing.project(project))?;
    let conditions = copied(alloc, view.listing.conditions(project))?;
    let project = Text::from_bytes(alloc, project.as_bytes())?;
    Ok(Snapshot {
        version: view.version,
        project,
        conditions,
        files,
    })
}

/// The snapshot of a project at the version of all changes, whose works are done.
pub(crate) fn last_version<L: Ledger>(
    alloc: Global,
    settings: &Settings,
    board: &mut Board<Work<L>>,
    project: &Text,
) -> Result<Snapshot<L>, Memory>
    requires holds { Holds settings.now board.old }
    requires all { length (changes_in board.old.state) ≤ ready board.old.state }
    ensures of_changes { IfOk result
        (IsOfChanges settings.now (changes_in board.old.state) project.now) }
    ensures conditions { IfOk result
        (λ snapshot. AllByRecursion IsSoundCondition snapshot.conditions.items) }
{
    let view = last_view(alloc, settings, board)?;
    shown(alloc, &view, project)
}
