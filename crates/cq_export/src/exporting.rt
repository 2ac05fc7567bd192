ghost use Rattle.std.specs.Prelude.{◌≡◌, true, All, IfOk, OnErr};
ghost use Rattle.cq_base.specs.Settings.{IsInRange};
ghost use Rattle.cq_export.specs.Boards.{Holds};
ghost use Rattle.cq_export.specs.Exports.{Exports, Writes};
ghost use Rattle.cq_history.specs.State.{changes_in};
ghost use Rattle.cq_tokask.specs.Exported.{IsOfChanges};
ghost use Rattle.cq_names.specs.Names.{is_project};
ghost use Rattle.cq_request.specs.Named.{IsNamed};
ghost use Rattle.cq_tokfile.specs.Snapshot.{IsSoundSnapshot};

use crate::publishing::last_version;
use crate::taking::{Taken, take_changes};
use crate::working::make_all;
use cq_base::{Memory, Settings, Steps, Text};
use cq_board::Board;
use cq_io::{Failed, Sink, Source, send};
use cq_lines::{End, Lines};
use cq_tokfile::{Encoded, Snapshot, encode};
use cq_work::{Keyer, Work};
use std::alloc::Global;
use std::sync::ledger::Ledger;

/// How the writing of a version ended.
#[derive(Clone, Copy, Debug, PartialEq, Eq)]
pub enum Exported {
    /// A whole line is no change, or one that is not accepted, and nothing was written.
    Refused,
    /// The file's body would have more than 268,435,456 bytes, and nothing was written.
    TooLarge,
    /// The lines, or the writing of the file after them, ended so. Nothing was written if the lines did not end with the
    /// source.
    Ended(End),
}

// The snapshot of a project after the changes that a board has accepted.
fn made<L: Ledger>(
    alloc: Global,
    keyer: &Keyer,
    board: &mut Board<Work<L>>,
    project: &Text,
) -> Result<Snapshot<L>, Memory>
    requires in_range { IsInRange keyer.now.settings }
    requires holds { Holds keyer.now.settings board.old }
    requires named { All IsNamed (changes_in board.old.state) }
    requires project { is_project project.now ≡ true }
    ensures of_changes { IfOk result
        (IsOfChanges keyer.now.settings (changes_in board.old.state) project.now) }
    ensures sound { IfOk result (IsSoundSnapshot keyer.now.settings) }
{
    make_all(alloc, keyer, board)?;
    last_version(alloc, &keyer.settings, board, project)
}

// Writes the file of a snapshot.
fn write<L: Ledger, K: Sink>(
    alloc: Global,
    settings: &Settings,
    snapshot: &Snapshot<L>,
    sink: &mut K,
    steps: &mut Steps<L>,
) -> Result<Exported, Memory>
    requires sound { IsSoundSnapshot settings.now snapshot.now }
    ensures writes { IfOk result (Writes K.Sink settings.now snapshot.now sink.old sink.new) }
    ensures unwritten { OnErr result (sink.new ≡ sink.old) }
{
    match encode(alloc, settings, snapshot, steps) {
        Ok(Encoded::Bytes(bytes)) => match send(sink, &bytes) {
            Ok(()) => Ok(Exported::Ended(End::Finished)),
            Err(Failed) => Ok(Exported::Ended(End::WriteFault)),
        },
        Ok(Encoded::TooLarge) => Ok(Exported::TooLarge),
        Err(Memory) => Err(Memory),
    }
}

/// Writes the file of a project at the version of all changes that the lines of a source say, if each of them is accepted
/// after those before it. If memory is refused, nothing is written; bytes may have been taken.
pub fn export<L: Ledger, S: Source, K: Sink>(
    alloc: Global,
    keyer: &Keyer,
    project: &Text,
    source: &mut S,
    sink: &mut K,
    steps: &mut Steps<L>,
) -> Result<Exported, Memory>
    requires in_range { IsInRange keyer.now.settings }
    requires project { is_project project.now ≡ true }
    ensures exports { IfOk result (Exports L S.Source K.Sink keyer.now.settings project.now
        source.old source.new sink.old sink.new) }
    ensures unwritten { OnErr result (sink.new ≡ sink.old) }
{
    let mut board: Board<Work<L>> = Board::new(alloc, &keyer.settings, 1)?;
    let mut lines = Lines::new(alloc, keyer.settings.byte_limit)?;
    match take_changes(alloc, &keyer.settings, &mut board, &mut lines, source)? {
        Taken::All => {}
        Taken::Spent => return Ok(Exported::Ended(End::Spent)),
        Taken::Failed => return Ok(Exported::Ended(End::ReadFault)),
        Taken::Refused => return Ok(Exported::Refused),
    }
    let snapshot = made(alloc, keyer, &mut board, project)?;
    write(alloc, &keyer.settings, &snapshot, sink, steps)
}
