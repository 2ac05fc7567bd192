ghost use Rattle.std.specs.Prelude.{◌≡◌, ◌≤◌, [], length, IfOk};
ghost use Rattle.cq_board.specs.Stands.{IsCaller};
ghost use Rattle.cq_export.specs.Lines.{HasAccepted, HasCauseOfTaking, Takes, TakesLine};
ghost use Rattle.cq_lines.specs.Pieces.{line_limit};
ghost use Rattle.cq_lines.specs.Runs.{IsFresh};

use crate::saying::change_said;
use cq_base::{Memory, Settings};
use cq_board::{Board, Refused};
use cq_io::Source;
use cq_lines::{Cut, Lines};
use cq_shard::Indexed;
use std::alloc::Global;

/// How the taking of lines that are changes ended.
#[derive(Clone, Copy, Debug, PartialEq, Eq)]
pub(crate) enum Taken {
    /// The source is at its end, and all lines were accepted.
    All,
    /// The limit on the bytes was reached.
    Spent,
    /// A read failed.
    Failed,
    /// A line that was taken whole is no change that is accepted.
    Refused,
}

// Accepts the change that a line says, and answers whether it is one that is accepted.
fn take_line<W: Indexed>(
    alloc: Global,
    settings: &Settings,
    board: &mut Board<W>,
    line: &[u8],
) -> Result<bool, Memory>
    requires caller { IsCaller board.old 0 }
    requires short { length line.now ≤ line_limit }
    ensures takes { IfOk result (TakesLine settings.now line.now board.old board.new) }
{
    let Some(change) = change_said(alloc, settings, line)? else {
        return Ok(false);
    };
    match board.accept(alloc, 0, change) {
        Ok(_number) => Ok(true),
        Err(Refused::Absent) => Ok(false),
        Err(Refused::FullChanges) => Ok(false),
        Err(Refused::FullText) => Ok(false),
        Err(Refused::Memory) => Err(Memory),
    }
}

/// Accepts the changes that the lines of a source say, up to the first line that is none or is not accepted.
pub(crate) fn take_changes<W: Indexed, S: Source>(
    alloc: Global,
    settings: &Settings,
    board: &mut Board<W>,
    lines: &mut Lines,
    source: &mut S,
) -> Result<Taken, Memory>
    requires fresh { IsFresh lines.old }
    requires limit { lines.old.limit ≡ settings.now.byte_limit }
    requires nothing { HasAccepted settings.now [] board.old }
    ensures takes { IfOk result
        (Takes settings.now (S.rest source.old) (S.rest source.new) board.new) }
    ensures cause { IfOk result (HasCauseOfTaking (S.faults source.old) (S.faults source.new)) }
{
    'lines: loop {
        match lines.next(source) {
            Cut::Line(line) => match take_line(alloc, settings, board, line) {
                Ok(true) => {}
                Ok(false) => return Ok(Taken::Refused),
                Err(Memory) => return Err(Memory),
            },
            Cut::TooLong => return Ok(Taken::Refused),
            Cut::End => return Ok(Taken::All),
            Cut::Spent => return Ok(Taken::Spent),
            Cut::ReadFault => return Ok(Taken::Failed),
        }
    }
}
