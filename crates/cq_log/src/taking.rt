ghost use Rattle.std.specs.Prelude.{◌≡◌, ◌≤◌, false, [], length, IfOk, OnOk};
ghost use Rattle.cq_lines.specs.Pieces.{line_limit};
ghost use Rattle.cq_lines.specs.Runs.{IsFresh};
ghost use Rattle.cq_log.specs.Takers.{HasCauseOfTaking, Takes, TakesLine, mended_by};

use crate::reading::{LogLine, log_line};
use crate::taker::Taker;
use cq_base::{Memory, Settings};
use cq_io::Source;
use cq_lines::{Cut, Lines};
use std::alloc::Global;

/// How the taking of a log ended.
#[derive(Clone, Copy, Debug, PartialEq, Eq)]
pub enum Taken {
    /// The source is at its end, and the taker has what its lines hold.
    All {
        /// The last line has no line feed.
        unclosed: bool,
        /// The last line was cut off.
        torn: bool,
    },
    /// The limit on the bytes was reached.
    Spent,
    /// A read failed.
    Failed,
    /// A line that was taken whole is none that a log may have there.
    Refused,
}

// Takes the change that a line says after a whole line, and answers whether the line was cut off; none if it is refused.
fn take_whole<T: Taker>(
    alloc: Global,
    settings: &Settings,
    taker: &mut T,
    line: &[u8],
) -> Result<Option<bool>, Memory>
    requires ready { T.ready taker.old }
    requires short { length line.now ≤ line_limit }
    ensures takes { IfOk result (TakesLine T.Has settings.now false line.now taker.old taker.new) }
    ensures ready { OnOk result (T.ready taker.new) }
    ensures target { OnOk result (T.target_of taker.new ≡ T.target_of taker.old) }
{
    match log_line(alloc, settings, line)? {
        LogLine::Change(change) => match taker.take(alloc, settings, change, line) {
            Ok(true) => Ok(Some(false)),
            Ok(false) => Ok(None),
            Err(Memory) => Err(Memory),
        },
        LogLine::Torn => Ok(Some(true)),
        LogLine::Other => Ok(None),
    }
}

// A line after one that was cut off, which only an empty line mends.
fn mends(line: &[u8]) -> Option<bool>
    ensures { result ≡ mended_by line.now }
{
    if line.is_empty() {
        return Some(false);
    }
    None
}

// One line more, and whether it was cut off; none if it is refused.
fn take_line<T: Taker>(
    alloc: Global,
    settings: &Settings,
    taker: &mut T,
    torn: bool,
    line: &[u8],
) -> Result<Option<bool>, Memory>
    requires ready { T.ready taker.old }
    requires short { length line.now ≤ line_limit }
    ensures takes { IfOk result (TakesLine T.Has settings.now torn line.now taker.old taker.new) }
    ensures ready { OnOk result (T.ready taker.new) }
    ensures target { OnOk result (T.target_of taker.new ≡ T.target_of taker.old) }
{
    if torn {
        return Ok(mends(line));
    }
    take_whole(alloc, settings, taker, line)
}

/// Hands the changes of a log to a taker, up to the end of the source or the first line that a log may not have there. If
/// memory is refused, some of them were taken.
pub fn take_log<T: Taker, S: Source>(
    alloc: Global,
    settings: &Settings,
    taker: &mut T,
    lines: &mut Lines,
    source: &mut S,
) -> Result<Taken, Memory>
    requires fresh { IsFresh lines.old }
    requires limit { lines.old.limit ≡ settings.now.byte_limit }
    requires ready { T.ready taker.old }
    requires nothing { T.Has taker.old settings.now [] [] }
    ensures takes { IfOk result
        (Takes T.Has settings.now (S.rest source.old) (S.rest source.new) taker.new) }
    ensures target { OnOk result (T.target_of taker.new ≡ T.target_of taker.old) }
    ensures cause { IfOk result (HasCauseOfTaking (S.faults source.old) (S.faults source.new)) }
{
    let mut torn = false;
    let mut unclosed = false;
    'lines: loop {
        match lines.next(source) {
            Cut::Line(line) => match take_line(alloc, settings, taker, torn, line) {
                Ok(Some(now)) => torn = now,
                Ok(None) => return Ok(Taken::Refused),
                Err(Memory) => return Err(Memory),
            },
            Cut::TooLong => return Ok(Taken::Refused),
            Cut::End => return Ok(Taken::All { unclosed, torn }),
            Cut::Spent => return Ok(Taken::Spent),
            Cut::ReadFault => return Ok(Taken::Failed),
        }
        unclosed = lines.is_over();
    }
}
