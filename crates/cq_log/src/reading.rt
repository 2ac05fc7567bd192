ghost use Rattle.std.specs.Prelude.{◌≡◌, Err, IfOk};
ghost use Rattle.cq_log.specs.Logs.{is_torn};
ghost use Rattle.cq_log.specs.Takers.{IsLogLine, IsSoundLine};
ghost use Rattle.cq_request.specs.Reading.{line_says};

use cq_base::{Change, Memory, Refusal, Settings};
use cq_request::{ReadError, Request, read_request};
use std::alloc::Global;

/// What a line of a log is, if the line before it is whole.
#[derive(Debug, Drop)]
pub enum LogLine {
    /// It says this change.
    Change(Change),
    /// It is no JSON object, as a line that was cut off.
    Torn,
    /// It is nothing that a log has.
    Other,
}

// Whether a line that is refused for this was cut off.
fn was_cut_off(why: &Refusal) -> bool
    ensures { result ≡ is_torn why.now }
{
    match why {
        Refusal::Json => true,
        _ => false,
    }
}

// What a line is that is refused for this.
fn refused_line(why: Refusal) -> LogLine
    ensures is { IsLogLine (Err why) result }
    ensures sound { IsSoundLine result }
{
    if was_cut_off(&why) {
        return LogLine::Torn;
    }
    LogLine::Other
}

/// What a line is.
pub(crate) fn log_line(alloc: Global, settings: &Settings, line: &[u8]) -> Result<LogLine, Memory>
    ensures is { IfOk result (IsLogLine (line_says settings.now.chunk line.now)) }
    ensures sound { IfOk result IsSoundLine }
{
    match read_request(alloc, settings, line) {
        Ok(Request::Change(change)) => Ok(LogLine::Change(change)),
        Ok(Request::Query(_query)) => Ok(LogLine::Other),
        Ok(Request::State) => Ok(LogLine::Other),
        Err(ReadError::Refused(why)) => Ok(refused_line(why)),
        Err(ReadError::Memory) => Err(Memory),
    }
}
