ghost use Rattle.std.specs.Prelude.{IfOk, IfSome};
ghost use Rattle.cq_base.specs.Changes.{IsSoundChange};
ghost use Rattle.cq_export.specs.Lines.{SaysOrNot};
ghost use Rattle.cq_request.specs.Reading.{line_says};

use cq_base::{Change, Memory, Settings};
use cq_request::{ReadError, Request, read_request};
use std::alloc::Global;

/// The change that a line asks for, and None if it says anything else.
pub(crate) fn change_said(
    alloc: Global,
    settings: &Settings,
    line: &[u8],
) -> Result<Option<Change>, Memory>
    ensures says { IfOk result (SaysOrNot (line_says settings.now.chunk line.now)) }
    ensures sound { IfOk result (λ change. IfSome change IsSoundChange) }
{
    match read_request(alloc, settings, line) {
        Ok(Request::Change(change)) => Ok(Some(change)),
        Ok(Request::Query(_query)) => Ok(None),
        Ok(Request::State) => Ok(None),
        Err(ReadError::Refused(_refusal)) => Ok(None),
        Err(ReadError::Memory) => Err(Memory),
    }
}
