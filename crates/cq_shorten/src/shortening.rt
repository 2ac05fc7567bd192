ghost use Rattle.std.specs.Prelude.{◌≡◌, IfOk, OnErr};
ghost use Rattle.cq_base.specs.Settings.{IsInRange};
ghost use Rattle.cq_shorten.specs.Shortened.{Shortens};

use crate::held::Shortener;
use cq_base::{Memory, Settings};
use cq_io::{Failed, Sink, Source};
use cq_lines::{End, Lines};
use cq_log::{Taken, take_log};
use std::alloc::Global;

/// How the shortening of a log ended.
#[derive(Clone, Copy, Debug, PartialEq, Eq)]
pub enum Shortened {
    /// A line is none that a log may have there, and nothing was written.
    Refused,
    /// The lines, or the writing after them, ended so. Nothing was written if the lines did not end with the source.
    Ended(End),
}

/// Reads a log to its end, and writes the lines of the changes that its last version needs. A last line that was cut off is
/// omitted. If memory is refused, nothing is written; bytes may have been taken.
pub fn shorten<S: Source, K: Sink>(
    alloc: Global,
    settings: &Settings,
    source: &mut S,
    sink: &mut K,
) -> Result<Shortened, Memory>
    requires in_range { IsInRange settings.now }
    ensures shortens { IfOk result (Shortens S.Source K.Sink settings.now
        source.old source.new sink.old sink.new) }
    ensures unwritten { OnErr result (sink.new ≡ sink.old) }
{
    let mut shortener = Shortener::new(alloc, settings);
    let mut lines = Lines::new(alloc, settings.byte_limit)?;
    match take_log(alloc, settings, &mut shortener, &mut lines, source)? {
        Taken::All {
            unclosed: _,
            torn: _,
        } => {}
        Taken::Spent => return Ok(Shortened::Ended(End::Spent)),
        Taken::Failed => return Ok(Shortened::Ended(End::ReadFault)),
        Taken::Refused => return Ok(Shortened::Refused),
    }
    match shortener.write(sink) {
        Ok(()) => Ok(Shortened::Ended(End::Finished)),
        Err(Failed) => Ok(Shortened::Ended(End::WriteFault)),
    }
}
