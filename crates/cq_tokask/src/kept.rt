ghost use Rattle.std.specs.Prelude.{◌≡◌, IfOk, OnErr};
ghost use Rattle.cq_base.specs.Settings.{IsInRange};
ghost use Rattle.cq_tokask.specs.Kept.{Asks, TakesNoLine};

use crate::asking::Asking;
use crate::taking::{Front, take_front};
use crate::version::KeptVersion;
use cq_base::{Memory, Steps};
use cq_io::{Sink, Source};
use cq_lines::{End, Lines, serve_lines};
use cq_tokfile::{Loaded, Snapshot, decode};
use cq_work::Keyer;
use std::alloc::Global;
use std::sync::ledger::Ledger;
use std::thread::Threads;

/// How the asking of a kept version ended.
#[derive(Clone, Copy, Debug, PartialEq, Eq)]
pub enum Asked {
    /// The source doesn't begin with a token file of the settings, and nothing was written.
    Refused,
    /// The lines after it ended so; or a read failed before the file was whole, and nothing was written.
    Ended(End),
}

/// Answers the lines after the token file that a source begins with, by its version. `byte_limit` counts the bytes after
/// the file. If memory is refused before the first of these lines is read, nothing is written and no byte after such a
/// file was taken; after that, a reply reports it.
pub fn ask<R: Threads + Sync, L: Ledger, S: Source, K: Sink>(
    rt: &R,
    alloc: Global,
    keyer: &Keyer,
    source: &mut S,
    sink: &mut K,
    steps: &mut Steps<L>,
) -> Result<Asked, Memory>
    requires in_range { IsInRange keyer.now.settings }
    ensures asks { IfOk result
        (Asks L S.Source K.Sink keyer.now.settings source.old source.new sink.old sink.new) }
    ensures no_line { OnErr result (TakesNoLine L S.Source keyer.now.settings source.old source.new) }
    ensures unwritten { OnErr result (sink.new ≡ sink.old) }
{
    let bytes = match take_front(alloc, source)? {
        Front::Framed(bytes) => bytes,
        Front::Other => return Ok(Asked::Refused),
        Front::Failed => return Ok(Asked::Ended(End::ReadFault)),
    };
    let found: Option<Snapshot<L>> = decode(alloc, keyer, &bytes)?;
    let Some(snapshot) = found else {
        return Ok(Asked::Refused);
    };
    let mut loaded = Loaded::new(alloc, &snapshot)?;
    let mut lines = Lines::new(alloc, keyer.settings.byte_limit)?;
    let mut asking = Asking {
        rt,
        alloc,
        kept: KeptVersion {
            settings: &keyer.settings,
            snapshot: &snapshot,
        },
        loaded: &mut loaded,
        steps,
    };
    let end = serve_lines(&mut asking, &mut lines, source, sink);
    Ok(Asked::Ended(end))
}
