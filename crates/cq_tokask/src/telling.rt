ghost use Rattle.std.specs.Prelude.{◌≡◌, ◌≤◌, length};
ghost use Rattle.cq_base.specs.Settings.{IsInRange};
ghost use Rattle.cq_tokask.specs.Asked.{AnswersLine};
ghost use Rattle.cq_lines.specs.Pieces.{line_limit};
ghost use Rattle.cq_reply.specs.Lines.{bytes_of};
ghost use Rattle.cq_reply.specs.Written.{line_of};
ghost use Rattle.cq_reply.specs.declared.reply.Reply.{Reply};
ghost use Rattle.cq_tokfile.specs.Loaded.{IsLoadedOf};
ghost use Rattle.cq_tokfile.specs.Snapshot.{IsSoundSnapshot};

use crate::answering::reply_to;
use crate::version::KeptVersion;
use cq_base::{Memory, Steps};
use cq_reply::{Line, Short, fixed, line_of};
use cq_tokfile::Loaded;
use std::alloc::Global;
use std::sync::ledger::Ledger;
use std::thread::Threads;

/// The line of the reply to a line, which is not too long.
pub(crate) fn told<R: Threads + Sync, L: Ledger>(
    rt: &R,
    alloc: Global,
    kept: &KeptVersion<'_, L>,
    loaded: &mut Loaded<L>,
    line: &[u8],
    steps: &mut Steps<L>,
) -> Line
    requires in_range { IsInRange kept.now.settings.now }
    requires sound { IsSoundSnapshot kept.now.settings.now kept.now.snapshot.now }
    requires loaded { IsLoadedOf kept.now.snapshot.now.files loaded.old }
    requires short { length line.now ≤ line_limit }
    ensures told { (reply : Reply) × AnswersLine kept.now.snapshot.now kept.now.settings.now line.now reply
        × (bytes_of result ≡ line_of reply) }
    ensures loaded { IsLoadedOf kept.now.snapshot.now.files loaded.new }
{
    match reply_to(rt, alloc, kept, loaded, line, steps) {
        Ok(reply) => match line_of(alloc, &reply) {
            Ok(line) => line,
            Err(Memory) => Line::Short(fixed(Short::Memory)),
        },
        Err(Memory) => Line::Short(fixed(Short::Memory)),
    }
}
