use crate::telling::told;
use crate::version::KeptVersion;
use cq_base::Steps;
use cq_io::{Failed, Sink, send};
use cq_lines::Answers;
use cq_reply::{Short, fixed};
use cq_tokfile::Loaded;
use std::alloc::Global;
use std::sync::ledger::Ledger;
use std::thread::Threads;

/// What answers lines by a kept version, of which these are the buckets. The replies are written in the order of the lines,
/// each whole except the last if the sink fails.
#[derive(Drop)]
pub(crate) struct Asking<'a, R, L: Ledger> {
    pub rt: &'a R,
    pub alloc: Global,
    pub kept: KeptVersion<'a, L>,
    pub loaded: &'a mut Loaded<L>,
    pub steps: &'a mut Steps<L>,
}

impl<'a, R: Threads + Sync, L: Ledger> Answers for Asking<'a, R, L> {
    ghost use Rattle.std.specs.Prelude.{◌≡◌};
    ghost use Rattle.std.specs.Thread.{IsSync};
    ghost use Rattle.cq_base.specs.Settings.{IsInRange};
    ghost use Rattle.cq_reply.specs.Written.{line_of as written};
    ghost use Rattle.cq_reply.specs.declared.reply.Reply.{Reply as Told};
    ghost use Rattle.cq_tokask.specs.Asked.{AnswersLines};
    ghost use Rattle.cq_tokfile.specs.Loaded.{IsLoadedOf};
    ghost use Rattle.cq_tokfile.specs.Snapshot.{IsSoundSnapshot};

    ghost Reply = { Told };

    ghost line_of = { written };

    ghost Beginning = { Unit {0} };

    ghost AreReplies = { λ from first now lines replies.
        AnswersLines now.kept.snapshot.now now.kept.settings.now lines replies
        × (now.kept.snapshot.now ≡ first.kept.snapshot.now) × (now.kept.settings.now ≡ first.kept.settings.now) };

    ghost ready = { λ a. IsSync R.row × IsInRange a.kept.settings.now
        × IsSoundSnapshot a.kept.settings.now a.kept.snapshot.now
        × IsLoadedOf a.kept.snapshot.now.files a.loaded.now };

    fn answer<K: Sink>(&mut self, line: &[u8], sink: &mut K) -> Result<(), Failed> {
        let line = told(
            self.rt,
            self.alloc,
            &self.kept,
            self.loaded,
            line,
            self.steps,
        );
        send(sink, line.as_bytes())
    }

    fn answer_long<K: Sink>(&mut self, sink: &mut K) -> Result<(), Failed> {
        send(sink, fixed(Short::Long).as_bytes())
    }
}
