ghost use Rattle.std.specs.Prelude.{◌≡◌, true, false, Err, IfOk, IfErr, IfSome, IsNone};
ghost use Rattle.cq_base.specs.Changes.{IsSoundChange};
ghost use Rattle.cq_lines.specs.LineLogs.{log_at};
ghost use Rattle.cq_talk.specs.Saying.{Says};
ghost use Rattle.cq_talk.specs.declared.unkept.Unkept.TheVariants as unkept;
ghost use Rattle.cq_keeper.specs.Firsts.{AcceptsByFirst};
ghost use Rattle.cq_keeper.specs.Kept.{IsLogOf, RefusesKept};
ghost use Rattle.cq_shared.specs.Answers.{IsTold};
ghost use Rattle.cq_shared.specs.SharedPasses.{IsPassOf, cells_of, settings_of};

use crate::accepting::accept_by_first;
use crate::naming::LogOf;
use cq_base::Change;
use cq_board::Asked;
use cq_chain::Pass;
use cq_io::{Failed, Sink};
use cq_lines::LineLog;
use cq_shard::Indexed;
use cq_shared::Shared;
use cq_talk::Unkept;
use std::alloc::Global;
use std::marker::{Model, PhantomData};
use std::sync::Wait;

/// What is in the lock: the log, and the pass of the first caller, which has seen each acceptance. If each line was written
/// whole, the lines that were written are those of the accepted changes. Contracts see whether each was.
#[derive(Drop)]
pub struct Locked<'a, W: Indexed, K: Sink, N: LogOf> {
    log: LineLog<'a, K>,
    pass: Pass<W>,
    of: PhantomData<N>,
}

impl<'a, W: Indexed, K: Sink, N: LogOf> Model for Locked<'a, W, K, N> {
    ghost use Rattle.std.specs.Prelude.{◌≡◌, Bool};
    ghost use Rattle.cq_lines.specs.LineLogs.{log_at};
    ghost use Rattle.cq_keeper.specs.Kept.{IsLogOf};

    ghost Value = { Bool };

    ghost view = { λ l. l.log.whole };

    ghost invariant = { λ l. (l.log.sink.ghost_name ≡ N.name)
        × IsLogOf K.Sink N.LogOf (log_at l.log.sink.now l.log.whole) l.pass };
}

impl<'a, W: Indexed, K: Sink, N: LogOf> Locked<'a, W, K, N> {
    /// This log, with the pass of the first caller.
    pub fn new(log: LineLog<'a, K>, pass: Pass<W>) -> Self
        requires name { log.sink.ghost_name ≡ N.name }
        requires log { IsLogOf K.Sink N.LogOf (log_at log.sink.now log.whole) pass }
        ensures { result ≡ log.entry.whole }
    {
        Locked {
            log,
            pass,
            of: PhantomData,
        }
    }

    /// Whether each line was written whole.
    pub fn is_whole(&self) -> bool
        ensures { result ≡ self.now }
    {
        self.log.whole
    }

    /// Accepts a change by the first caller and writes the line that says it. What the pass has seen then begins with what it had
    /// seen, and ends with the acceptance.
    pub fn accept<R: Wait>(
        &mut self,
        hub: &Shared<W, R>,
        alloc: Global,
        change: Change,
        line: &[u8],
        pass: &mut Pass<W>,
    ) -> Result<u64, Unkept>
        requires keeps { cells_of hub.now ≡ N.cells }
        requires of { IsPassOf hub.now pass.old }
        requires sound { IsSoundChange change }
        requires says { Says (settings_of hub.now).chunk line.now change }
        ensures accepted { IfOk result (AcceptsByFirst hub.now pass.old pass.new change) }
        ensures refused { IfErr result (RefusesKept hub.now pass.old pass.new change) }
        ensures kept { IfOk result (λ _. self.new ≡ true) }
        ensures broken { result ≡ Err unkept.Broken → self.new ≡ false }
        ensures asked { pass.new.asked ≡ pass.old.asked }
    {
        if !self.log.whole {
            return Err(Unkept::Broken);
        }
        match accept_by_first(hub, alloc, change, &mut self.pass, pass) {
            Ok(number) => match self.log.keep(line) {
                Ok(()) => Ok(number),
                Err(Failed) => Err(Unkept::Broken),
            },
            Err(cause) => Err(Unkept::Refused(cause)),
        }
    }

    /// What a caller sees of the changes, each of which has its line; none if a line was not written whole.
    pub fn ask<R: Wait>(&self, hub: &Shared<W, R>, pass: &mut Pass<W>) -> Option<Asked>
        requires of { IsPassOf hub.now pass.old }
        ensures told { IfSome result (IsTold hub.now pass.old pass.new) }
        ensures still { IsNone result → pass.new ≡ pass.old }
        ensures broken { IsNone result → self.now ≡ false }
        ensures asked { pass.new.asked ≡ pass.old.asked }
    {
        if !self.log.whole {
            return None;
        }
        Some(hub.ask(pass))
    }

    /// The log, with the pass by which its changes were accepted.
    pub fn into_log(self) -> (LineLog<'a, K>, Pass<W>)
        ensures whole { result.0.whole ≡ self.entry }
        ensures name { result.0.sink.ghost_name ≡ N.name }
        ensures log { IsLogOf K.Sink N.LogOf (log_at result.0.sink.now result.0.whole) result.1 }
    {
        let Locked { log, pass, of: _ } = self;
        (log, pass)
    }
}
