ghost use Rattle.std.specs.Prelude.{◌≡◌, ℕ, Bool, Err, IfOk, IfErr, IfSome, IsNone};
ghost use Rattle.cq_base.specs.Changes.{IsSoundChange};
ghost use Rattle.cq_hub.specs.Answers.{IsTold};
ghost use Rattle.cq_hub.specs.Hubs.{IsPassOf};
ghost use Rattle.cq_talk.specs.Saying.{Says};
ghost use Rattle.cq_talk.specs.declared.unkept.Unkept.TheVariants as unkept;
ghost use Rattle.cq_session.specs.Keeping.{AcceptsBy, RefusesKept};

use cq_base::Change;
use cq_board::Asked;
use cq_hub::Hub;
use cq_shard::Indexed;
use cq_talk::Unkept;
use std::alloc::Global;

/// Who accepts the changes of sessions, and keeps the line of each before its reply is written.
pub trait Keeper<W: Indexed, H: Hub<W>> {
    // the caller by whom a change is accepted that the caller with this number sends
    ghost acceptor: { Self → ℕ → ℕ };

    // it keeps the changes of this hub
    ghost Keeps: { Self → H → Type 0 };

    // a line may fail to be written
    ghost Breaks: { Self → Type 0 };

    // a session ends after a first line that is no JSON object
    ghost strict: { Self → Bool };

    /// Whether a session ends after a first line that is no JSON object. A browser's first line is none, so it has no second.
    fn is_strict(&self) -> bool
        ensures { result ≡ strict self.now };

    /// Accepts a change that a line says, keeps the line, and answers the number of the change. After `Broken` the change may
    /// be accepted, but no reply reports it.
    fn accept(
        &self,
        hub: &H,
        alloc: Global,
        change: Change,
        line: &[u8],
        pass: &mut H::Pass,
    ) -> Result<u64, Unkept>
        requires keeps { Keeps self.now hub.now }
        requires stands { IsPassOf H.Stands hub.now pass.old }
        requires sound { IsSoundChange change }
        requires says { Says (H.settings hub.now).chunk line.now change }
        ensures accepted { IfOk result
            (AcceptsBy H.Hub hub.now pass.old pass.new (acceptor self.now) change) }
        ensures refused { IfErr result (RefusesKept H.Hub hub.now pass.old pass.new change) }
        ensures broken { result ≡ Err unkept.Broken → Breaks self.now }
        ensures asked { H.asked pass.new ≡ H.asked pass.old };

    /// What a caller sees of the changes while no line is half written; none once a line could not be written. So a version
    /// that is published by this answer has no change whose line is not kept.
    fn ask(&self, hub: &H, pass: &mut H::Pass) -> Option<Asked>
        requires stands { IsPassOf H.Stands hub.now pass.old }
        ensures asks { IfSome result
            (IsTold H.Stands H.alone H.settings H.callers hub.now pass.old pass.new) }
        ensures still { IsNone result → pass.new ≡ pass.old }
        ensures broken { IsNone result → Breaks self.now }
        ensures asked { H.asked pass.new ≡ H.asked pass.old };
}

/// Keeps no line: changes are accepted by those who send them.
#[derive(Clone, Copy, Debug, PartialEq, Eq)]
pub struct NoLog;

impl<W: Indexed, H: Hub<W>> Keeper<W, H> for NoLog {
    ghost use Rattle.std.specs.Prelude.{false};
    ghost use Rattle.cq_session.specs.Keeping.{itself};

    ghost acceptor = { λ keeper. itself };

    ghost Keeps = { λ keeper hub. Unit {0} };

    ghost Breaks = { λ keeper. ⊥ };

    ghost strict = { λ keeper. false };

    fn is_strict(&self) -> bool {
        false
    }

    fn accept(
        &self,
        hub: &H,
        alloc: Global,
        change: Change,
        _line: &[u8],
        pass: &mut H::Pass,
    ) -> Result<u64, Unkept> {
        match hub.accept(alloc, change, pass) {
            Ok(number) => Ok(number),
            Err(cause) => Err(Unkept::Refused(cause)),
        }
    }

    fn ask(&self, hub: &H, pass: &mut H::Pass) -> Option<Asked> {
        Some(hub.ask(pass))
    }
}
