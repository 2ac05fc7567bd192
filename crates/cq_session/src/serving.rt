ghost use Rattle.std.specs.Prelude.{◌≡◌, ◌≤◌, length, IfOk, IfErr, IfSome};
ghost use Rattle.cq_base.specs.Settings.{IsInRange};
ghost use Rattle.cq_io.specs.Causes.{HasCause};
ghost use Rattle.cq_lines.specs.Pieces.{HasNoFeed, line_limit};
ghost use Rattle.cq_lines.specs.Runs.{IsFresh};
ghost use Rattle.cq_lines.specs.Serving.{HasCauseOfEnd, HasCauseUntil};
ghost use Rattle.cq_talk.specs.Steps.{Always, MayLead};
ghost use Rattle.cq_session.specs.Keeping.{itself};
ghost use Rattle.cq_session.specs.Overs.{HasSentOrStopped, HasServedUntil, MayStop};
ghost use Rattle.cq_session.specs.Passes.{HasAccepted, HasServed};

use crate::met::{Met, meet, stop_of};
use crate::telling::told;
use crate::{Keeper, NoLog, Server, Stop};
use cq_base::Steps;
use cq_hub::Hub;
use cq_io::{Failed, Gate, Sink, Source, send};
use cq_lines::{AnswersUntil, End, Lines, serve_lines_until};
use cq_reply::{Short, fixed};
use cq_work::Work;
use std::sync::ledger::Ledger;
use std::thread::Threads;

// Writes the reply to a line, which is not too long, and answers whether the session stops there. What the reply names is
// seen from then on. If a line could not be kept, nothing is written.
fn turn<R: Threads + Sync, L: Ledger, H: Hub<Work<L>>, P: Keeper<Work<L>, H>, K: Sink, G: Gate>(
    server: &Server<'_, R, H, P, G>,
    line: &[u8],
    first: bool,
    seen: &mut u64,
    pass: &mut H::Pass,
    sink: &mut K,
    steps: &mut Steps<L>,
) -> Result<Option<Stop>, Failed>
    requires in_range { IsInRange server.now.keyer.now.settings }
    requires hub_settings { H.settings server.now.hub.now ≡ server.now.keyer.now.settings }
    requires keeps { P.Keeps server.now.keeper.now server.now.hub.now }
    requires no_feed { HasNoFeed line.now }
    requires short { length line.now ≤ line_limit }
    requires closed { HasAccepted H.Hub server.now.hub.now pass.old seen.old }
    ensures turns { HasSentOrStopped H.Hub server.now.hub.now pass.old pass.new steps.old steps.new
        seen.old (P.strict server.now.keeper.now) (P.acceptor server.now.keeper.now)
        server.now.keyer.now.settings first line.now
        (K.written sink.old) (K.written sink.new) result seen.new }
    ensures may { IfOk result (λ why. IfSome why
        (MayStop (P.Breaks server.now.keeper.now) (P.strict server.now.keeper.now))) }
    ensures cause { HasCause (K.faults sink.old) (K.faults sink.new) result }
{
    let Some(told) = told(server, line, *seen, pass, steps) else {
        return Ok(Some(Stop::Unkept));
    };
    *seen = (*seen).max(told.number);
    match send(sink, told.line.as_bytes()) {
        Ok(()) => Ok(stop_of(server.keeper, first, told.known)),
        Err(Failed) => Err(Failed),
    }
}

// A talk, between two lines. The pass and the counter have lifetimes of their own, so that what became of each is known
// when the talk is over.
#[derive(Drop)]
struct Talk<'a, 's, 'p, 'c, R, L: Ledger, H: Hub<Work<L>>, P, G> {
    server: &'a Server<'s, R, H, P, G>,
    pass: &'p mut H::Pass,
    met: Met,
    seen: u64,
    steps: &'c mut Steps<L>,
}

impl<
    'a,
    's,
    'p,
    'c,
    R: Threads + Sync,
    L: Ledger,
    H: Hub<Work<L>>,
    P: Keeper<Work<L>, H>,
    G: Gate,
> AnswersUntil for Talk<'a, 's, 'p, 'c, R, L, H, P, G> {
    ghost use Rattle.std.specs.Prelude.{◌≡◌, ℕ, List, true};
    ghost use Rattle.std.specs.Thread.{IsSync};
    ghost use Rattle.cq_base.specs.Settings.{IsInRange};
    ghost use Rattle.cq_history.specs.declared.event.Event.{Event as Happened};
    ghost use Rattle.cq_reply.specs.Written.{line_of as written};
    ghost use Rattle.cq_reply.specs.declared.reply.Reply.{Reply as Told};
    ghost use Rattle.cq_session.specs.Clients.{HasMet, MayGoOn};
    ghost use Rattle.cq_session.specs.Costs.{counted};
    ghost use Rattle.cq_session.specs.Overs.{MayStop};
    ghost use Rattle.cq_session.specs.Passes.{HasAccepted};
    ghost use Rattle.cq_session.specs.Serving.{HasTalked, HasStopped as HasStoppedAt};

    type Stop = Stop;

    ghost Reply = { Told };

    ghost line_of = { written };

    ghost Beginning = { ℕ × List Happened };

    ghost AreReplies = { λ from first now lines replies.
        HasTalked H.Hub now.server.now.keyer.now.settings now.server.now.hub.now
        (P.acceptor now.server.now.keeper.now) from
        (counted first.steps.now now.steps.now (H.asked first.pass.now) (H.asked now.pass.now))
        now.pass.now now.seen lines replies
        × (P.strict now.server.now.keeper.now ≡ true → HasMet now.server.now.keyer.now.settings.chunk now.met lines)
        × (now.server.now.keyer.now.settings ≡ first.server.now.keyer.now.settings) × (now.server.now.hub.now ≡ first.server.now.hub.now)
        × (now.server.now.keeper.now ≡ first.server.now.keeper.now)
        × (now.pass.ghost_name ≡ first.pass.ghost_name) × (now.steps.ghost_name ≡ first.steps.ghost_name) };

    ghost HasStopped = { λ from first now lines replies why.
        HasStoppedAt H.Hub now.server.now.keyer.now.settings now.server.now.hub.now
        (P.acceptor now.server.now.keeper.now) from now.pass.now lines replies why
        × (now.server.now.keyer.now.settings ≡ first.server.now.keyer.now.settings) × (now.server.now.hub.now ≡ first.server.now.hub.now)
        × (now.server.now.keeper.now ≡ first.server.now.keeper.now)
        × (now.pass.ghost_name ≡ first.pass.ghost_name) × (now.steps.ghost_name ≡ first.steps.ghost_name)
        × MayStop (P.Breaks now.server.now.keeper.now) (P.strict now.server.now.keeper.now) why };

    ghost ready = { λ t. IsSync R.row × IsInRange t.server.now.keyer.now.settings
        × (H.settings t.server.now.hub.now ≡ t.server.now.keyer.now.settings)
        × P.Keeps t.server.now.keeper.now t.server.now.hub.now
        × MayGoOn t.met
        × HasAccepted H.Hub t.server.now.hub.now t.pass.now t.seen };

    fn answer<K: Sink>(&mut self, line: &[u8], sink: &mut K) -> Result<Option<Stop>, Failed> {
        let first = meet(&mut self.met);
        match turn(
            self.server,
            line,
            first,
            &mut self.seen,
            self.pass,
            sink,
            self.steps,
        ) {
            Ok(None) => {
                self.met = Met::Client;
                Ok(None)
            }
            Ok(Some(why)) => Ok(Some(why)),
            Err(Failed) => Err(Failed),
        }
    }

    fn answer_long<K: Sink>(&mut self, sink: &mut K) -> Result<Option<Stop>, Failed> {
        let first = meet(&mut self.met);
        match send(sink, fixed(Short::Long).as_bytes()) {
            Ok(()) => match stop_of(self.server.keeper, first, false) {
                None => {
                    self.met = Met::Client;
                    Ok(None)
                }
                Some(why) => Ok(Some(why)),
            },
            Err(Failed) => Err(Failed),
        }
    }
}

/// Answers the lines of a source one by one by calls of a hub, whose pass has no view open. Windows have the keys of
/// `keyer`. If the keeper is strict, and the first line is no JSON object, its reply is the last. A change is accepted by the
/// keeper, which keeps its line before its reply is written; and no version is shown with a change whose line is not kept.
/// Each whole reply is handed to the sink before the next line is cut. Afterwards the pass stands for the history to which
/// the talk came, with no view open. After each answer by a view, and before it is written, the hub is swept; if memory runs
/// out there, the next sweep goes on. Each accepted change, each work before it is done, each shard that was brought up and
/// each view that was opened is reported to the gate. The cutter keeps its limit, so that it may be restarted for another
/// source.
pub fn kept_session<
    R: Threads + Sync,
    L: Ledger,
    H: Hub<Work<L>>,
    P: Keeper<Work<L>, H>,
    S: Source,
    K: Sink,
    G: Gate,
>(
    server: &Server<'_, R, H, P, G>,
    pass: &mut H::Pass,
    lines: &mut Lines,
    source: &mut S,
    sink: &mut K,
    steps: &mut Steps<L>,
) -> Result<End, Stop>
    requires fresh { IsFresh lines.old }
    requires in_range { IsInRange server.now.keyer.now.settings }
    requires hub_settings { H.settings server.now.hub.now ≡ server.now.keyer.now.settings }
    requires keeps { P.Keeps server.now.keeper.now server.now.hub.now }
    requires closed { MayLead H.Stands (H.callers server.now.hub.now) server.now.hub.now pass.old Always }
    ensures served { HasServedUntil H.Hub server.now.hub.now pass.old pass.new steps.old steps.new
        (P.strict server.now.keeper.now) (P.acceptor server.now.keeper.now)
        S.Source K.Sink server.now.keyer.now.settings lines.old.limit source.old source.new sink.old sink.new result }
    ensures may { IfErr result
        (MayStop (P.Breaks server.now.keeper.now) (P.strict server.now.keeper.now)) }
    ensures cause { HasCauseUntil S.Source K.Sink source.old source.new sink.old sink.new result }
    ensures limit { lines.new.limit ≡ lines.old.limit }
{
    let mut talk = Talk {
        server,
        pass,
        met: Met::Nobody,
        seen: 0,
        steps,
    };
    serve_lines_until(&mut talk, lines, source, sink)
}

/// Answers the lines of a source, as `kept_session` does, and keeps none: each change is accepted by its caller.
pub fn session<R: Threads + Sync, L: Ledger, H: Hub<Work<L>>, S: Source, K: Sink, G: Gate>(
    server: &Server<'_, R, H, NoLog, G>,
    pass: &mut H::Pass,
    lines: &mut Lines,
    source: &mut S,
    sink: &mut K,
    steps: &mut Steps<L>,
) -> End
    requires fresh { IsFresh lines.old }
    requires in_range { IsInRange server.now.keyer.now.settings }
    requires hub_settings { H.settings server.now.hub.now ≡ server.now.keyer.now.settings }
    requires closed { MayLead H.Stands (H.callers server.now.hub.now) server.now.hub.now pass.old Always }
    ensures served { HasServed H.Hub server.now.hub.now pass.old pass.new steps.old steps.new itself S.Source K.Sink
        server.now.keyer.now.settings lines.old.limit source.old source.new sink.old sink.new result }
    ensures cause { HasCauseOfEnd S.Source K.Sink source.old source.new sink.old sink.new result }
    ensures limit { lines.new.limit ≡ lines.old.limit }
{
    match kept_session(server, pass, lines, source, sink, steps) {
        Ok(end) => end,
        Err(Stop::Unkept) => unreachable!(),
        Err(Stop::Stranger) => unreachable!(),
    }
}
