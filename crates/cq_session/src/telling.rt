ghost use Rattle.std.specs.Prelude.{◌≡◌, ◌≤◌, false, length, IfSome};
ghost use Rattle.cq_base.specs.Settings.{IsInRange};
ghost use Rattle.cq_lines.specs.Pieces.{HasNoFeed, line_limit};
ghost use Rattle.cq_reply.specs.Lines.{bytes_of};
ghost use Rattle.cq_reply.specs.Written.{line_of as line_in};
ghost use Rattle.cq_reply.specs.declared.reply.Reply.TheVariants as reply;
ghost use Rattle.cq_talk.specs.Replies.{named as named_in};
ghost use Rattle.cq_session.specs.Clients.{is_known as known_in, is_object as object_by};
ghost use Rattle.cq_session.specs.Keeping.{IsBroken};
ghost use Rattle.cq_session.specs.Passes.{HasAccepted, HasLine, HasWaited};

use crate::answering::reply_to;
use crate::{Keeper, Server};
use cq_base::{Memory, Refusal, Steps};
use cq_hub::Hub;
use cq_io::Gate;
use cq_reply::{Line, Reply, Short, fixed, line_of};
use cq_work::Work;
use std::sync::ledger::Ledger;
use std::thread::Threads;

// The number that a reply names as change, version or published, or 0 if it names none.
fn named(reply: &Reply) -> u64
    ensures { result ≡ named_in reply.now }
{
    match reply {
        Reply::Change(number) => *number,
        Reply::Files { version, .. } => *version,
        Reply::Groups { version, .. } => *version,
        Reply::Measures { version, .. } => *version,
        Reply::Verdict { version, .. } => *version,
        Reply::Functions { version, .. } => *version,
        Reply::State { published, .. } => *published,
        _ => 0,
    }
}

// Whether a line that is refused for this is a JSON object.
fn is_object(why: &Refusal) -> bool
    ensures { result ≡ object_by why.now }
{
    match why {
        Refusal::Json => false,
        _ => true,
    }
}

// Whether a reply shows that its line was read, and is a JSON object.
fn is_known(reply: &Reply) -> bool
    ensures { result ≡ known_in reply.now }
{
    match reply {
        Reply::Refused(why) => is_object(why),
        Reply::Long => false,
        Reply::Memory => false,
        _ => true,
    }
}

/// The line of a reply, and what the session has to know of the reply.
#[derive(Drop)]
pub(crate) struct ReplyLine {
    pub line: Line,
    /// The number that it names, or 0.
    pub number: u64,
    /// It shows that the line that it answers was read, and is a JSON object.
    pub known: bool,
}

// A reply for which there is no memory.
fn told_memory() -> ReplyLine
    ensures bytes { bytes_of result.line ≡ line_in reply.Memory }
    ensures number { result.number ≡ 0 }
    ensures known { result.known ≡ false }
{
    ReplyLine {
        line: Line::Short(fixed(Short::Memory)),
        number: 0,
        known: false,
    }
}

/// The reply to a line; none if a line could not be kept.
pub(crate) fn told<R: Threads + Sync, L: Ledger, H: Hub<Work<L>>, P: Keeper<Work<L>, H>, G: Gate>(
    server: &Server<'_, R, H, P, G>,
    line: &[u8],
    seen: u64,
    pass: &mut H::Pass,
    steps: &mut Steps<L>,
) -> Option<ReplyLine>
    requires in_range { IsInRange server.now.keyer.now.settings }
    requires hub_settings { H.settings server.now.hub.now ≡ server.now.keyer.now.settings }
    requires keeps { P.Keeps server.now.keeper.now server.now.hub.now }
    requires no_feed { HasNoFeed line.now }
    requires short { length line.now ≤ line_limit }
    requires closed { HasAccepted H.Hub server.now.hub.now pass.old seen }
    ensures line { IfSome result (HasLine H.Hub server.now.hub.now pass.old pass.new
        steps.old steps.new seen (P.acceptor server.now.keeper.now) server.now.keyer.now.settings line.now) }
    ensures broken { IsBroken (P.Breaks server.now.keeper.now)
        (HasWaited H.Hub server.now.hub.now pass.old pass.new) result }
{
    match reply_to(server, line, seen, pass, steps) {
        Ok(Some(reply)) => match line_of(server.alloc, &reply) {
            Ok(line) => Some(ReplyLine {
                line,
                number: named(&reply),
                known: is_known(&reply),
            }),
            Err(Memory) => Some(told_memory()),
        },
        Ok(None) => None,
        Err(Memory) => Some(told_memory()),
    }
}
