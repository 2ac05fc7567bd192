ghost use Rattle.std.specs.Prelude.{◌≡◌, ◌≤◌, length, IfOk, IfSome, OnErr};
ghost use Rattle.cq_answer.specs.Parts.{HasPath, HasScope};
ghost use Rattle.cq_base.specs.Changes.{IsSoundChange};
ghost use Rattle.cq_base.specs.Settings.{IsInRange};
ghost use Rattle.cq_hub.specs.Hubs.{IsPassOf};
ghost use Rattle.cq_talk.specs.Saying.{Says};
ghost use Rattle.cq_lines.specs.Pieces.{HasNoFeed, line_limit};
ghost use Rattle.cq_reply.specs.Written.{IsReplyText};
ghost use Rattle.cq_session.specs.Keeping.{IsBroken};
ghost use Rattle.cq_session.specs.Passes.{Begins, GivesUp, HasAccepted, HasAnswered, HasChanged, HasTold, HasWaited, Replies};

use crate::helping::help;
use crate::viewing::view_reply;
use crate::{Keeper, NoLog, Server};
use cq_answer::cause_told;
use cq_base::{Change, Memory, Refusal, Steps};
use cq_board::Refused;
use cq_hub::Hub;
use cq_io::Gate;
use cq_reply::Reply;
use cq_request::{Query, ReadError, Request, read_request};
use cq_shard::Indexed;
use cq_talk::Unkept;
use cq_work::Work;
use std::sync::ledger::Ledger;
use std::thread::Threads;

// The reply to a change that a line says; none if its line could not be kept.
fn change_reply<R, W: Indexed, H: Hub<W>, P: Keeper<W, H>, G: Gate>(
    server: &Server<'_, R, H, P, G>,
    change: Change,
    line: &[u8],
    pass: &mut H::Pass,
) -> Result<Option<Reply>, Memory>
    requires keeps { P.Keeps server.now.keeper.now server.now.hub.now }
    requires stands { IsPassOf H.Stands server.now.hub.now pass.old }
    requires sound { IsSoundChange change }
    requires says { Says (H.settings server.now.hub.now).chunk line.now change }
    ensures replies { IfOk result (λ reply. IfSome reply
        (HasChanged H.Hub server.now.hub.now pass.old pass.new (P.acceptor server.now.keeper.now) change)) }
    ensures text { IfOk result (λ reply. IfSome reply IsReplyText) }
    ensures broken { IfOk result (IsBroken (P.Breaks server.now.keeper.now)
        (HasWaited H.Hub server.now.hub.now pass.old pass.new)) }
    ensures refused { OnErr result (HasWaited H.Hub server.now.hub.now pass.old pass.new) }
    ensures asked { H.asked pass.new ≡ H.asked pass.old }
{
    match server
        .keeper
        .accept(server.hub, server.alloc, change, line, pass)
    {
        Ok(number) => {
            server.gate.after_accept(number);
            Ok(Some(Reply::Change(number)))
        }
        Err(Unkept::Refused(cause)) => match cause {
            Refused::Memory => Err(Memory),
            _ => Ok(Some(cause_told(cause))),
        },
        Err(Unkept::Broken) => Ok(None),
    }
}

// The reply that reports the state; none if a line could not be kept.
fn state_reply<R, W: Indexed, H: Hub<W>, P: Keeper<W, H>, G>(
    server: &Server<'_, R, H, P, G>,
    pass: &mut H::Pass,
) -> Option<Reply>
    requires stands { IsPassOf H.Stands server.now.hub.now pass.old }
    ensures replies { IfSome result (HasTold H.Hub server.now.hub.now pass.old pass.new) }
    ensures text { IfSome result IsReplyText }
    ensures broken { IsBroken (P.Breaks server.now.keeper.now)
        (HasWaited H.Hub server.now.hub.now pass.old pass.new) result }
    ensures asked { H.asked pass.new ≡ H.asked pass.old }
{
    let Some(asked) = server.keeper.ask(server.hub, pass) else {
        return None;
    };
    Some(Reply::State {
        accepted: asked.accepted,
        done: asked.done,
        published: asked.published,
    })
}

// The version up to which a query publishes that does no works. If all changes are done, these are all of them. If not,
// they are those of its floor: what others have uploaded takes long to publish, and those who wait for it do that.
fn without_works(floor: u64, done: u64, accepted: u64) -> u64
    requires { floor ≤ done }
    ensures recent { floor ≤ result }
    ensures done { result ≤ done }
{
    if done == accepted { done } else { floor }
}

// The reply to a query whose floor is at least `seen`; none if a line could not be kept, and then nothing was done. After an
// answer by a view the hub is swept. If memory runs out, what was done is a beginning of what the query does.
fn kept_query_reply<R: Threads + Sync, L: Ledger, H: Hub<Work<L>>, P: Keeper<Work<L>, H>, G: Gate>(
    server: &Server<'_, R, H, P, G>,
    query: &Query,
    seen: u64,
    pass: &mut H::Pass,
    steps: &mut Steps<L>,
) -> Result<Option<Reply>, Memory>
    requires in_range { IsInRange server.now.keyer.now.settings }
    requires hub_settings { H.settings server.now.hub.now ≡ server.now.keyer.now.settings }
    requires long { server.now.keyer.now.settings.chunk ≤ query.now.min }
    requires path { HasPath query.now.kind query.now.path }
    requires scope { HasScope query.now.path query.now.scope }
    requires closed { HasAccepted H.Hub server.now.hub.now pass.old seen }
    ensures replies { IfOk result (λ reply. IfSome reply
        (HasAnswered H.Hub server.now.hub.now pass.old pass.new steps.old steps.new seen query.now)) }
    ensures text { IfOk result (λ reply. IfSome reply IsReplyText) }
    ensures broken { IfOk result (IsBroken (P.Breaks server.now.keeper.now)
        (HasWaited H.Hub server.now.hub.now pass.old pass.new)) }
    ensures refused { OnErr result
        (GivesUp H.Hub server.now.hub.now pass.old pass.new steps.old steps.new seen query.now) }
{
    let Some(asked) = server.keeper.ask(server.hub, pass) else {
        return Ok(None);
    };
    if query.at > asked.accepted {
        return Ok(Some(Reply::Refused(Refusal::Future(asked.accepted))));
    }
    if query.finish {
        return match help(server, asked.done, asked.accepted, pass) {
            Ok(()) => match view_reply(server, query, asked.accepted, pass, steps) {
                Ok(reply) => Ok(Some(reply)),
                Err(Memory) => Err(Memory),
            },
            Err(Memory) => Err(Memory),
        };
    }
    let floor = seen.max(query.at);
    if floor > asked.done {
        return Ok(Some(Reply::Pending(asked.done + 1)));
    }
    let to = without_works(floor, asked.done, asked.accepted);
    match view_reply(server, query, to, pass, steps) {
        Ok(reply) => Ok(Some(reply)),
        Err(Memory) => Err(Memory),
    }
}

/// The reply to a query whose floor is at least `seen`. After an answer by a view the hub is swept. If memory runs
/// out, what was done is a beginning of what the query does.
pub fn query_reply<R: Threads + Sync, L: Ledger, H: Hub<Work<L>>, G: Gate>(
    server: &Server<'_, R, H, NoLog, G>,
    query: &Query,
    seen: u64,
    pass: &mut H::Pass,
    steps: &mut Steps<L>,
) -> Result<Reply, Memory>
    requires in_range { IsInRange server.now.keyer.now.settings }
    requires hub_settings { H.settings server.now.hub.now ≡ server.now.keyer.now.settings }
    requires long { server.now.keyer.now.settings.chunk ≤ query.now.min }
    requires path { HasPath query.now.kind query.now.path }
    requires scope { HasScope query.now.path query.now.scope }
    requires closed { HasAccepted H.Hub server.now.hub.now pass.old seen }
    ensures replies { IfOk result
        (HasAnswered H.Hub server.now.hub.now pass.old pass.new steps.old steps.new seen query.now) }
    ensures text { IfOk result IsReplyText }
    ensures refused { OnErr result
        (GivesUp H.Hub server.now.hub.now pass.old pass.new steps.old steps.new seen query.now) }
{
    match kept_query_reply(server, query, seen, pass, steps) {
        Ok(Some(reply)) => Ok(reply),
        Ok(None) => unreachable!(),
        Err(Memory) => Err(Memory),
    }
}

/// The reply to what a line says; none if a line could not be kept. If memory runs out, what was done is a beginning of what
/// the line does.
pub(crate) fn reply_to<
    R: Threads + Sync,
    L: Ledger,
    H: Hub<Work<L>>,
    P: Keeper<Work<L>, H>,
    G: Gate,
>(
    server: &Server<'_, R, H, P, G>,
    line: &[u8],
    seen: u64,
    pass: &mut H::Pass,
    steps: &mut Steps<L>,
) -> Result<Option<Reply>, Memory>
    requires in_range { IsInRange server.now.keyer.now.settings }
    requires hub_settings { H.settings server.now.hub.now ≡ server.now.keyer.now.settings }
    requires keeps { P.Keeps server.now.keeper.now server.now.hub.now }
    requires no_feed { HasNoFeed line.now }
    requires short { length line.now ≤ line_limit }
    requires closed { HasAccepted H.Hub server.now.hub.now pass.old seen }
    ensures replies { IfOk result (λ reply. IfSome reply (Replies H.Hub server.now.hub.now pass.old pass.new
        steps.old steps.new seen (P.acceptor server.now.keeper.now) server.now.keyer.now.settings line.now)) }
    ensures text { IfOk result (λ reply. IfSome reply IsReplyText) }
    ensures broken { IfOk result (IsBroken (P.Breaks server.now.keeper.now)
        (HasWaited H.Hub server.now.hub.now pass.old pass.new)) }
    ensures refused { OnErr result (Begins H.Hub server.now.hub.now pass.old pass.new
        steps.old steps.new seen server.now.keyer.now.settings line.now) }
{
    match read_request(server.alloc, &server.keyer.settings, line) {
        Ok(Request::Change(change)) => change_reply(server, change, line, pass),
        Ok(Request::Query(query)) => kept_query_reply(server, &query, seen, pass, steps),
        Ok(Request::State) => Ok(state_reply(server, pass)),
        Err(ReadError::Refused(refusal)) => Ok(Some(Reply::Refused(refusal))),
        Err(ReadError::Memory) => Err(Memory),
    }
}
