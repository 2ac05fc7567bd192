ghost use Rattle.std.specs.Prelude.{◌≡◌, ◌≤◌, IfOk, OnErr};
ghost use Rattle.cq_answer.specs.Parts.{HasPath, HasScope};
ghost use Rattle.cq_base.specs.Settings.{IsInRange};
ghost use Rattle.cq_hub.specs.Hubs.{IsPassOf};
ghost use Rattle.cq_reply.specs.Written.{IsReplyText};
ghost use Rattle.cq_work.specs.Work.{IsWorkOf};
ghost use Rattle.cq_session.specs.Passes.{CostsOpen, HasOpen, HasReady, HasShown, HasShut, HasSwept, HasViewOpen, HasViewedOrNot, KeepsOpen, ShowsOpen};

use crate::{PassBuckets, Server};
use cq_answer::{ProjectAt, answer};
use cq_base::{Memory, Steps};
use cq_board::View;
use cq_hub::Hub;
use cq_io::Gate;
use cq_reply::Reply;
use cq_request::Query;
use cq_shard::Indexed;
use cq_work::Work;
use std::alloc::Global;
use std::sync::ledger::Ledger;
use std::thread::Threads;

// The reply to a query in a view that the pass has open.
fn reply_in<R: Threads + Sync, L: Ledger, H: Hub<Work<L>>, P, G: Gate>(
    server: &Server<'_, R, H, P, G>,
    view: &View<Work<L>>,
    query: &Query,
    pass: &mut H::Pass,
    steps: &mut Steps<L>,
) -> Result<Reply, Memory>
    requires in_range { IsInRange server.now.keyer.now.settings }
    requires hub_settings { H.settings server.now.hub.now ≡ server.now.keyer.now.settings }
    requires long { server.now.keyer.now.settings.chunk ≤ query.now.min }
    requires path { HasPath query.now.kind query.now.path }
    requires scope { HasScope query.now.path query.now.scope }
    requires viewing { HasOpen H.Hub server.now.hub.now IsWorkOf view.now pass.old }
    ensures reply { IfOk result
        (ShowsOpen H.Hub server.now.hub.now IsWorkOf view.now pass.old query.now) }
    ensures text { IfOk result IsReplyText }
    ensures costs { CostsOpen H.Hub server.now.hub.now IsWorkOf view.now pass.old pass.new
        steps.old steps.new query.now result }
    ensures moves { KeepsOpen H.Hub server.now.hub.now IsWorkOf view.now pass.old pass.new }
{
    let files = view.listing.project(&query.project);
    let conditions = view.listing.conditions(&query.project);
    let mut buckets = PassBuckets {
        hub: server.hub,
        view,
        files,
        pass,
    };
    let at = ProjectAt {
        settings: &server.keyer.settings,
        files,
        conditions,
        version: view.version,
    };
    answer(server.rt, server.alloc, &at, query, &mut buckets, steps)
}

// Shuts the view after its reply was made, or memory ran out, and returns which of the two it was.
fn close_behind<W: Indexed, H: Hub<W>>(
    hub: &H,
    view: View<W>,
    came: Result<Reply, Memory>,
    pass: &mut H::Pass,
) -> Result<Reply, Memory>
    requires viewing { HasViewOpen H.Hub hub.now pass.old }
    ensures shut { HasShut H.Hub hub.now pass.old pass.new }
    ensures asked { H.asked pass.new ≡ H.asked pass.old }
    ensures same { result ≡ came }
{
    hub.close_view(view, pass);
    came
}

// Raises the floor to the least version that may still be looked at. If memory runs out, the floor is raised all the same,
// and what of the index was not swept waits for the next sweep.
fn sweep_behind<W: Indexed, H: Hub<W>>(alloc: Global, hub: &H, pass: &mut H::Pass)
    requires stands { IsPassOf H.Stands hub.now pass.old }
    ensures swept { HasSwept H.Hub hub.now pass.old pass.new }
    ensures asked { H.asked pass.new ≡ H.asked pass.old }
{
    let _floor = hub.sweep(alloc, pass);
}

/// The reply to a query at a version that is not below `to`, up to which all changes are done. A view of it is opened
/// for the reply, and is shut again however that ends. After a reply the hub is swept.
pub(crate) fn view_reply<R: Threads + Sync, L: Ledger, H: Hub<Work<L>>, P, G: Gate>(
    server: &Server<'_, R, H, P, G>,
    query: &Query,
    to: u64,
    pass: &mut H::Pass,
    steps: &mut Steps<L>,
) -> Result<Reply, Memory>
    requires in_range { IsInRange server.now.keyer.now.settings }
    requires hub_settings { H.settings server.now.hub.now ≡ server.now.keyer.now.settings }
    requires long { server.now.keyer.now.settings.chunk ≤ query.now.min }
    requires path { HasPath query.now.kind query.now.path }
    requires scope { HasScope query.now.path query.now.scope }
    requires ready { HasReady H.Hub server.now.hub.now pass.old to }
    ensures shown { IfOk result
        (HasShown H.Hub server.now.hub.now pass.old pass.new steps.old steps.new to query.now) }
    ensures text { IfOk result IsReplyText }
    ensures refused { OnErr result
        (HasViewedOrNot H.Hub server.now.hub.now pass.old pass.new steps.old steps.new to query.now) }
{
    match server.hub.advance(server.alloc, to, server.gate, pass) {
        Ok(_published) => {}
        Err(Memory) => return Err(Memory),
    }
    match server.hub.open_view(pass) {
        Err(Memory) => Err(Memory),
        Ok(view) => {
            server.gate.after_open(view.version);
            let reply = reply_in(server, &view, query, pass, steps);
            match close_behind(server.hub, view, reply, pass) {
                Ok(reply) => {
                    sweep_behind(server.alloc, server.hub, pass);
                    Ok(reply)
                }
                Err(Memory) => Err(Memory),
            }
        }
    }
}
