ghost use Rattle.std.specs.Prelude.{◌≡◌, ◌≤◌, None, IfOk};
ghost use Rattle.cq_answer.specs.Parts.{HasPath};
ghost use Rattle.cq_base.specs.Settings.{IsInRange};
ghost use Rattle.cq_talk.specs.Steps.{Always, MayLead};
ghost use Rattle.cq_make.specs.Made.{Answers};
ghost use Rattle.cq_make.specs.Summary.{question};

use crate::generator::PROJECT;
use cq_base::{Memory, Steps, Text};
use cq_hub::{Hub, Solo, SoloPass};
use cq_io::OpenGate;
use cq_reply::Reply;
use cq_request::{Kind, Query};
use cq_session::{NoLog, Server, query_reply};
use cq_work::Work;
use std::alloc::Global;
use std::sync::ledger::Ledger;
use std::thread::Threads;

const LEAST_TOKENS: u32 = 50;

fn question(alloc: Global, kind: Kind) -> Result<Query, Memory>
    ensures { IfOk result (λ query. query ≡ question kind) }
{
    Ok(Query {
        kind,
        project: Text::from_bytes(alloc, PROJECT)?,
        path: None,
        min: LEAST_TOKENS,
        at: 0,
        finish: true,
        scope: None,
        since: 0,
    })
}

/// The reply to a question about the project, by all changes that are accepted.
pub(crate) fn reply_of<R: Threads + Sync, L: Ledger>(
    server: &Server<'_, R, Solo<Work<L>>, NoLog, OpenGate>,
    kind: Kind,
    pass: &mut SoloPass<Work<L>>,
    steps: &mut Steps<L>,
) -> Result<Reply, Memory>
    requires in_range { IsInRange server.now.keyer.now.settings }
    requires short { server.now.keyer.now.settings.chunk ≤ 50 }
    requires path { HasPath kind None }
    requires hub_settings { ⟦<Solo<Work<L>> as Hub<Work<L>>>⟧.settings server.now.hub.now ≡ server.now.keyer.now.settings }
    requires closed { MayLead ⟦<Solo<Work<L>> as Hub<Work<L>>>⟧.Stands 1 server.now.hub.now pass.old Always }
    ensures reply { IfOk result (Answers ⟦<Solo<Work<L>> as Hub<Work<L>>>⟧
        server.now.hub.now pass.old pass.new server.now.keyer.now.settings kind) }
{
    let query = question(server.alloc, kind)?;
    query_reply(server, &query, 0, pass, steps)
}
