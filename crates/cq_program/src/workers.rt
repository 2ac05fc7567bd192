ghost use Rattle.std.specs.Prelude.{◌≡◌, ◌≤◌};
ghost use Rattle.cq_base.specs.Settings.{IsInRange};
ghost use Rattle.cq_program.specs.Statuses.{Ends};
ghost use Rattle.cq_program.specs.Top.{RunsBeside};
ghost use Rattle.cq_program.specs.declared.status.Status.TheVariants as ended;

use crate::host::Host;
use crate::status::{Status, status_of};
use cq_base::{Memory, Steps};
use cq_beside::{Crew, serve_one};
use cq_chain::Pass;
use cq_io::{Gate, Sink, Source};
use cq_lines::Lines;
use cq_session::{NoLog, Server};
use cq_shared::Shared;
use cq_words::Run;
use cq_work::{Keyer, Work};
use std::sync::Wait;
use std::sync::ledger::Ledger;
use std::thread::Threads;

/// A session with workers beside it, over a shared hub that is made for them, and its status. The session is on this
/// thread, and each worker on one of its own, which is joined before this returns.
pub(crate) fn serve_with_workers<
    Q: Threads + Wait + Sync,
    S: Source,
    K: Sink,
    G: Gate + Sync,
    L: Ledger + Send + Sync,
>(host: &Host<'_, Q, G>, asked: &Run, source: &mut S, sink: &mut K, steps: &mut Steps<L>) -> Status
    requires in_range { IsInRange asked.now.settings }
    requires few { asked.now.workers ≤ 64 }
    ensures untaken { result ≡ ended.Memory → source.new ≡ source.old }
    ensures ends { Ends S.Source K.Sink result source.old source.new sink.old sink.new }
    ensures runs { RunsBeside S.Source K.Sink asked.now steps.old steps.new
        source.old source.new sink.old sink.new result }
{
    let settings = &asked.settings;
    let workers = asked.workers;
    let keyer = Keyer::plain(settings);
    // One caller is the first pass's, one the session's, and one each worker's.
    let callers = workers + 2;
    let made: Result<(Shared<Work<L>, &Q>, Pass<Work<L>>), Memory> = Shared::new(
        host.rt, host.alloc, settings, callers,
    );
    let Ok((hub, pass)) = made else {
        return Status::Memory;
    };
    match Lines::new(host.alloc, settings.byte_limit) {
        Ok(mut lines) => {
            let server = Server {
                rt: host.rt,
                alloc: host.alloc,
                keyer: &keyer,
                hub: &hub,
                keeper: &NoLog,
                gate: host.gate,
            };
            let crew = Crew { workers, pass };
            let end = serve_one(&server, crew, &mut lines, source, sink, steps);
            status_of(end)
        }
        Err(Memory) => Status::Memory,
    }
}
