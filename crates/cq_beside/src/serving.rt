ghost use Rattle.std.specs.Prelude.{◌≡◌, ◌<◌};
ghost use Rattle.cq_base.specs.Settings.{IsInRange};
ghost use Rattle.cq_lines.specs.Runs.{IsFresh};
ghost use Rattle.cq_lines.specs.Serving.{HasCauseOfEnd};
ghost use Rattle.cq_shared.specs.SharedPasses.{IsPassOf, settings_of};
ghost use Rattle.cq_beside.specs.Served.{ServesBeside, ServesClient};

use crate::joining::{Floor, Talker, beside};
use cq_base::Steps;
use cq_chain::Pass;
use cq_io::{Gate, Sink, Source};
use cq_lines::{End, Lines};
use cq_serve::{Bell, RingingGate};
use cq_session::{NoLog, Server, session};
use cq_shared::Shared;
use cq_work::{Keyer, Work};
use std::alloc::Global;
use std::sync::Wait;
use std::sync::ledger::Ledger;
use std::thread::Threads;

// A session by what it borrows.
#[derive(Drop)]
struct Serving<'a, L: Ledger, S, K, G> {
    alloc: Global,
    keyer: &'a Keyer,
    lines: &'a mut Lines,
    source: &'a mut S,
    sink: &'a mut K,
    gate: &'a G,
    steps: &'a mut Steps<L>,
}

// What it gives back, and how it ended.
#[derive(Drop)]
struct Over<'a, L: Ledger, S, K> {
    source: &'a mut S,
    sink: &'a mut K,
    steps: &'a mut Steps<L>,
    end: End,
}

impl<'a, L: Ledger, R: Wait, S: Source, K: Sink, G: Gate> Talker<L, R> for Serving<'a, L, S, K, G> {
    ghost use Rattle.std.specs.Prelude.{◌≡◌};
    ghost use Rattle.cq_base.specs.Settings.{IsInRange};
    ghost use Rattle.cq_lines.specs.Runs.{IsFresh};
    ghost use Rattle.cq_lines.specs.Serving.{HasCauseOfEnd};
    ghost use Rattle.cq_beside.specs.Served.{IsTold};

    type Told = Over<'a, L, S, K>;

    ghost settings = { λ t. t.keyer.now.settings };

    ghost MayTalk = { λ t. IsFresh t.lines.now × IsInRange t.keyer.now.settings };

    ghost Said = { λ t r callers c h heard asked.
        IsTold S.Source K.Sink t.keyer.now.settings callers c h t.steps.now r.steps.now heard asked
        t.lines.now.limit t.source.now r.source.now t.sink.now r.sink.now r.end
        × HasCauseOfEnd S.Source K.Sink t.source.now r.source.now t.sink.now r.sink.now r.end
        × (r.source.ghost_name ≡ t.source.ghost_name) × (r.sink.ghost_name ≡ t.sink.ghost_name)
        × (r.steps.ghost_name ≡ t.steps.ghost_name) };

    fn talk<Q: Threads + Sync>(
        self,
        rt: &Q,
        hub: &Shared<Work<L>, R>,
        pass: &mut Pass<Work<L>>,
    ) -> Over<'a, L, S, K> {
        let Serving {
            alloc,
            keyer,
            lines,
            source,
            sink,
            gate,
            steps,
        } = self;
        let server = Server {
            rt,
            alloc,
            keyer,
            hub,
            keeper: &NoLog,
            gate,
        };
        let end = session(&server, pass, lines, source, sink, steps);
        Over {
            source,
            sink,
            steps,
            end,
        }
    }
}

// Does nothing: by this use of all three, the borrow checker ties them to the parameters that lent them.
fn take_back<S, K, T>(source: &mut S, sink: &mut K, steps: &mut T)
    ensures source { source.new ≡ source.old }
    ensures sink { sink.new ≡ sink.old }
    ensures steps { steps.new ≡ steps.old }
{}

/// How many workers there are, and the pass that theirs are split from.
#[derive(Drop)]
pub struct Crew<L: Ledger> {
    pub workers: u32,
    pub pass: Pass<Work<L>>,
}

/// One session on this thread, with workers beside it until its end. Each worker has a thread, a pass and a keyer of its own,
/// and sleeps on a bell that rings after each accepted change. One for which no thread can be made runs after the session,
/// and ends at once. The passes of the workers, and then that of the session, are split from the crew's, such as a new hub's
/// first pass, and end in it. The gate is called from the threads of the session and of the workers, as `session` and `turn`
/// say.
pub fn serve_one<
    Q: Threads + Wait + Sync,
    L: Ledger + Send + Sync,
    R: Wait + Sync,
    S: Source,
    K: Sink,
    G: Gate + Sync,
>(
    server: &Server<'_, Q, Shared<Work<L>, R>, NoLog, G>,
    crew: Crew<L>,
    lines: &mut Lines,
    source: &mut S,
    sink: &mut K,
    steps: &mut Steps<L>,
) -> End
    requires fresh { IsFresh lines.old }
    requires in_range { IsInRange server.now.keyer.now.settings }
    requires hub_settings { settings_of server.now.hub.now ≡ server.now.keyer.now.settings }
    requires of { IsPassOf server.now.hub.now crew.pass }
    requires room { crew.workers < crew.pass.room }
    ensures served { ServesClient S.Source K.Sink server.now.keyer.now.settings server.now.hub.now
        crew.pass crew.workers steps.old steps.new
        lines.old.limit source.old source.new sink.old sink.new result }
    ensures beside { ServesBeside S.Source K.Sink server.now.keyer.now.settings server.now.hub.now
        crew.pass crew.workers steps.old steps.new
        lines.old.limit source.old source.new sink.old sink.new result }
    ensures cause { HasCauseOfEnd S.Source K.Sink source.old source.new sink.old sink.new result }
{
    let bell = Bell::new();
    let ringing = RingingGate {
        gate: server.gate,
        bell: &bell,
        rt: server.rt,
    };
    let serving = Serving {
        alloc: server.alloc,
        keyer: server.keyer,
        lines,
        source,
        sink,
        gate: &ringing,
        steps,
    };
    let floor = Floor {
        rt: server.rt,
        alloc: server.alloc,
        settings: &server.keyer.settings,
        hub: server.hub,
        gate: server.gate,
        bell: &bell,
    };
    let (over, _pass) = beside(&floor, crew.workers, serving, crew.pass);
    let Over {
        source,
        sink,
        steps,
        end,
    } = over;
    take_back(source, sink, steps);
    end
}
