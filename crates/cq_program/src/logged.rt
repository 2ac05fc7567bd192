ghost use Rattle.std.specs.Prelude.{◌≡◌, ◌≤◌, IfOk};
ghost use Rattle.cq_base.specs.Settings.{IsInRange};
ghost use Rattle.cq_serve_kept.specs.Continued.{EndsKept};
ghost use Rattle.cq_program.specs.Statuses.{Ends, status_of_logged};
ghost use Rattle.cq_program.specs.Top.{Logs, ShortensLog};

use crate::host::Host;
use crate::status::{Exit, Status, status_of_served, status_of_shortened};
use cq_base::{Counters, Memory, Settings};
use cq_io::{Doors, Gate, Sink, Source};
use cq_serve_kept::{Ground, Kept, Place, serve_kept};
use cq_shorten::shorten;
use cq_words::Listen;
use std::alloc::Global;
use std::marker::Brand;
use std::sync::Wait;
use std::sync::ledger::{Blank, Ledger};
use std::thread::Threads;

// How the serving of a log ended, on a ledger of its own.
fn kept<
    Q: Threads + Wait + Sync,
    L: Ledger + Send + Sync,
    S: Source,
    K: Sink + Send,
    I: Source + Send + Drop,
    O: Sink + Send + Drop,
    D: Doors<In = I, Out = O>,
    G: Gate + Sync,
>(
    host: &Host<'_, Q, G>,
    asked: Listen,
    source: &mut S,
    sink: &mut K,
    doors: &mut D,
    blank: Blank,
) -> Result<Kept, Memory>
    requires name { blank.name ≡ L.name }
    requires parts { blank.parts ≡ L.parts }
    requires in_range { IsInRange asked.settings }
    requires workers { asked.workers ≤ 64 }
    requires sessions { asked.sessions ≤ 64 }
    ensures log { IfOk result (EndsKept S.Source K.Sink asked.settings
        source.old source.new sink.old sink.new) }
{
    let counters: Counters<L> = Counters::new(blank);
    let Listen {
        settings,
        address,
        workers,
        sessions,
        connections: _,
    } = asked;
    let ground = Ground {
        rt: host.rt,
        alloc: host.alloc,
        settings: &settings,
        counters: &counters,
        gate: host.gate,
    };
    let place = Place {
        address,
        workers,
        sessions,
    };
    serve_kept(&ground, place, source, sink, doors)
}

fn exit_of(kept: Kept) -> Exit
    ensures { result.status ≡ status_of_logged kept }
{
    match kept {
        Kept::Served(served) => Exit {
            status: status_of_served(served),
            served: Some(served),
        },
        Kept::Broken => Exit {
            status: Status::WriteFault,
            served: None,
        },
        Kept::Refused => Exit {
            status: Status::LineRefused,
            served: None,
        },
        Kept::Spent => Exit {
            status: Status::Spent,
            served: None,
        },
        Kept::ReadFault => Exit {
            status: Status::ReadFault,
            served: None,
        },
        Kept::Unbound => Exit {
            status: Status::DoorsFault,
            served: None,
        },
    }
}

/// Takes a log from the source, serves the connections that come to the address, and continues the log in the sink.
pub(crate) fn serve_logged<
    Q: Threads + Wait + Sync,
    S: Source,
    K: Sink + Send,
    I: Source + Send + Drop,
    O: Sink + Send + Drop,
    D: Doors<In = I, Out = O>,
    G: Gate + Sync,
>(host: &Host<'_, Q, G>, asked: Listen, source: &mut S, sink: &mut K, doors: &mut D) -> Exit
    requires in_range { IsInRange asked.settings }
    requires workers { asked.workers ≤ 64 }
    requires sessions { asked.sessions ≤ 64 }
    ensures logs { Logs S.Source K.Sink asked.settings
        source.old source.new sink.old sink.new result.status }
{
    match kept::<Q, Brand, S, K, I, O, D, G>(host, asked, source, sink, doors, Blank::new(1)) {
        Ok(kept) => exit_of(kept),
        Err(Memory) => Exit {
            status: Status::Memory,
            served: None,
        },
    }
}

/// The status of the shortening of a log.
pub(crate) fn shortened<S: Source, K: Sink>(
    alloc: Global,
    settings: &Settings,
    source: &mut S,
    sink: &mut K,
) -> Status
    requires in_range { IsInRange settings.now }
    ensures ends { Ends S.Source K.Sink result source.old source.new sink.old sink.new }
    ensures shortens { ShortensLog S.Source K.Sink settings.now
        source.old source.new sink.old sink.new result }
{
    match shorten(alloc, settings, source, sink) {
        Ok(ended) => status_of_shortened(ended),
        Err(Memory) => Status::Memory,
    }
}
