ghost use Rattle.std.specs.Prelude.{◌≡◌, ◌↔◌, ◌≤◌, true, false, None, Some};
ghost use Rattle.cq_base.specs.Settings.{IsInRange};
ghost use Rattle.cq_tokask.specs.Kept.{TakesNoLine};
ghost use Rattle.cq_program.specs.Statuses.{Ends, EndsUnread};
ghost use Rattle.cq_program.specs.Top.{AsksFile, AsksFor, Drives, DrivesFor, EndsFor, ExportsFile, ExportsFor, ListensFor, LogsFor, MakesFor, MakesLine, Runs, RunsAsked, RunsFor, ServesFor, ShortensFor, TakesNoLineFor, takes_first};
ghost use Rattle.cq_names.specs.Names.{is_project};
ghost use Rattle.cq_program.specs.declared.status.Status.TheVariants as ended;
ghost use Rattle.cq_words.specs.Command.{command_of, connections_of};
ghost use Rattle.cq_words.specs.declared.command.Command.TheVariants as command;
ghost use Rattle.cq_words.specs.declared.command.Listen.{Listen};
ghost use Rattle.cq_words.specs.declared.command.Make.{Make};

use crate::clients::listen;
use crate::host::Host;
use crate::logged::{serve_logged, shortened};
use crate::status::{Exit, Status, status_of, status_of_asked, status_of_exported};
use crate::workers::serve_with_workers;
use cq_base::{Memory, Settings, Steps, Text};
use cq_drive::{Driver, drive};
use cq_export::export;
use cq_hub::{Solo, SoloPass};
use cq_io::{Doors, Failed, Gate, Sink, Source};
use cq_lines::Lines;
use cq_make::{Project, make};
use cq_session::{NoLog, Server, session};
use cq_talk::{talks_alone, talks_beside};
use cq_tokask::ask;
use cq_words::{Command, Export, Make, Run, default_settings, is_command, read_command};
use cq_work::{Keyer, Work};
use std::alloc::Global;
use std::sync::Wait;
use std::sync::ledger::Ledger;
use std::thread::Threads;

// A session with a plain hub that is made for it, and its status.
fn serve<R: Threads + Sync, S: Source, K: Sink, G: Gate, L: Ledger>(
    host: &Host<'_, R, G>,
    settings: &Settings,
    source: &mut S,
    sink: &mut K,
    steps: &mut Steps<L>,
) -> Status
    requires in_range { IsInRange settings.now }
    ensures untaken { result ≡ ended.Memory → source.new ≡ source.old }
    ensures ends { Ends S.Source K.Sink result source.old source.new sink.old sink.new }
    ensures runs { Runs S.Source K.Sink settings.now steps.old steps.new
        source.old source.new sink.old sink.new result }
{
    let keyer = Keyer::plain(settings);
    let made: Result<(Solo<Work<L>>, SoloPass<Work<L>>), Memory> = Solo::new(host.alloc, settings);
    let Ok((hub, mut pass)) = made else {
        return Status::Memory;
    };
    match Lines::new(host.alloc, settings.byte_limit) {
        Ok(mut lines) => {
            talks_alone();
            talks_beside();
            let server = Server {
                rt: host.rt,
                alloc: host.alloc,
                keyer: &keyer,
                hub: &hub,
                keeper: &NoLog,
                gate: host.gate,
            };
            let end = session(&server, &mut pass, &mut lines, source, sink, steps);
            status_of(end)
        }
        Err(Memory) => Status::Memory,
    }
}

// A session with as many workers beside it as are asked for, and its status.
fn run_with<Q: Threads + Wait + Sync, S: Source, K: Sink, G: Gate + Sync, L: Ledger + Send + Sync>(
    host: &Host<'_, Q, G>,
    asked: Run,
    source: &mut S,
    sink: &mut K,
    steps: &mut Steps<L>,
) -> Status
    requires in_range { IsInRange asked.settings }
    requires few { asked.workers ≤ 64 }
    ensures untaken { result ≡ ended.Memory → source.new ≡ source.old }
    ensures ends { Ends S.Source K.Sink result source.old source.new sink.old sink.new }
    ensures runs { RunsAsked S.Source K.Sink asked steps.old steps.new
        source.old source.new sink.old sink.new result }
{
    if asked.workers == 0 {
        serve(host, &asked.settings, source, sink, steps)
    } else {
        serve_with_workers(host, &asked, source, sink, steps)
    }
}

// A core stepped by the lines of the source, and the status.
fn driven<R: Threads + Sync, S: Source, K: Sink, L: Ledger>(
    rt: &R,
    alloc: Global,
    settings: &Settings,
    source: &mut S,
    sink: &mut K,
    steps: &mut Steps<L>,
) -> Status
    requires in_range { IsInRange settings.now }
    ensures untaken { result ≡ ended.Memory → source.new ≡ source.old }
    ensures ends { Ends S.Source K.Sink result source.old source.new sink.old sink.new }
    ensures drives { Drives S.Source K.Sink settings.now
        source.old source.new sink.old sink.new result }
{
    let keyer = Keyer::plain(settings);
    let Ok(mut lines) = Lines::new(alloc, settings.byte_limit) else {
        return Status::Memory;
    };
    let driver = Driver {
        rt,
        alloc,
        keyer: &keyer,
    };
    match drive(&driver, &mut lines, source, sink, steps) {
        Ok(end) => status_of(end),
        Err(Memory) => Status::Memory,
    }
}

// Makes a project and writes its line, and answers the status.
fn made<R: Threads + Sync, K: Sink, L: Ledger>(
    rt: &R,
    alloc: Global,
    asked: Make,
    sink: &mut K,
    steps: &mut Steps<L>,
) -> Status
    requires few { asked.files ≤ 10000 }
    ensures ends { EndsUnread K.Sink result sink.old sink.new }
    ensures makes { MakesLine K.Sink asked sink.old sink.new result }
{
    let project = Project {
        number: asked.number,
        files: asked.files,
    };
    match make(rt, alloc, &default_settings(), project, sink, steps) {
        Ok(Ok(())) => Status::Done,
        Ok(Err(Failed)) => Status::WriteFault,
        Err(Memory) => Status::Memory,
    }
}

// A kept version, which the source begins with, asked by the lines after it, and the status.
fn kept<R: Threads + Sync, S: Source, K: Sink, L: Ledger>(
    rt: &R,
    alloc: Global,
    settings: &Settings,
    source: &mut S,
    sink: &mut K,
    steps: &mut Steps<L>,
) -> Status
    requires in_range { IsInRange settings.now }
    ensures ends { Ends S.Source K.Sink result source.old source.new sink.old sink.new }
    ensures asks { AsksFile L S.Source K.Sink settings.now
        source.old source.new sink.old sink.new result }
    ensures no_line { result ≡ ended.Memory → TakesNoLine L S.Source settings.now source.old source.new }
{
    let keyer = Keyer::plain(settings);
    match ask(rt, alloc, &keyer, source, sink, steps) {
        Ok(asked) => status_of_asked(asked),
        Err(Memory) => Status::Memory,
    }
}

// The version of a project that the changes of the source make, written as its token file, and the status.
fn exported<S: Source, K: Sink, L: Ledger>(
    alloc: Global,
    asked: &Export,
    source: &mut S,
    sink: &mut K,
    steps: &mut Steps<L>,
) -> Status
    requires in_range { IsInRange asked.now.settings }
    requires project { is_project asked.now.project ≡ true }
    ensures ends { Ends S.Source K.Sink result source.old source.new sink.old sink.new }
    ensures exports { ExportsFile L S.Source K.Sink asked.now
        source.old source.new sink.old sink.new result }
{
    let keyer = Keyer::plain(&asked.settings);
    match export(alloc, &keyer, &asked.project, source, sink, steps) {
        Ok(ended) => status_of_exported(ended),
        Err(Memory) => Status::Memory,
    }
}

/// The whole program: what the arguments ask for, over these ends, and how that ended. `run` answers the lines of the source
/// into the sink; `listen` the lines of each connection into it; `drive` steps a core by the lines of the source, and writes
/// their outcomes; `make` writes one line; `export` writes the token file of the version that the changes of the source make;
/// `ask` answers the lines after the token file that the source begins with. `serve` takes a log from the source, answers the
/// lines of each connection into it, and continues the log in the sink; `shorten` writes the lines of a log that its last
/// version needs.
/// Threads are started only for the workers of `run`, `listen` and `serve` and for the sessions of the last two, and each is
/// joined before this returns; the gate is then called from them too. The reads of these sessions are counted on a ledger of
/// their own.
pub fn top<
    Q: Threads + Wait + Sync,
    S: Source,
    K: Sink + Send,
    I: Source + Send + Drop,
    O: Sink + Send + Drop,
    D: Doors<In = I, Out = O>,
    G: Gate + Sync,
    L: Ledger + Send + Sync,
>(
    rt: &Q,
    alloc: Global,
    words: &[Text],
    source: &mut S,
    sink: &mut K,
    doors: &mut D,
    gate: &G,
    steps: &mut Steps<L>,
) -> Exit
    // Exactly if the arguments are not valid, and nothing is read, written or asked then.
    ensures arguments { (result.status ≡ ended.Arguments) ↔ (command_of words.now ≡ None) }
    ensures refused { result.status ≡ ended.Arguments
        → (source.new ≡ source.old) × (sink.new ≡ sink.old) × (doors.new ≡ doors.old) }

    // Memory is refused before a line is read. `ask` may have taken bytes of the file by then, none after it, and `export`
    // bytes of the lines.
    ensures untaken { result.status ≡ ended.Memory
        → takes_first (command_of words.now) ≡ false → source.new ≡ source.old }

    // What the status says of the source and the sink, for each command but `listen` and `serve`.
    ensures ends { EndsFor S.Source K.Sink words.now result.status
        source.old source.new sink.old sink.new }

    // The doors are only for `listen` and `serve`, and the source and the sink are for all but `listen`.
    ensures closed { connections_of words.now ≡ None → doors.new ≡ doors.old }
    ensures aside { (asked : Listen) → command_of words.now ≡ Some (command.Listen asked)
        → (source.new ≡ source.old) × (sink.new ≡ sink.old) }
    ensures listens { ListensFor words.now (D.bound doors.new)
        (D.left doors.old) (D.left doors.new)
        (D.faults doors.old) (D.faults doors.new) result.status }

    // `listen` serves connections under the settings in its arguments, with as many workers and as many sessions as they ask
    // for, unless memory is refused or the address can't be bound. No other command but `serve` serves any.
    ensures served { ServesFor words.now (D.bound doors.old) (D.bound doors.new)
        result.status result.served }
    ensures unserved { connections_of words.now ≡ None → result.served ≡ None }

    // Unless memory is refused, the status of `run` is that of a session over all lines of the source, with workers beside
    // it if there are any.
    ensures runs { RunsFor S.Source K.Sink words.now steps.old steps.new
        source.old source.new sink.old sink.new result.status }

    // That of `drive` is that of a script of all lines of the source.
    ensures drives { DrivesFor S.Source K.Sink words.now
        source.old source.new sink.old sink.new result.status }

    // That of `ask` is that of a kept version, asked by all lines of the source after its file, or of a read that failed
    // before the file was whole, or the source begins with no token file of the settings.
    ensures asks { AsksFor L S.Source K.Sink words.now
        source.old source.new sink.old sink.new result.status }
    ensures no_line { TakesNoLineFor L S.Source K.Sink words.now
        source.old source.new result.status }

    // That of `export` is that of writing the version of the changes that all lines of the source say.
    ensures exports { ExportsFor L S.Source K.Sink words.now
        source.old source.new sink.old sink.new result.status }

    // That of `serve` is that of taking a log from the source and continuing it in the sink.
    ensures logs { LogsFor S.Source K.Sink words.now
        source.old source.new sink.old sink.new result.status }

    // That of `shorten` is that of reading a log from the source, and writing the lines that its last version needs.
    ensures shortens { ShortensFor S.Source K.Sink words.now
        source.old source.new sink.old sink.new result.status }

    // That of `make` is that of sending the line of the project, and nothing is read.
    ensures makes { MakesFor K.Sink words.now sink.old sink.new result.status }
    ensures unread { (asked : Make) → command_of words.now ≡ Some (command.Make asked)
        → source.new ≡ source.old }
{
    if !is_command(words) {
        return Exit {
            status: Status::Arguments,
            served: None,
        };
    }
    let host = Host { rt, alloc, gate };
    match read_command(alloc, words) {
        Ok(Some(Command::Run(run))) => Exit {
            status: run_with(&host, run, source, sink, steps),
            served: None,
        },
        Ok(Some(Command::Listen(asked))) => listen(&host, asked, doors),
        Ok(Some(Command::Serve(asked))) => serve_logged(&host, asked, source, sink, doors),
        Ok(Some(Command::Drive(settings))) => Exit {
            status: driven(rt, alloc, &settings, source, sink, steps),
            served: None,
        },
        Ok(Some(Command::Make(asked))) => Exit {
            status: made(rt, alloc, asked, sink, steps),
            served: None,
        },
        Ok(Some(Command::Export(asked))) => Exit {
            status: exported(alloc, &asked, source, sink, steps),
            served: None,
        },
        Ok(Some(Command::Ask(settings))) => Exit {
            status: kept(rt, alloc, &settings, source, sink, steps),
            served: None,
        },
        Ok(Some(Command::Shorten(settings))) => Exit {
            status: shortened(alloc, &settings, source, sink),
            served: None,
        },
        Ok(None) => unreachable!(),
        Err(Memory) => Exit {
            status: Status::Memory,
            served: None,
        },
    }
}
