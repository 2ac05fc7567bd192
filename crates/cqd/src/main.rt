//! cqd, a code quality server. The whole program is the call `top` of `cq_program`, over a source, a sink, doors, a gate
//! and a counter that it is handed; `main` makes the real ones.
#![tactic(auto)]

ghost use Rattle.std.specs.Prelude.{◌≡◌, ◌≢◌, map, drop, option_map, string_bytes, IfOk};
ghost use Rattle.std.specs.IoError.{error_kind};
ghost use Rattle.std.specs.declared.io.ErrorKind.TheVariants.{OutOfMemory};
ghost use Rattle.std.specs.Vec.Iter.{into_iter_items};
ghost use Rattle.cq_program.specs.declared.status.Status.TheVariants as ended;
ghost use Rattle.cqd.specs.Told as spec;

use cq_base::{Memory, Steps, Text};
use cq_io::{Doors, OpenGate, Sink, Source, StdSink, StdSource};
use cq_program::{Status, top};
use cq_sockets::TcpDoors;
use cq_words::connections;
use std::alloc::Global;
use std::env;
use std::io::{Error, ErrorKind};
use std::marker::Brand;
use std::net::{Net, TcpListener, TcpStream};
use std::process::ExitCode;
use std::sync::Wait;
use std::sync::ledger::{Blank, Ledger};
use std::thread::Threads;

// What is printed for a status, if it isn't that everything was done.
fn line_of(status: Status) -> Option<&'static str>
    ensures { option_map (λ line. line.now) result ≡ spec.line_of status }
{
    match status {
        Status::Done => None,
        Status::Arguments => Some("cqd: words refused"),
        Status::ReadFault => Some("cqd: read fault"),
        Status::WriteFault => Some("cqd: write fault"),
        Status::Memory => Some("cqd: out of memory"),
        Status::DoorsFault => Some("cqd: doors failed"),
        Status::Spent => Some("cqd: byte limit"),
        Status::LineRefused => Some("cqd: line refused"),
        Status::FileRefused => Some("cqd: token file refused"),
        Status::TooLarge => Some("cqd: too large"),
    }
}

// Each word, copied.
fn texts_of(alloc: Global, words: &[String]) -> Result<Vec<Text>, Memory>
    ensures { IfOk result (λ texts. texts.items ≡ map string_bytes words.now) }
{
    let mut texts = Vec::new(alloc);
    for word in words {
        texts.push(Text::from_bytes(alloc, word.as_bytes())?)?;
    }
    Ok(texts)
}

// The arguments after the program's name.
fn words_of(alloc: Global, args: env::Args) -> Result<Vec<Text>, Memory>
    ensures { IfOk result
        (λ words. words.items ≡ map string_bytes (drop 1 (into_iter_items args))) }
{
    let words: Vec<String> = args.skip(1).collect(alloc)?;
    texts_of(alloc, &words)
}

// How the program ends, over any ends. This promises nothing: what `top` promises would otherwise be proved again for the real
// ends.
fn status_of<
    Q: Threads + Wait + Sync,
    S: Source,
    K: Sink + Send,
    I: Source + Send + Drop,
    O: Sink + Send + Drop,
    D: Doors<In = I, Out = O>,
    L: Ledger + Send + Sync,
>(
    handle: &Q,
    alloc: Global,
    words: &[Text],
    source: &mut S,
    sink: &mut K,
    doors: &mut D,
    blank: Blank,
) -> Status
    requires name { blank.name ≡ L.name }
    requires parts { blank.parts ≡ L.parts }
{
    let mut steps: Steps<L> = Steps::new(blank);
    top(
        handle, alloc, words, source, sink, doors, &OpenGate, &mut steps,
    )
    .status
}

// Runs on standard input and output, and on doors for so many connections. Only in `main` is the runtime itself a handle on
// threads and sockets, so that stands beside it.
fn run<Q: Threads + Wait + Net<Listener = TcpListener, Stream = TcpStream> + Sync>(
    rt: &HostRuntime,
    handle: &Q,
    words: &[Text],
    connections: u32,
) -> Status {
    let mut source = StdSource::new(rt.stdin());
    let mut sink = StdSink::new(rt.stdout());
    let mut doors = TcpDoors::new(handle, connections);
    status_of::<Q, _, _, _, _, _, Brand>(
        handle,
        rt.alloc(),
        words,
        &mut source,
        &mut sink,
        &mut doors,
        Blank::new(1),
    )
}

// The status of a run whose words could not be had: memory was refused, or one is not UTF-8.
fn status_without_words(error: &Error) -> Status
    ensures memory { error_kind error.now ≡ OutOfMemory → result ≡ ended.Memory }
    ensures refused { error_kind error.now ≢ OutOfMemory → result ≡ ended.Arguments }
{
    match error.kind() {
        ErrorKind::OutOfMemory => Status::Memory,
        _ => Status::Arguments,
    }
}

fn status<Q: Threads + Wait + Net<Listener = TcpListener, Stream = TcpStream> + Sync>(
    rt: &HostRuntime,
    handle: &Q,
) -> Status {
    let args = match env::args(rt) {
        Ok(args) => args,
        Err(error) => return status_without_words(&error),
    };
    let Ok(words) = words_of(rt.alloc(), args) else {
        return Status::Memory;
    };
    match connections(rt.alloc(), &words) {
        Ok(count) => run(rt, handle, &words, count.unwrap_or(0)),
        Err(Memory) => Status::Memory,
    }
}

fn main(rt: HostRuntime) -> ExitCode {
    let status = status(&rt, &rt);
    if let Some(line) = line_of(status) {
        let _ = rt.eprintln(line);
    }
    ExitCode::from(status.code())
}
