ghost use Rattle.std.specs.Prelude.{◌≡◌, ◌<◌};

use cq_base::{Memory, Steps, Text};
use cq_io::{Doors, Gate, MemDoors, MemSink, MemSource, OpenGate, Sink, Source};
use cq_program::top;
use std::alloc::Global;
use std::collections::VecDeque;
use std::marker::Brand;
use std::sync::Wait;
use std::sync::ledger::{Blank, Ledger};
use std::thread::Threads;

/// The arguments of a command line, which has blanks between them.
pub(crate) fn words_of(alloc: Global, line: &str) -> Result<Vec<Text>, Memory> {
    let mut words = Vec::new(alloc);
    for word in line.split_whitespace() {
        words.push(Text::from_bytes(alloc, word.as_bytes())?)?;
    }
    Ok(words)
}

/// The status of the program, over any ends. This promises nothing: what `top` promises would otherwise be proved again for each
/// kind of ends.
pub(crate) fn status_of<
    Q: Threads + Wait + Sync,
    S: Source,
    K: Sink + Send,
    I: Source + Send + Drop,
    O: Sink + Send + Drop,
    D: Doors<In = I, Out = O>,
    G: Gate + Sync,
    L: Ledger + Send + Sync,
>(
    rt: &Q,
    alloc: Global,
    words: &[Text],
    source: &mut S,
    sink: &mut K,
    doors: &mut D,
    gate: &G,
    blank: Blank,
) -> u8
    requires name { blank.name ≡ L.name }
    requires parts { blank.parts ≡ L.parts }
{
    let mut steps: Steps<L> = Steps::new(blank);
    top(rt, alloc, words, source, sink, doors, gate, &mut steps)
        .status
        .code()
}

pub(crate) fn run_here<Q: Threads + Wait + Sync>(
    rt: &Q,
    alloc: Global,
    words: &[Text],
    source: &mut MemSource,
    sink: &mut MemSink,
) -> u8 {
    let mut doors = MemDoors::new(VecDeque::new(alloc), Vec::new(alloc));
    status_of::<Q, _, _, _, _, _, _, Brand>(
        rt,
        alloc,
        words,
        source,
        sink,
        &mut doors,
        &OpenGate,
        Blank::new(1),
    )
}

/// Whether the program ends with a status after it has written an output, over ends of so many bytes a call, of which
/// one call may fail.
pub(crate) fn ends_with<Q: Threads + Wait + Sync>(
    rt: &Q,
    alloc: Global,
    words: &str,
    input: &[u8],
    greatest: usize,
    failing: (u64, u64),
    output: &[u8],
    status: u8,
) -> Result<bool, Memory>
    requires { 0 < greatest }
{
    let (failing_read, failing_write) = failing;
    let words = words_of(alloc, words)?;
    let bytes = Vec::from_slice(alloc, input)?;
    let mut source = MemSource::new(bytes, greatest, vec![in alloc; failing_read]?);
    let mut sink = MemSink::new(alloc, 65_536, greatest, vec![in alloc; failing_write]?)?;
    let ended = run_here(rt, alloc, &words, &mut source, &mut sink);
    Ok(ended == status && sink.written() == output)
}
