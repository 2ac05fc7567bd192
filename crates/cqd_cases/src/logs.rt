use crate::running::{ends_with, status_of, words_of};
use cq_base::Memory;
use cq_io::{MemDoors, MemSink, MemSource, OpenGate};
use std::alloc::Global;
use std::collections::VecDeque;
use std::marker::Brand;
use std::sync::Wait;
use std::sync::ledger::Blank;
use std::thread::Threads;

const SERVE: &str = "serve mem --chunk 2 --workers 0 --sessions 1";

// A put, a drop and a query.
const CLIENT: &str = r#"{"op":"put","project":"p","path":"t","lang":"any","text":"a b"}
{"op":"drop","project":"p","path":"t"}
{"op":"files","project":"p"}
"#;

// The doors that let in one client, which sends this.
fn doors_of(alloc: Global, input: &str) -> Result<MemDoors, Memory> {
    let bytes = Vec::from_slice(alloc, input.as_bytes())?;
    let source = MemSource::new(bytes, 7, Vec::new(alloc));
    let sink = MemSink::new(alloc, 65_536, 11, Vec::new(alloc))?;
    let mut ends = VecDeque::new(alloc);
    ends.push_back((source, sink))?;
    Ok(MemDoors::new(ends, Vec::new(alloc)))
}

// Whether a server that takes a log and has one client has written this of the log, once a write of it failed, and ends as at a
// fault of writing. It writes at most three bytes at a time; the writes are counted from 1.
fn breaks_off<Q: Threads + Wait + Sync>(
    rt: &Q,
    alloc: Global,
    log: &str,
    failing_write: u64,
    written: &str,
) -> Result<bool, Memory> {
    let words = words_of(alloc, SERVE)?;
    let log = Vec::from_slice(alloc, log.as_bytes())?;
    let mut source = MemSource::new(log, 5, Vec::new(alloc));
    let mut sink = MemSink::new(alloc, 65_536, 3, vec![in alloc; failing_write]?)?;
    let mut doors = doors_of(alloc, CLIENT)?;
    let status = status_of::<Q, _, _, _, _, _, _, Brand>(
        rt,
        alloc,
        &words,
        &mut source,
        &mut sink,
        &mut doors,
        &OpenGate,
        Blank::new(1),
    );
    Ok(status == 3 && sink.written() == written.as_bytes())
}

// The first write mends the end of a log, if it has to be mended; a line of a change takes several.
#[test]
fn a_log_breaks_off(rt: HostRuntime) -> Result<(), Memory> {
    let alloc = rt.alloc();
    assert!(rt; breaks_off(&rt, alloc, "{", 1, "")?);
    assert!(rt; breaks_off(&rt, alloc, "", 2, "{\"o")?);
    Ok(())
}

const TWICE: &[u8] = br#"{"op":"put","project":"p","path":"a","lang":"any","text":"1"}
{"op":"gate","project":"p","conditions":[]}
{"op":"put","project":"p","path":"b","lang":"any","text":"2"}
{"op":"put","project":"p","path":"a","lang":"any","text":"3"}
{"op":"drop","project":"p","path":"b"}
"#;

#[test]
fn a_log_is_not_shortened_if_a_call_fails(rt: HostRuntime) -> Result<(), Memory> {
    let alloc = rt.alloc();
    let words = "shorten --chunk 2";
    assert!(rt; ends_with(&rt, alloc, words, TWICE, 9, (1, 0), b"", 2)?);
    assert!(rt; ends_with(&rt, alloc, words, TWICE, 65_536, (0, 1), b"", 3)?);
    Ok(())
}
