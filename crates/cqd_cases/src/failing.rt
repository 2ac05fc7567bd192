use crate::running::{ends_with, run_here, words_of};
use cq_base::Memory;
use cq_io::{Failed, MemSink, MemSource, Source};
use std::alloc::Global;
use std::sync::Wait;
use std::thread::Threads;

const RUN: &str = "run --chunk 2 --shards 1";

const DRIVE: &str = "drive --chunk 2 --shards 1";

// An upload, and queries of which the second has its work made and the others don't.
const ASKED: &[u8] = br#"{"op":"put","project":"p","path":"t","lang":"any","text":"a b c x a b c y"}
{"op":"groups","project":"p","min":3,"finish":false}
{"op":"groups","project":"p","min":3}
{"op":"groups","project":"p","min":3,"finish":false}
"#;

const TOLD: &[u8] = br#"{"change":1,"ok":true}
{"code":12,"error":"pending","number":1,"ok":false}
{"groups":[{"places":[{"at":0,"first":1,"last":1,"path":"t"},{"at":4,"first":1,"last":1,"path":"t"}],"tokens":3}],"ok":true,"total":1,"version":1}
{"groups":[{"places":[{"at":0,"first":1,"last":1,"path":"t"},{"at":4,"first":1,"last":1,"path":"t"}],"tokens":3}],"ok":true,"total":1,"version":1}
"#;

const STEPS: &[u8] = br#"{"step":"took","by":1}
{}
"#;

const OUTCOMES: &[u8] = br#"{"ok":true,"value":null}
{"code":2,"error":"op","ok":false}
"#;

fn feeds(bytes: &[u8]) -> usize {
    bytes.iter().filter(|byte| **byte == b'\n').count()
}

// The first lines of these bytes, so many.
fn first_lines(bytes: &[u8], count: usize) -> &[u8] {
    let mut left = count;
    for (at, byte) in bytes.iter().enumerate() {
        if left == 0 {
            return &bytes[..at];
        }
        if *byte == b'\n' {
            left -= 1;
        }
    }
    bytes
}

// Reads an input byte by byte, of which one read fails, for each one up to the one at its end: the first of these of which
// other replies are written than those to the lines that were whole by then, or which doesn't end as a fault of reading.
fn first_read<Q: Threads + Wait + Sync>(
    rt: &Q,
    alloc: Global,
    words: &str,
    input: &[u8],
    output: &[u8],
) -> Result<Option<usize>, Memory> {
    for at in 0..input.len() + 1 {
        let told = first_lines(output, feeds(&input[..at]));
        let failing = (at as u64).saturating_add(1);
        if !ends_with(rt, alloc, words, input, 1, (failing, 0), told, 2)? {
            return Ok(Some(at));
        }
    }
    Ok(None)
}

// The same of writes, of which each takes a line, and where the lines before it are written.
fn first_write<Q: Threads + Wait + Sync>(
    rt: &Q,
    alloc: Global,
    words: &str,
    input: &[u8],
    output: &[u8],
) -> Result<Option<usize>, Memory> {
    for at in 0..feeds(output) {
        let told = first_lines(output, at);
        let failing = (at as u64).saturating_add(1);
        if !ends_with(rt, alloc, words, input, 4_096, (0, failing), told, 3)? {
            return Ok(Some(at));
        }
    }
    Ok(None)
}

#[test]
fn each_read_may_fail(rt: HostRuntime) -> Result<(), Memory> {
    let alloc = rt.alloc();
    assert_eq!(rt; first_read(&rt, alloc, RUN, ASKED, TOLD)?, None);
    assert_eq!(rt; first_read(&rt, alloc, DRIVE, STEPS, OUTCOMES)?, None);
    Ok(())
}

#[test]
fn each_write_may_fail(rt: HostRuntime) -> Result<(), Memory> {
    let alloc = rt.alloc();
    assert_eq!(rt; first_write(&rt, alloc, RUN, ASKED, TOLD)?, None);
    assert_eq!(rt; first_write(&rt, alloc, DRIVE, STEPS, OUTCOMES)?, None);
    let state = b"{\"op\":\"state\"}\n".as_slice();
    assert!(rt; ends_with(&rt, alloc, RUN, state, 5, (0, 2), b"{\"acc", 3)?);
    Ok(())
}

// Version 1 of the project `p` of `--chunk 2`, with the text `a` of language `any` at `t`.
const FILE: [u8; 112] = [
    67, 81, 84, 79, 75, 48, 48, 49, 0, 0, 0, 0, 0, 0, 0, 96, 0, 0, 0, 0, 0, 0, 0, 1, 0, 0, 0, 2, 0,
    0, 0, 0, 0, 1, 112, 0, 0, 0, 0, 0, 0, 0, 1, 0, 0, 0, 1, 116, 0, 0, 0, 0, 0, 0, 0, 1, 0, 0, 0,
    0, 0, 0, 0, 0, 0, 1, 0, 0, 0, 0, 0, 0, 0, 1, 0, 0, 0, 0, 0, 0, 0, 1, 0, 0, 0, 1, 0, 0, 0, 0, 0,
    0, 0, 0, 1, 0, 0, 0, 1, 0, 0, 0, 1, 0, 0, 0, 1, 97, 0, 0, 0, 0,
];

const PUT: &[u8] =
    b"{\"op\":\"put\",\"project\":\"p\",\"path\":\"t\",\"lang\":\"any\",\"text\":\"a\"}\n";

// A version is written however its calls are cut, and no byte of it after a fault.
#[test]
fn calls_of_export_may_fail(rt: HostRuntime) -> Result<(), Memory> {
    let alloc = rt.alloc();
    let words = "export p --chunk 2";
    assert!(rt; ends_with(&rt, alloc, words, PUT, 1, (0, 0), &FILE, 0)?);
    assert!(rt; ends_with(&rt, alloc, words, PUT, 65_536, (1, 0), b"", 2)?);
    assert!(rt; ends_with(&rt, alloc, words, PUT, 65_536, (0, 1), b"", 3)?);
    assert!(rt; ends_with(&rt, alloc, words, PUT, 100, (0, 2), &FILE[..100], 3)?);
    Ok(())
}

const QUERY: &[u8] = b"{\"op\":\"files\",\"project\":\"p\"}\n";

const FILES: &[u8] =
    b"{\"files\":[{\"change\":1,\"lang\":\"any\",\"lines\":1,\"path\":\"t\",\"state\":\"ok\",\"tokens\":1}],\"ok\":true,\"version\":1}\n";

// A kept version is asked however its file and the lines after it are cut, and nothing is answered after a fault.
#[test]
fn calls_of_ask_may_fail(rt: HostRuntime) -> Result<(), Memory> {
    let alloc = rt.alloc();
    let words = "ask --chunk 2";
    let mut whole = Vec::from_slice(alloc, &FILE)?;
    whole.extend_from_slice(QUERY)?;
    assert!(rt; ends_with(&rt, alloc, words, &whole, 1, (0, 0), FILES, 0)?);
    assert!(rt; ends_with(&rt, alloc, words, &whole, 65_536, (1, 0), b"", 2)?);
    Ok(())
}

#[test]
fn each_write_of_a_made_project_may_fail(rt: HostRuntime) -> Result<(), Memory> {
    let alloc = rt.alloc();
    let make = "make 7 3";
    assert!(rt; ends_with(&rt, alloc, make, b"{}\n", 9, (0, 1), b"", 3)?);
    assert!(rt; ends_with(&rt, alloc, make, b"{}\n", 7, (0, 2), b"{\"group", 3)?);
    Ok(())
}

fn read_once(source: &mut MemSource, out: &mut [u8; 4]) -> Result<usize, Failed> {
    source.read(out)
}

#[test]
fn a_reply_is_written_before_the_next_line_is_read(rt: HostRuntime) -> Result<(), Memory> {
    let alloc = rt.alloc();
    let words = words_of(alloc, RUN)?;
    let bytes = Vec::from_slice(alloc, b"{}\n{}\n")?;
    let mut source = MemSource::new(bytes, 3, Vec::new(alloc));
    let mut sink = MemSink::new(alloc, 99, 99, vec![in alloc; 1u64]?)?;
    assert_eq!(rt; run_here(&rt, alloc, &words, &mut source, &mut sink), 3);
    let mut left = [0u8; 4];
    assert_eq!(rt; read_once(&mut source, &mut left), Ok(3));
    Ok(())
}
