use cq_base::Text;
use cq_io::{Doors, Failed, MemDoors, MemSink, MemSource, Sink, Source, StdSink, StdSource};
use std::alloc::Global;
use std::collections::VecDeque;
use std::io;
use std::io::{ErrorKind, Read, Write};
use std::test::Fail;

// A reader that gives one byte a call. Each call that gives one is interrupted first.
#[derive(Drop)]
struct SlowReader<'a> {
    rest: &'a [u8],
    interrupted: bool,
}

impl Read for SlowReader<'_> {
    fn read(&mut self, buf: &mut [u8]) -> io::Result<usize> {
        self.interrupted = !self.interrupted;
        if self.interrupted {
            return Err(io::Error::from(ErrorKind::Interrupted));
        }
        let count = self.rest.len().min(buf.len()).min(1);
        buf[..count].copy_from_slice(&self.rest[..count]);
        self.rest = &self.rest[count..];
        Ok(count)
    }
}

// A writer that takes one byte a call, in the same way. Its flushes are interrupted too.
#[derive(Drop)]
struct SlowWriter<'a> {
    taken: &'a mut Vec<u8>,
    interrupted: bool,
    flush_interrupted: bool,
}

impl Write for SlowWriter<'_> {
    fn write(&mut self, buf: &[u8]) -> io::Result<usize> {
        self.interrupted = !self.interrupted;
        if self.interrupted {
            return Err(io::Error::from(ErrorKind::Interrupted));
        }
        let count = buf.len().min(1);
        match self.taken.extend_from_slice(&buf[..count]) {
            Ok(()) => Ok(count),
            Err(_) => Err(io::Error::from(ErrorKind::OutOfMemory)),
        }
    }

    fn flush(&mut self) -> io::Result<()> {
        self.flush_interrupted = !self.flush_interrupted;
        if self.flush_interrupted {
            return Err(io::Error::from(ErrorKind::Interrupted));
        }
        Ok(())
    }
}

fn read_once<S: Source>(source: &mut S, out: &mut [u8; 4]) -> Result<usize, Failed> {
    source.read(out)
}

fn write_once<K: Sink>(sink: &mut K, piece: &[u8; 3]) -> Result<usize, Failed> {
    sink.write(piece)
}

#[test]
fn std_ends_give_and_take_every_byte(rt: HostRuntime) -> Result<(), Fail> {
    let mut taken = Vec::new(rt.alloc());
    let mut source = StdSource::new(SlowReader {
        rest: b"abc",
        interrupted: false,
    });
    let mut sink = StdSink::new(SlowWriter {
        taken: &mut taken,
        interrupted: false,
        flush_interrupted: false,
    });
    let mut out = [0u8; 4];
    for _ in 0..3 {
        assert_eq!(rt; read_once(&mut source, &mut out), Ok(1));
        assert_eq!(rt; write_once(&mut sink, &[out[0], b'x', b'y']), Ok(1));
    }
    assert_eq!(rt; read_once(&mut source, &mut out), Ok(0));
    drop(sink);
    assert_eq!(rt; taken.as_slice(), b"abc".as_slice());
    Ok(())
}

// Doors with one connection, whose second call fails.
fn doors(alloc: Global) -> Result<MemDoors, Fail> {
    let mut ends = VecDeque::new(alloc);
    let source = MemSource::new(b"a".to_vec(alloc)?, 1, Vec::new(alloc));
    let sink = MemSink::new(alloc, 1, 1, Vec::new(alloc))?;
    ends.push_back((source, sink))?;
    Ok(MemDoors::new(ends, vec![in alloc; 2u64]?))
}

#[test]
fn doors_open_in_order_and_fail_where_they_are_told(rt: HostRuntime) -> Result<(), Fail> {
    let mut doors = doors(rt.alloc())?;
    assert_eq!(rt; doors.bind(Text::from_bytes(rt.alloc(), b"mem")?), Ok(()));
    assert!(rt; doors.next_door().is_err());
    assert!(rt; doors.next_door().is_ok_and(|door| door.is_some()));
    assert!(rt; doors.next_door().is_ok_and(|door| door.is_none()));
    Ok(())
}
