ghost use Rattle.std.specs.Prelude.{◌≡◌, ◌<◌, ◌≤◌, length, None, IfSome};

use crate::sink::Sink;
use crate::source::{Failed, Source};
use std::io::{ErrorKind, Read, Write};

/// Any reader of std, with a count of the calls that failed. A call that was interrupted is made again. It reports
/// nothing about its bytes.
#[derive(Drop)]
pub struct StdSource<R: Read + Drop> {
    reader: R,
    faults: u64,
}

impl<R: Read + Drop> StdSource<R> {
    ghost use Rattle.cq_io.specs.Standard.{reader_faults};

    /// A source of what the reader gives, with no fault so far.
    pub fn new(reader: R) -> Self
        ensures { reader_faults result ≡ 0 }
    {
        StdSource { reader, faults: 0 }
    }
}

// Reads once, and again if the call was interrupted.
fn read_through<R: Read>(reader: &mut R, out: &mut [u8]) -> Option<usize>
    ensures { IfSome result (λ n. n ≤ length out.old) }
{
    for _ in 0..u64::MAX {
        match reader.read(out) {
            Ok(count) => return Some(count),
            Err(error) => {
                if error.kind() != ErrorKind::Interrupted {
                    return None;
                }
            }
        }
    }
    None
}

impl<R: Read + Drop> Source for StdSource<R> {
    ghost use Rattle.cq_io.specs.Standard.{reader_faults};

    ghost rest = { λ _. None };

    ghost faults = { reader_faults };

    fn read(&mut self, out: &mut [u8]) -> Result<usize, Failed> {
        match read_through(&mut self.reader, out) {
            Some(count) => Ok(count),
            None => {
                self.faults = self.faults.saturating_add(1);
                Err(Failed)
            }
        }
    }
}

/// Any writer of std, with a count of the calls that failed. A call that was interrupted is made again. It is flushed
/// after each write, and reports nothing about its bytes.
#[derive(Drop)]
pub struct StdSink<W: Write + Drop> {
    writer: W,
    faults: u64,
}

impl<W: Write + Drop> StdSink<W> {
    ghost use Rattle.cq_io.specs.Standard.{writer_faults};

    /// A sink into the writer, with no fault so far.
    pub fn new(writer: W) -> Self
        ensures { writer_faults result ≡ 0 }
    {
        StdSink { writer, faults: 0 }
    }
}

// Flushes, and again if the call was interrupted. It returns whether that was done.
fn flush_through<W: Write>(writer: &mut W) -> bool {
    for _ in 0..u64::MAX {
        match writer.flush() {
            Ok(()) => return true,
            Err(error) => {
                if error.kind() != ErrorKind::Interrupted {
                    return false;
                }
            }
        }
    }
    false
}

// How many bytes the writer took and flushed, if that is at least one.
fn write_through<W: Write>(writer: &mut W, piece: &[u8]) -> Option<usize>
    ensures { IfSome result (λ n. (0 < n) × (n ≤ length piece.now)) }
{
    for _ in 0..u64::MAX {
        match writer.write(piece) {
            Ok(count) => {
                let flushed = flush_through(writer);
                return if count == 0 || !flushed {
                    None
                } else {
                    Some(count)
                };
            }
            Err(error) => {
                if error.kind() != ErrorKind::Interrupted {
                    return None;
                }
            }
        }
    }
    None
}

impl<W: Write + Drop> Sink for StdSink<W> {
    ghost use Rattle.cq_io.specs.Standard.{writer_faults};

    ghost written = { λ _. None };

    ghost faults = { writer_faults };

    fn write(&mut self, piece: &[u8]) -> Result<usize, Failed> {
        match write_through(&mut self.writer, piece) {
            Some(count) => Ok(count),
            None => {
                self.faults = self.faults.saturating_add(1);
                Err(Failed)
            }
        }
    }
}
