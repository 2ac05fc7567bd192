ghost use Rattle.std.specs.Prelude.{◌≡◌, ◌<◌, ◌≤◌, [], Some, vec_len, IfOk};
ghost use Rattle.std.specs.Vec.{vec_capacity};

use crate::sink::Sink;
use crate::source::{Failed, Source};
use cq_base::Memory;
use std::alloc::Global;

/// A source in memory. Its calls are counted from 1, and those with a number in `failing` fail. It reports its bytes.
#[derive(Drop)]
pub struct MemSource {
    bytes: Vec<u8>,
    place: usize,
    greatest: usize,
    failing: Vec<u64>,
    calls: u64,
    faults: u64,
    ghost placed: { place ≤ vec_len bytes },
    ghost gives: { 0 < greatest },
}

impl MemSource {
    ghost use Rattle.cq_io.specs.Memory.{left_of, source_faults};

    /// A source of these bytes, which gives at most `greatest` of them a call.
    pub fn new(bytes: Vec<u8>, greatest: usize, failing: Vec<u64>) -> Self
        requires { 0 < greatest }
        ensures rest { left_of result ≡ Some bytes.items }
        ensures faults { source_faults result ≡ 0 }
    {
        MemSource {
            bytes,
            place: 0,
            greatest,
            failing,
            calls: 0,
            faults: 0,
        }
    }
}

impl Source for MemSource {
    ghost use Rattle.cq_io.specs.Memory.{left_of, source_faults};

    ghost rest = { left_of };

    ghost faults = { source_faults };

    fn read(&mut self, out: &mut [u8]) -> Result<usize, Failed> {
        self.calls = self.calls.saturating_add(1);
        if self.failing.contains(&self.calls) {
            self.faults = self.faults.saturating_add(1);
            return Err(Failed);
        }
        let left = self.bytes.len() - self.place;
        let count = left.min(self.greatest).min(out.len());
        out[..count].copy_from_slice(&self.bytes[self.place..self.place + count]);
        self.place += count;
        Ok(count)
    }
}

/// A sink in memory with room for a given number of bytes. It takes its memory when it is made, and none for a write.
/// With no room left it fails. It reports its bytes.
#[derive(Drop)]
pub struct MemSink {
    written: Vec<u8>,
    room: usize,
    greatest: usize,
    failing: Vec<u64>,
    calls: u64,
    faults: u64,
    ghost within: { vec_len written ≤ room },
    ghost reserved: { room ≤ vec_capacity written },
    ghost takes: { 0 < greatest },
}

impl MemSink {
    ghost use Rattle.cq_io.specs.Memory.{held_by, sink_faults};

    /// A sink with room for `room` bytes, which takes at most `greatest` of them a call.
    pub fn new(
        alloc: Global,
        room: usize,
        greatest: usize,
        failing: Vec<u64>,
    ) -> Result<Self, Memory>
        requires { 0 < greatest }
        ensures written { IfOk result (λ s. held_by s ≡ Some []) }
        ensures faults { IfOk result (λ s. sink_faults s ≡ 0) }
    {
        Ok(MemSink {
            written: Vec::with_capacity(alloc, room)?,
            room,
            greatest,
            failing,
            calls: 0,
            faults: 0,
        })
    }

    /// What was written so far.
    pub fn written(&self) -> &[u8]
        ensures { held_by self.now ≡ Some result.now }
    {
        self.written.as_slice()
    }
}

impl Sink for MemSink {
    ghost use Rattle.cq_io.specs.Memory.{held_by, sink_faults};

    ghost written = { held_by };

    ghost faults = { sink_faults };

    fn write(&mut self, piece: &[u8]) -> Result<usize, Failed> {
        self.calls = self.calls.saturating_add(1);
        let left = self.room - self.written.len();
        let count = left.min(self.greatest).min(piece.len());
        if count == 0 || self.failing.contains(&self.calls) {
            self.faults = self.faults.saturating_add(1);
            return Err(Failed);
        }
        self.written.extend_from_slice(&piece[..count]).unwrap();
        Ok(count)
    }
}
