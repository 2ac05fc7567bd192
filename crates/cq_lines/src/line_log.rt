ghost use Rattle.std.specs.Prelude.{◌≡◌, OnOk, OnErr};
ghost use Rattle.cq_io.specs.Causes.{HasCause};
ghost use Rattle.cq_io.specs.Sending.{Sends};
ghost use Rattle.cq_lines.specs.Pieces.{ended};
ghost use Rattle.cq_lines.specs.LineLogs.{KeepsLine, BreaksOff, log_at};

use cq_io::{Failed, Sink, send};

/// A sink of lines, which is lent, and whether each line that was handed to it is written whole.
#[derive(Drop)]
pub struct LineLog<'a, K> {
    pub sink: &'a mut K,
    pub whole: bool,
}

/// Writes a line with its line feed.
pub fn send_line<K: Sink>(sink: &mut K, line: &[u8]) -> Result<(), Failed>
    ensures bytes { Sends (K.written sink.old) (K.written sink.new) (ended line.now) result }
    ensures cause { HasCause (K.faults sink.old) (K.faults sink.new) result }
{
    send(sink, line)?;
    send(sink, b"\n".as_slice())
}

impl<'a, K: Sink> LineLog<'a, K> {
    /// Writes a line with its line feed. After a failure a front of it was written, and every later call fails without a
    /// write.
    pub fn keep(&mut self, line: &[u8]) -> Result<(), Failed>
        ensures same_reference { self.new.sink.ghost_name ≡ self.old.sink.ghost_name }
        ensures kept { OnOk result (KeepsLine K.Sink
            (log_at self.old.sink.now self.old.whole) (log_at self.new.sink.now self.new.whole) line.now) }
        ensures broken { OnErr result (BreaksOff K.Sink
            (log_at self.old.sink.now self.old.whole) (log_at self.new.sink.now self.new.whole) line.now) }
    {
        if !self.whole {
            return Err(Failed);
        }
        match send_line(self.sink, line) {
            Ok(()) => Ok(()),
            Err(Failed) => {
                self.whole = false;
                Err(Failed)
            }
        }
    }
}
