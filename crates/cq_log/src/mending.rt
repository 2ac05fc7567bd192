ghost use Rattle.std.specs.Prelude.{◌≡◌};
ghost use Rattle.cq_io.specs.Causes.{HasCause};
ghost use Rattle.cq_io.specs.Sending.{Sends};
ghost use Rattle.cq_log.specs.Mending.{mending};

use cq_io::{Failed, Sink, send};

// What is to be written at the end of a log.
fn feeds(unclosed: bool, torn: bool) -> &'static [u8]
    ensures { result.now ≡ mending unclosed torn }
{
    match (unclosed, torn) {
        (true, true) => b"\n\n".as_slice(),
        (true, false) | (false, true) => b"\n".as_slice(),
        (false, false) => b"".as_slice(),
    }
}

/// Writes what a log needs before another line: the line feed that its last line lacks, if it is `unclosed`, and an empty line
/// if its last line is `torn`.
pub fn mend<K: Sink>(unclosed: bool, torn: bool, sink: &mut K) -> Result<(), Failed>
    ensures bytes { Sends (K.written sink.old) (K.written sink.new) (mending unclosed torn) result }
    ensures cause { HasCause (K.faults sink.old) (K.faults sink.new) result }
{
    send(sink, feeds(unclosed, torn))
}
