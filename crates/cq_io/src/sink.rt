ghost use Rattle.std.specs.Prelude.{◌≡◌, ◌<◌, ◌≤◌, List, ℕ, length, Option, is_some, IfOk};
ghost use Rattle.std.specs.Io.KnownBytes.{WriteAppends};
ghost use Rattle.cq_io.specs.Causes.{HasCause};
ghost use Rattle.cq_io.specs.Sending.{Sends};

use crate::source::Failed;

/// Where bytes go.
pub trait Sink {
    /// The bytes that were written, if the sink reports them.
    ghost written: { Self → Option (List ℕ) };

    /// How often it has failed. It never falls.
    ghost faults: { Self → ℕ };

    /// Takes a front part of the piece, of at least one byte, and says how many bytes that is. A sink that can take
    /// none answers `Failed`. After `Failed` what was written is as before.
    fn write(&mut self, piece: &[u8]) -> Result<usize, Failed>
        requires { 0 < length piece.now }
        ensures some { IfOk result (λ n. 0 < n) }
        ensures within { IfOk result (λ n. n ≤ length piece.now) }
        ensures bytes { WriteAppends (written self.old) (written self.new) result piece.now }
        ensures told { is_some (written self.new) ≡ is_some (written self.old) }
        ensures cause { HasCause (faults self.old) (faults self.new) result };
}

/// Writes a piece whole, however little the sink takes at a time. After `Failed` a front of it was written.
pub fn send<K: Sink>(sink: &mut K, piece: &[u8]) -> Result<(), Failed>
    ensures bytes { Sends (K.written sink.old) (K.written sink.new) piece.now result }
    ensures cause { HasCause (K.faults sink.old) (K.faults sink.new) result }
{
    let mut rest = piece;
    'rest: while !rest.is_empty() {
        let count = sink.write(rest)?;
        rest = &rest[count..];
    }
    Ok(())
}
