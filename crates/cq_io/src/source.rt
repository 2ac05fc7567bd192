ghost use Rattle.std.specs.Prelude.{◌≡◌, ◌<◌, ◌≤◌, List, ℕ, length, Option, is_some, IfOk};
ghost use Rattle.std.specs.Io.KnownBytes.{ReadConsumes};
ghost use Rattle.cq_io.specs.Causes.{HasCause};

use thiserror::Error;

/// A call to the outside failed. It is answered only if the end's count of faults rose in that call.
#[derive(Clone, Copy, Debug, PartialEq, Eq, Error)]
#[error("a call to the outside failed")]
pub struct Failed;

/// Where bytes come from.
pub trait Source {
    /// The bytes that are left, if the source reports them.
    ghost rest: { Self → Option (List ℕ) };

    /// How often it has failed. It never falls.
    ghost faults: { Self → ℕ };

    /// Puts the next bytes at the front of `out` and returns how many. It answers 0 only if none are left. After
    /// `Failed` the bytes that are left are as before.
    fn read(&mut self, out: &mut [u8]) -> Result<usize, Failed>
        requires { 0 < length out.old }
        ensures within { IfOk result (λ n. n ≤ length out.old) }
        ensures bytes { ReadConsumes (rest self.old) (rest self.new) result out.new }
        ensures told { is_some (rest self.new) ≡ is_some (rest self.old) }
        ensures cause { HasCause (faults self.old) (faults self.new) result };
}
