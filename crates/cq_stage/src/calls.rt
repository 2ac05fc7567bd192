ghost use Rattle.std.specs.Prelude.{◌≡◌, ◌≤◌};
ghost use Rattle.cq_io.specs.Causes.{HasCause, Rose};

use cq_io::Failed;

/// Which call fails, counted from 1, with 0 for none; how many came, and how many failed.
#[derive(Drop)]
pub(crate) struct Calls {
    failing: u64,
    came: u64,
    pub faults: u64,
}

impl Calls {
    pub(crate) fn new(failing: u64) -> Calls
        ensures { result.faults ≡ 0 }
    {
        Calls {
            failing,
            came: 0,
            faults: 0,
        }
    }

    /// One more call.
    pub(crate) fn come(&mut self) -> Result<(), Failed>
        ensures { HasCause self.old.faults self.new.faults result }
    {
        self.came = self.came.saturating_add(1);
        if self.failing == self.came {
            self.fail();
            return Err(Failed);
        }
        Ok(())
    }

    /// A call fails.
    pub(crate) fn fail(&mut self)
        ensures later { self.old.faults ≤ self.new.faults }
        ensures rose { Rose self.old.faults self.new.faults }
    {
        self.faults = self.faults.saturating_add(1);
    }
}
