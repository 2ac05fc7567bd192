ghost use Rattle.std.specs.Prelude.{◌≡◌, List, ℕ, Option, Some, None, IsSome, OnOk, OnErr};
ghost use Rattle.cq_io.specs.Causes.{HasCause};
ghost use Rattle.cq_io.specs.Doors.{Opens};

use crate::memory::{MemSink, MemSource};
use crate::sink::Sink;
use crate::source::{Failed, Source};
use cq_base::Text;
use std::collections::VecDeque;

/// Where connections come from, each a source and a sink.
pub trait Doors {
    type In: Source;

    type Out: Sink;

    /// How often a call has failed. It never falls.
    ghost faults: { Self → ℕ };

    /// The address of the last `bind` that succeeded, if there was one.
    ghost bound: { Self → Option (List ℕ) };

    /// How many connections are still to come, if the doors report it.
    ghost left: { Self → Option ℕ };

    /// Listens at an address. After `Failed` the doors are bound as before.
    fn bind(&mut self, addr: Text) -> Result<(), Failed>
        ensures bound { OnOk result (bound self.new ≡ Some addr) }
        ensures unbound { OnErr result (bound self.new ≡ bound self.old) }
        ensures left { left self.new ≡ left self.old }
        ensures cause { HasCause (faults self.old) (faults self.new) result };

    /// The next connection, and None if no more will come. After `Failed` the number still to come is as before.
    fn next_door(&mut self) -> Result<Option<(Self::In, Self::Out)>, Failed>
        requires { IsSome (bound self.old) }
        ensures bound { bound self.new ≡ bound self.old }
        ensures left { Opens (left self.old) (left self.new) result }
        ensures cause { HasCause (faults self.old) (faults self.new) result };
}

/// Doors in memory: a list of scripted ends. Their calls, of both kinds together, are counted from 1, and those with a
/// number in `failing` fail.
#[derive(Drop)]
pub struct MemDoors {
    ends: VecDeque<(MemSource, MemSink)>,
    bound: Option<Text>,
    failing: Vec<u64>,
    calls: u64,
    faults: u64,
}

impl MemDoors {
    ghost use Rattle.cq_io.specs.Doors.{bound_of, left_of, door_faults};
    ghost use Rattle.std.specs.VecDeque.{deque_len};

    pub fn new(ends: VecDeque<(MemSource, MemSink)>, failing: Vec<u64>) -> MemDoors
        ensures unbound { bound_of result ≡ None }
        ensures left { left_of result ≡ Some (deque_len ends) }
        ensures faults { door_faults result ≡ 0 }
    {
        MemDoors {
            ends,
            bound: None,
            failing,
            calls: 0,
            faults: 0,
        }
    }
}

impl Doors for MemDoors {
    type In = MemSource;

    type Out = MemSink;

    ghost use Rattle.cq_io.specs.Doors.{bound_of, left_of, door_faults};

    ghost faults = { door_faults };

    ghost bound = { bound_of };

    ghost left = { left_of };

    fn bind(&mut self, addr: Text) -> Result<(), Failed> {
        self.calls = self.calls.saturating_add(1);
        if self.failing.contains(&self.calls) {
            self.faults = self.faults.saturating_add(1);
            return Err(Failed);
        }
        self.bound = Some(addr);
        Ok(())
    }

    fn next_door(&mut self) -> Result<Option<(MemSource, MemSink)>, Failed> {
        self.calls = self.calls.saturating_add(1);
        if self.failing.contains(&self.calls) {
            self.faults = self.faults.saturating_add(1);
            return Err(Failed);
        }
        Ok(self.ends.pop_front())
    }
}
