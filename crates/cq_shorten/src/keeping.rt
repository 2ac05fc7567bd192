ghost use Rattle.std.specs.Prelude.{◌≡◌, ◌↔◌, true, [], IfOk};
ghost use Rattle.cq_io.specs.Causes.{HasCause};
ghost use Rattle.cq_kept.specs.Accepted.{Holds};
ghost use Rattle.cq_shorten.specs.Keeping.{Has, KeepsNeeded, SendsHeld, SendsNeeded};

use crate::held::Shortener;
use crate::nothing::Unworked;
use cq_base::{Change, Memory, Settings};
use cq_io::{Failed, Sink};
use cq_kept::{Changes, stored};
use cq_lines::send_line;
use cq_log::Taker;
use std::alloc::Global;
use std::collections::BTreeMap;

// Lines are looked through once there are more than twice as many as were needed then, and this many.
const FEW: usize = 1_024;

// The bytes of a line.
fn copied(alloc: Global, line: &[u8]) -> Result<Vec<u8>, Memory>
    ensures { IfOk result (λ copy. copy.items ≡ line.now) }
{
    let mut copy = Vec::with_capacity(alloc, line.len())?;
    copy.extend_from_slice(line)?;
    Ok(copy)
}

// Whether the change of a number is held.
fn is_held(changes: &Changes<Unworked>, number: u64) -> bool
    ensures { (result ≡ true) ↔ Holds changes.now number }
{
    changes.get(number).is_some()
}

impl Shortener {
    /// It has taken no changes.
    pub fn new(alloc: Global, settings: &Settings) -> Shortener
        ensures { Has result settings.now [] [] }
    {
        Shortener {
            changes: Changes::new(alloc, settings),
            lines: BTreeMap::new(alloc),
            most: FEW,
        }
    }

    // Lets go of the lines of changes that are gone, now and then: each line is looked at twice at most for each that came.
    fn ease(&mut self)
        ensures same { self.new.changes ≡ self.old.changes }
        ensures lines { KeepsNeeded self.old self.new }
    {
        if self.lines.len() <= self.most {
            return;
        }
        let changes = &self.changes;
        self.lines.retain(|number, _line| is_held(changes, *number));
        self.most = self.lines.len().saturating_mul(2).max(FEW);
    }

    // Writes the line of a change that is held, with its line feed.
    fn send_held<K: Sink>(&self, number: u64, sink: &mut K) -> Result<(), Failed>
        ensures bytes { SendsHeld self.now number (K.written sink.old) (K.written sink.new) result }
        ensures cause { HasCause (K.faults sink.old) (K.faults sink.new) result }
    {
        match self.lines.get(&number) {
            Some(line) => send_line(sink, line.as_slice()),
            None => Ok(()),
        }
    }

    /// Writes the lines of the changes that the last version needs, in order, each with its line feed.
    pub fn write<K: Sink>(&self, sink: &mut K) -> Result<(), Failed>
        ensures bytes { SendsNeeded self.now (K.written sink.old) (K.written sink.new) result }
        ensures cause { HasCause (K.faults sink.old) (K.faults sink.new) result }
    {
        let mut after = 0;
        'kept: while let Some((number, _kept)) = self.changes.next(after) {
            match self.send_held(number, sink) {
                Ok(()) => after = number,
                Err(Failed) => return Err(Failed),
            }
        }
        Ok(())
    }
}

impl Taker for Shortener {
    ghost use Rattle.cq_shorten.specs.Keeping.{Has};

    ghost Has = { Has };

    ghost ready = { λ taker. Unit {0} };

    ghost Target = { Unit {0} };

    ghost target_of = { λ taker. tt };

    fn take(
        &mut self,
        alloc: Global,
        _settings: &Settings,
        change: Change,
        line: &[u8],
    ) -> Result<bool, Memory> {
        let change = stored(alloc, change)?;
        if self.changes.is_absent(&change)
            || self.changes.is_full()
            || self.changes.is_long(&change)
        {
            return Ok(false);
        }
        let line = copied(alloc, line)?;
        self.changes.accept(change)?;
        let number = self.changes.len();
        self.lines.insert(number, line)?;
        self.changes.set_floor(number);
        self.ease();
        Ok(true)
    }
}
