ghost use Rattle.std.specs.Prelude.{◌≡◌, ◌+◌, ◌<◌, ◌≤◌, ◌++◌, [], length, take, OnOk, OnErr};
ghost use Rattle.std.specs.List.{copy_within};
ghost use Rattle.std.specs.List.Sorted.{IsStrictlyIncreasing};
ghost use Rattle.cq_shard.specs.Calls.{ClosesUp};
ghost use Rattle.cq_shard.specs.Tables.{IsUpTo, IsPart, is_among, no_later, staying, AreAmong, AreAlikeInFront, AreAlikeUpTo, last_in};

use crate::run::is_live;
use cq_base::Memory;
use std::alloc::Global;
use std::marker::Model;

/// Some of the puts that a shard knows, ascending, each with how many entries it has there. It is 16 bytes for each, and
/// as much room again at most.
#[derive(Drop)]
pub(crate) struct Puts {
    changes: Vec<u64>,
    sizes: Vec<u64>,
}

impl Model for Puts {
    ghost use Rattle.std.specs.Prelude.{List, ℕ};
    ghost use Rattle.cq_shard.specs.Tables.{ArePuts};

    ghost Value = { List ℕ };

    ghost view = { λ p. p.changes.items };

    ghost invariant = { λ p. ArePuts p.changes.items p.sizes.items };
}

impl Puts {
    /// No puts. It takes no memory.
    pub fn new(alloc: Global) -> Puts
        ensures { result ≡ [] }
    {
        Puts {
            changes: Vec::new(alloc),
            sizes: Vec::new(alloc),
        }
    }

    /// How many puts there are.
    pub fn len(&self) -> usize
        ensures { result ≡ length self.now }
    {
        self.changes.len()
    }

    /// Whether the change is one of them. It is a binary search at most.
    pub fn has(&self, change: u64) -> bool
        ensures { result ≡ is_among self.now change }
    {
        is_live(&self.changes, change)
    }

    /// The last of them.
    pub fn last(&self) -> u64
        requires { 0 < length self.now }
        ensures { result ≡ last_in self.now }
    {
        self.changes[self.changes.len() - 1]
    }

    /// Their numbers.
    pub fn changes(&self) -> &[u64]
        ensures { result.now ≡ self.now }
    {
        &self.changes
    }

    /// How many entries each has, and maybe more numbers after these.
    pub fn sizes(&self) -> &[u64]
        ensures { length self.now ≤ length result.now }
    {
        &self.sizes
    }

    /// These puts more, which are later than all before, with how many entries each has.
    pub fn append(&mut self, changes: &[u64], sizes: &[u64]) -> Result<(), Memory>
        requires rising { IsStrictlyIncreasing (self.old ++ changes.now) }
        requires sized { length changes.now ≤ length sizes.now }
        ensures appended { OnOk result (self.new ≡ self.old ++ changes.now) }
        ensures same { OnErr result (self.new ≡ self.old) }
    {
        self.sizes.truncate(self.changes.len());
        self.sizes.extend_from_slice(sizes)?;
        self.changes.extend_from_slice(changes)?;
        Ok(())
    }

    /// Only the puts up to this number.
    pub fn cut(&mut self, last: u64)
        ensures { self.new ≡ no_later last self.old }
    {
        let number = up_to(&self.changes, last);
        self.changes.truncate(number);
    }

    /// Takes the puts up to the floor out except for those to keep, and returns how many went, and how many entries they
    /// had. If all are to be kept it only compares two lengths. Otherwise it is two searches, and one more for each that
    /// goes. What is between two that go, or after the last, moves up at once.
    pub fn take_out(&mut self, floor: u64, keep: &[u64]) -> (usize, u64)
        requires keep { IsStrictlyIncreasing keep.now }
        requires known { AreAmong keep.now self.old }
        ensures left { self.new ≡ staying floor keep.now self.old }
        ensures none { result.0 ≡ 0 → self.new ≡ self.old }
    {
        if keep.len() == self.changes.len() {
            return (0, 0);
        }
        let end = up_to(&self.changes, floor);
        let kept = up_to(keep, floor);
        let number = end - kept;
        let keep = &keep[..kept];
        let taken = close_up(&mut self.changes, &mut self.sizes, keep, number);
        (number, taken)
    }
}

/// How many of the numbers are at most the floor. It is a binary search.
pub(crate) fn up_to(numbers: &[u64], floor: u64) -> usize
    requires { IsStrictlyIncreasing numbers.now }
    ensures { IsUpTo numbers.now floor result }
{
    numbers.partition_point(|number| *number <= floor)
}

// Takes this many changes out, which are among those to keep, up to the last of these or after it, and returns how
// many entries they had.
fn close_up(changes: &mut Vec<u64>, sizes: &mut Vec<u64>, keep: &[u64], number: usize) -> u64
    requires sized { length changes.old.items ≤ length sizes.old.items }
    requires within { length keep.now + number ≤ length changes.old.items }
    requires part { IsPart (take (length keep.now + number) changes.old.items) keep.now number }
    ensures sized { length changes.new.items ≤ length sizes.new.items }
    ensures left { ClosesUp keep.now number changes.old.items changes.new.items }
{
    let mut at = 0;
    let mut taken = 0u64;
    'going: for gone in 0..number {
        let next = alike(changes, keep, at, gone);
        move_up(changes, at + gone, next - at, at);
        move_up(sizes, at + gone, next - at, at);
        taken = taken.saturating_add(sizes[next + gone]);
        at = next;
    }
    let rest = changes.len() - (at + number);
    move_up(changes, at + number, rest, at);
    move_up(sizes, at + number, rest, at);
    changes.truncate(at + rest);
    taken
}

// Up to where, from a place on, what is to be kept is this many places further on among the changes. It is a binary
// search.
fn alike(changes: &[u64], keep: &[u64], from: usize, gone: usize) -> usize
    requires from { from ≤ length keep.now }
    requires within { length keep.now + gone ≤ length changes.now }
    requires front { AreAlikeInFront changes.now keep.now gone from }
    ensures { AreAlikeUpTo changes.now keep.now gone from result }
{
    let mut low = from;
    let mut high = keep.len();
    'halves: while low < high {
        let middle = between(low, high);
        let found = changes[middle + gone];
        let wanted = keep[middle];
        if found == wanted {
            low = middle + 1;
        } else {
            high = middle;
        }
    }
    low
}

// The place in the middle of those from one place up to another.
fn between(low: usize, high: usize) -> usize
    requires { low < high }
    ensures { (low ≤ result) × (result < high) }
{
    low + (high - low) / 2
}

// Moves this many numbers from one place on to an earlier one, over those that are there.
fn move_up(numbers: &mut Vec<u64>, from: usize, many: usize, to: usize)
    requires earlier { to ≤ from }
    requires within { from + many ≤ length numbers.old.items }
    ensures { numbers.new.items ≡ copy_within numbers.old.items from (from + many) to }
{
    if to < from {
        numbers.copy_within(from..from + many, to);
    }
}
