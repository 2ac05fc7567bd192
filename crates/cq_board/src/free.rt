ghost use Rattle.std.specs.Prelude.{◌≡◌, ◌<◌, ◌≤◌, ◌^◌, ◌+◌, ◌-◌, [], length, IfOk, IfSome, IsNone, false, is_none, slice_index_or};
ghost use Rattle.std.specs.List.{position_or_len};
ghost use Rattle.cq_history.specs.State.{no_slot, is_free};
ghost use Rattle.cq_board.specs.Undone.{AreUndone};
ghost use Rattle.cq_board.specs.Free.{AreFree, AreFreeOnceGiven, AreFreeStill, AreHeaped, AreBehind, IsNext, IsNoneBefore, IsNoneHeldFrom, TakesFirst, RisesTo, room_of};

use cq_base::Memory;
use cq_kept::{Changes, is_free};
use cq_shard::Indexed;
use std::alloc::Global;
use std::cmp::Reverse;
use std::collections::{BTreeSet, BinaryHeap};

/// Which changes may be taken: those that were given back, and all from an index on that are not done. Changes stand at
/// their indexes, from 0.
#[derive(Drop)]
pub struct FreeChanges {
    /// The indexes that were given back and not taken since, the least first. Some of their changes may be done since.
    pub given_back: BinaryHeap<Reverse<u64>>,
    /// No change from this index on was ever taken.
    pub untaken: u64,
}

impl FreeChanges {
    /// Of no changes, with room for as many to be given back.
    pub fn new(alloc: Global, most: usize) -> Result<FreeChanges, Memory>
        ensures none { IfOk result (AreFree [] 0) }
        ensures room { IfOk result (λ free. most ≤ room_of free) }
    {
        Ok(FreeChanges {
            given_back: BinaryHeap::with_capacity(alloc, most)?,
            untaken: 0,
        })
    }
}

/// The index of the first change that is neither done nor taken, or how many there are. It costs a search, and another one
/// for each change that was given back and is done since, which is then forgotten.
pub fn first_free<W: Indexed>(
    changes: &Changes<W>,
    undone: &BTreeSet<u64>,
    free: &mut FreeChanges,
) -> u64
    requires undone { AreUndone changes.now.slots undone.now }
    requires free { AreFree changes.now.slots changes.now.floor free.old }
    ensures first { result ≡ position_or_len is_free changes.now.slots }
    ensures within { result ≤ length changes.now.slots }
    ensures free { AreFree changes.now.slots changes.now.floor free.new }
    ensures next { IsNext free.new result }
    ensures room { room_of free.new ≡ room_of free.old }
{
    match first_given_back(changes, free) {
        Some(i) => i,
        None => first_untaken(changes, undone, free.untaken),
    }
}

// The first one of those that were given back, if there is one. Those that are done are forgotten.
fn first_given_back<W: Indexed>(changes: &Changes<W>, free: &mut FreeChanges) -> Option<u64>
    requires { AreFree changes.now.slots changes.now.floor free.old }
    ensures first { IfSome result (λ i. i ≡ position_or_len is_free changes.now.slots) }
    ensures within { IfSome result (λ i. i ≤ length changes.now.slots) }
    ensures next { IfSome result (IsNext free.new) }
    ensures none { IsNone result → IsNoneBefore changes.now.slots free.new.untaken }
    ensures free { AreFree changes.now.slots changes.now.floor free.new }
    ensures room { room_of free.new ≡ room_of free.old }
{
    while let Some(given) = free.given_back.peek() {
        let i = given.0;
        if is_free_at(changes, i) {
            return Some(i);
        }
        free.given_back.pop();
    }
    None
}

// Whether a change above the floor, if there is one, is neither done nor taken.
fn is_free_at<W: Indexed>(changes: &Changes<W>, i: u64) -> bool
    requires { changes.now.floor ≤ i }
    ensures { result ≡ is_free (slice_index_or changes.now.slots i no_slot) }
{
    if i >= changes.len() {
        return false;
    }
    match changes.get(i + 1) {
        Some(kept) => is_free(kept),
        None => unreachable!(),
    }
}

// The first change that is not done, from an index on from which none is taken, and before which none may be.
fn first_untaken<W: Indexed>(changes: &Changes<W>, undone: &BTreeSet<u64>, start: u64) -> u64
    requires undone { AreUndone changes.now.slots undone.now }
    requires before { IsNoneBefore changes.now.slots start }
    requires behind { IsNoneHeldFrom changes.now.slots start }
    requires start { start ≤ length changes.now.slots }
    ensures first { result ≡ position_or_len is_free changes.now.slots }
    ensures within { result ≤ length changes.now.slots }
    ensures from { start ≤ result }
{
    match undone.range(start..).next() {
        Some(i) => *i,
        None => changes.len(),
    }
}

/// Notes that the first free change is taken. It takes no memory.
pub fn note_taken(free: &mut FreeChanges, i: u64)
    requires next { IsNext free.old i }
    requires few { i + 1 < 2 ^ 64 }
    ensures taken { TakesFirst i free.old free.new }
    ensures room { room_of free.new ≡ room_of free.old }
{
    if i < free.untaken {
        match free.given_back.pop() {
            Some(_given) => {}
            None => {}
        }
    } else {
        free.untaken = i + 1;
    }
}

/// Notes that a change above the floor is given back. It takes no memory, and costs a search.
pub fn note_given_back<W: Indexed>(changes: &Changes<W>, free: &mut FreeChanges, i: u64)
    requires behind { changes.now.floor ≤ i }
    requires within { i < length changes.now.slots }
    requires held { is_none (slice_index_or changes.now.slots i no_slot).holder ≡ false }
    requires free { AreFree changes.now.slots changes.now.floor free.old }
    requires room { length changes.now.slots - changes.now.floor ≤ room_of free.old }
    ensures given { AreFreeOnceGiven changes.now.slots changes.now.floor i free.new }
    ensures room { room_of free.old ≤ room_of free.new }
{
    match free.given_back.push(Reverse(i)) {
        Ok(()) => {}
        Err(_refused) => unreachable!(),
    }
}

/// Forgets those that a higher floor has passed, all of which are done. It takes no memory, and costs a search for each.
pub fn pass_over(free: &mut FreeChanges, floor: u64)
    ensures passed { RisesTo floor free.old free.new }
    ensures room { room_of free.new ≡ room_of free.old }
{
    drop_passed(free, floor);
    free.untaken = free.untaken.max(floor);
}

// The least ones go up to the first that is above the floor.
fn drop_passed(free: &mut FreeChanges, floor: u64)
    ensures free { AreFreeStill floor free.old free.new }
    ensures passed { AreHeaped free.old → AreBehind floor free.new }
    ensures untaken { free.new.untaken ≡ free.old.untaken }
    ensures room { room_of free.new ≡ room_of free.old }
{
    while let Some(given) = free.given_back.peek() {
        if floor <= given.0 {
            return;
        }
        free.given_back.pop();
    }
}
