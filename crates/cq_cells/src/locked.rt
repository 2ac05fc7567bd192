// The cells by their numbers, and the eight kinds of atomic step on them.
ghost use Rattle.std.specs.Prelude.{◌≡◌, ◌≢◌, ◌⊎◌, ℕ, ◌-◌, ◌^◌, ◌<◌, ◌≤◌, List, [], ◌∷◌, ◌++◌, length, Option, None, Some, IfOk, map};
ghost use mathlib.Core.List.{IsPrefix};
ghost use Rattle.cq_cells.specs.Callers.{Differ, NoneFrom, longer};
ghost use Rattle.cq_cells.specs.Counts.{least_of, more_known};
ghost use Rattle.cq_cells.specs.Steps.{IsIdle, HasEmpty, HasOwn, IsSameSeat, KeepsCaller, KeepsSeen, KeepsAndAdds, SeesNoted, AreOneHistory, IsOf, Finds, MayNoteHere, FitsBack, first_view, view, less, child, AllFit};

use crate::law::{CellLaw, Noting};
use crate::rule::{Beside, CellRule, Compare, NewCaller, Note, Release, Take, Witness};
use crate::view::View;
use atomic_table::{Refused, Seat, Table};
use std::alloc::{AllocError, Global};
use std::hint::spin_loop;
use std::sync::Wait;
use std::sync::atomic::{AtomicU64, Ordering};

/// A token of no bytes, with which a thread steps on the cells.
pub type Seated<I, E, K> = Seat<Option<I>, View<I, E, K>>;

// How often a word that is held is looked at before the thread sleeps: about as long as a change is applied to a shard.
const LOOKS: u32 = 400;

#[derive(Drop)]
pub struct Locked<I, E, K, L: CellLaw<I, E, K>, R> {
    table: Table<Option<I>, View<I, E, K>, K, CellRule<L>, Global>,
    rt: R,
    count: usize,
    // How many wait for a cell, at least: who releases one while none waits wakes nobody.
    waiting: AtomicU64,
    ghost sized: { (table.shared.table_id.words ≡ count) × (table.shared.table_id.slots ≡ count) × (0 < count) },
}

impl<I, E, K, L: CellLaw<I, E, K>, R: Wait> Locked<I, E, K, L, R> {
    /// Takes the cell, and waits while another pass holds it.
    pub fn take(&self, cell: usize, pass: &mut Seated<I, E, K>) -> I
        requires own { IsOf self.now.table.shared.table_id self.now.table.shared.key pass.old
            × (cell < self.now.count) }
        requires free { IsIdle pass.old }
        ensures own { IsSameSeat pass.old pass.new × KeepsCaller (view pass.old) (view pass.new) }
        ensures hand { HasEmpty pass.new cell result None }
        ensures seen { IsPrefix (view pass.old).seen (view pass.new).seen }
        ensures value { Finds L.lawful L.fits L.caller self.now.table.shared.key
            cell result pass.old pass.new }
    {
        for _ in self.rt.forever() {
            let found = self.table.shared.peek(cell);
            if found % 2 == 0 {
                let shared = &self.table.shared;
                if shared.compare_exchange::<Take<L>>(pass, cell, found, found + 1) == found {
                    return shared.exchange(pass, cell, None).unwrap();
                }
            } else {
                self.wait(cell, found);
            }
        }
        unreachable!()
    }

    // Watches the word until it changes, or for so long that a sleep costs less; then sleeps while the word is
    // unchanged, until a wake. It counts itself among those that wait before it looks at the word once more, and
    // whoever releases the cell changes the word before looking at the count: so one of the two sees the other.
    fn wait(&self, cell: usize, found: u64)
        requires { cell < self.now.count }
    {
        if self.changes_soon(cell, found) {
            return;
        }
        self.waiting.fetch_add(1, Ordering::SeqCst);
        self.table
            .shared
            .park(&self.rt, cell, (found % (1 << 32)) as u32);
        self.waiting.fetch_sub(1, Ordering::SeqCst);
    }
}

impl<I, E, K, L: CellLaw<I, E, K>, R> Locked<I, E, K, L, R> {
    // Whether the word is seen to be another than it was found.
    fn changes_soon(&self, cell: usize, found: u64) -> bool
        requires { cell < self.now.count }
    {
        for _look in 0..LOOKS {
            if self.table.shared.peek(cell) != found {
                return true;
            }
            spin_loop();
        }
        false
    }

    /// Notes an event on the board in hand, or none. A load, whose number is ignored.
    pub fn note<N: Noting<E>>(&self, cell: usize, pass: &mut Seated<I, E, K>)
        requires own { IsOf self.now.table.shared.table_id self.now.table.shared.key pass.old
            × (cell < self.now.count) }
        requires hand { (x : I) × HasEmpty pass.old cell x None }
        requires lawful { MayNoteHere L.lawful L.asks L.caller self.now.table.shared.key
            self.now.count cell pass.old N.event }
        ensures own { IsSameSeat pass.old pass.new × KeepsCaller (view pass.old) (view pass.new) }
        ensures hand { (x : I) → HasEmpty pass.old cell x None → HasEmpty pass.new cell x N.event }
        ensures seen { KeepsSeen (view pass.old) (view pass.new) }
    {
        self.table.shared.load::<Note<N>>(pass, cell);
    }

    // Wakes one that waits for the cell, if any waits for one.
    fn wake(&self, cell: usize)
        requires { cell < self.now.count }
    {
        if self.waiting.load(Ordering::SeqCst) > 0 {
            self.table.shared.wake_one(cell);
        }
    }

    /// Puts a value into the cell in hand, releases it with this count, and wakes one that waits for it, if any waits.
    pub fn release(&self, cell: usize, value: I, count: u64, pass: &mut Seated<I, E, K>)
        requires own { IsOf self.now.table.shared.table_id self.now.table.shared.key pass.old
            × (cell < self.now.count) }
        requires hand { (x : I) × (event : Option E) × HasEmpty pass.old cell x event }
        requires count { count < 2 ^ 63 }
        requires fits { FitsBack L.lawful L.fits self.now.table.shared.key
            cell count value pass.old }
        ensures own { IsSameSeat pass.old pass.new × KeepsCaller (view pass.old) (view pass.new) }
        ensures free { IsIdle pass.new }
        ensures seen { SeesNoted (view pass.old) (view pass.new) }
        ensures known { (view pass.new).known ≡ more_known cell count (view pass.old).known }
        ensures reached { cell ≢ 0 → least_of cell (view pass.old).known ≤ count }
    {
        match self.table.shared.exchange(pass, cell, Some(value)) {
            None => {}
            Some(_old) => unreachable!(),
        }
        self.table.shared.store::<Release>(pass, cell, 2 * count);
        self.wake(cell);
    }

    /// The pass of the next caller, which has seen as much.
    pub fn split(&self, pass: &mut Seated<I, E, K>) -> Seated<I, E, K>
        requires own { IsOf self.now.table.shared.table_id self.now.table.shared.key pass.old }
        requires free { IsIdle pass.old }
        requires room { 0 < (view pass.old).room }
        ensures same { IsSameSeat pass.old pass.new × IsIdle pass.new
            × (view pass.new ≡ less (view pass.old)) }
        ensures new { IsOf self.now.table.shared.table_id self.now.table.shared.key result }
        ensures child { IsIdle result × (view result ≡ child (view pass.old)) }
    {
        self.table.shared.split_seat::<NewCaller>(pass)
    }

    /// Takes in what another pass has seen, and its numbers. What one had seen begins with what the other had.
    pub fn join(&self, pass: &mut Seated<I, E, K>, other: Seated<I, E, K>)
        requires own { IsOf self.now.table.shared.table_id self.now.table.shared.key pass.old }
        requires other { IsOf self.now.table.shared.table_id self.now.table.shared.key other }
        requires free { IsIdle pass.old × IsIdle other }
        ensures own { IsSameSeat pass.old pass.new × IsIdle pass.new }
        ensures seen { (view pass.new).seen ≡ longer (view pass.old).seen (view other).seen }
        ensures one_history { AreOneHistory (view pass.old).seen (view other).seen }
        ensures callers { KeepsAndAdds (view pass.old) (view other).callers (view pass.new) }
        ensures mine { HasOwn L.caller (view pass.old) (view pass.new).seen }
        ensures theirs { HasOwn L.caller (view other) (view pass.new).seen }
        ensures apart { Differ (view pass.new).callers }
        ensures fresh { 0 < (view pass.new).next
            → NoneFrom L.caller (view pass.new).next (view pass.new).seen }
        ensures known { (view pass.new).known ≡ (view pass.old).known ++ (view other).known }
    {
        self.table.shared.join_seat::<Beside>(pass, other);
        self.table.shared.load::<Compare<L>>(pass, 0);
    }

    /// The pass has then seen what another one has, too, which stays as it is. What one had seen begins with what the other had.
    pub fn level(&self, pass: &mut Seated<I, E, K>, other: &mut Seated<I, E, K>)
        requires own { IsOf self.now.table.shared.table_id self.now.table.shared.key pass.old }
        requires other { IsOf self.now.table.shared.table_id self.now.table.shared.key other.old }
        requires free { IsIdle pass.old × IsIdle other.old }
        ensures own { IsSameSeat pass.old pass.new × IsIdle pass.new
            × KeepsCaller (view pass.old) (view pass.new) }
        ensures other { IsSameSeat other.old other.new × IsIdle other.new
            × (view other.new ≡ view other.old) }
        ensures seen { (view pass.new).seen ≡ longer (view pass.old).seen (view other.old).seen }
        ensures one_history { AreOneHistory (view pass.old).seen (view other.old).seen }
        ensures mine { HasOwn L.caller (view pass.old) (view pass.new).seen }
        ensures fresh { 0 < (view pass.new).next
            → NoneFrom L.caller (view pass.new).next (view pass.new).seen }
        ensures known { (view pass.new).known ≡ (view pass.old).known ++ (view other.old).known }
    {
        let seen = self.table.shared.split_seat::<Witness>(other);
        self.join(pass, seen);
    }

    /// Cells with these values, each free, and the pass of the first caller.
    pub fn new(
        rt: R,
        alloc: Global,
        values: Vec<I>,
        about: &K,
    ) -> Result<(Locked<I, E, K, L, R>, Seated<I, E, K>), AllocError>
    where
        I: Drop,
        R: Drop,
        requires some { (0 < length values.items) × (0 < L.total about.now) }
        requires lawful { L.lawful about.now [] }
        requires fits { AllFit (L.fits about.now) 0 values.items }
        ensures of { IfOk result (λ c. IsOf c.0.table.shared.table_id c.0.table.shared.key c.1) }
        ensures about { IfOk result (λ c. c.0.table.shared.key ≡ about.now) }
        ensures count { IfOk result (λ c. c.0.count ≡ length values.items) }
        ensures first { IfOk result
            (λ c. IsIdle c.1 × (view c.1 ≡ first_view (L.total about.now) about.now)) }
    {
        let count = values.len();
        let words = Vec::from_elem(alloc, 0u64, count)?;
        let slots = filled(alloc, values)?;
        let (table, pass) = match Table::new(alloc, words.as_slice(), slots, about) {
            Ok(made) => made,
            Err(Refused { slots: _ }) => return Err(AllocError),
        };
        let locked = Locked {
            table,
            rt,
            count,
            waiting: AtomicU64::new(0),
        };
        Ok((locked, pass))
    }
}

fn filled<I: Drop>(alloc: Global, values: Vec<I>) -> Result<Vec<Option<I>>, AllocError>
    ensures { IfOk result (λ v. v.items ≡ map Some values.items) }
{
    let mut slots = Vec::with_capacity(alloc, values.len())?;
    for value in values {
        slots.push(Some(value))?;
    }
    Ok(slots)
}
