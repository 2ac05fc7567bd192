ghost use Rattle.std.specs.Prelude.{◌≡◌, ◌↔◌, ◌≤◌, ◌^◌, ◌||◌, nat_le, nat_lt, [], length, true, IfOk, OnOk, OnErr, IfSome, IsSome, IsNone, None};
ghost use Rattle.std.specs.BTreeMap.{get};
ghost use Rattle.std.specs.Ordering.{nat_cmp};
ghost use Rattle.cq_history.specs.Changes.{text_len};
ghost use Rattle.cq_history.specs.Lawful.{is_absent, is_full, is_long};
ghost use Rattle.cq_kept.specs.Accepted.{accepted_from, with_slots, with_accepted, bare_state, Holds, HoldsNoneBehind, HoldsPuts, MayAccept, IsNextHeld, IsItsWork, IsInserted, IsHeldBy, IsWorkedAs};
ghost use Rattle.cq_kept.specs.Slots.{slot_from, slot_at, change_of, has_text, with_holder, with_work, NotesPut, IsWorked};

use crate::accepting::text_len;
use crate::forgetting::forget;
use crate::kept::{Kept, Stored};
use crate::past::Past;
use crate::presence::{Presence, note};
use cq_base::{Memory, Settings};
use cq_shard::Indexed;
use std::alloc::Global;
use std::collections::BTreeMap;
use std::marker::Model;
use std::sync::Arc;

// At most this many changes are accepted.
const MOST: u64 = 1 << 60;

/// The accepted changes: those that the floor keeps, each found by its number, and how many there were. What no version
/// from the floor on needs is forgotten as the floor rises; then only clauses speak of it.
#[derive(Drop)]
pub struct Changes<W: Indexed> {
    settings: Settings,
    past: Past,
    accepted: u64,
    floor: u64,
    kept: BTreeMap<u64, Kept<W>>,
    there: Presence,
    // Of the texts of those that are kept.
    text_bytes: u64,
}

impl<W: Indexed> Model for Changes<W> {
    ghost use Rattle.cq_kept.specs.Accepted.{Accepted, accepted_from, IsHeld};

    ghost Value = { Accepted };

    ghost view = { λ c. accepted_from c.settings c.past.slots c.floor };

    ghost invariant = { λ c. IsHeld (W.IsWorkOf c.settings) c.settings c.past.slots c.accepted c.floor c.kept c.there c.text_bytes };
}

impl<W: Indexed> Changes<W> {
    /// No changes. It takes no memory.
    pub fn new(alloc: Global, settings: &Settings) -> Changes<W>
        ensures { result ≡ accepted_from settings.now [] 0 }
    {
        Changes {
            settings: *settings,
            past: Past::of(),
            accepted: 0,
            floor: 0,
            kept: BTreeMap::new(alloc),
            there: Presence::new(alloc),
            text_bytes: 0,
        }
    }

    /// The settings that it was made with.
    pub fn settings(&self) -> &Settings
        ensures { result.now ≡ self.now.settings }
    {
        &self.settings
    }

    /// How many there were.
    pub fn len(&self) -> u64
        ensures { result ≡ length self.now.slots }
    {
        self.accepted
    }

    /// Up to which change only those are kept that some version from there on needs.
    pub fn floor(&self) -> u64
        ensures { result ≡ self.now.floor }
    {
        self.floor
    }

    /// The change of a number, and None if it was not accepted or is forgotten. It costs a search.
    pub fn get(&self, number: u64) -> Option<&Kept<W>>
        ensures some { IsSome result ↔ Holds self.now number }
        ensures slot { IfSome result (λ kept. slot_from kept.now ≡ slot_at self.now.slots number) }
        ensures work { IfSome result (λ kept. IsWorked (W.IsWorkOf self.now.settings) kept.now) }
    {
        self.kept.get(&number)
    }

    /// The next change that is kept after a number, and its own. It costs a search.
    pub fn next(&self, after: u64) -> Option<(u64, &Kept<W>)>
        requires { after ≤ length self.now.slots }
        ensures next { IfSome result (λ p. IsNextHeld self.now after p.0) }
        ensures slot { IfSome result (λ p. slot_from p.1.now ≡ slot_at self.now.slots p.0) }
        ensures work { IfSome result (λ p. IsWorked (W.IsWorkOf self.now.settings) p.1.now) }
        ensures none { IsNone result → HoldsNoneBehind self.now after }
    {
        match self.kept.range(after + 1..).next() {
            Some((number, kept)) => Some((*number, kept)),
            None => None,
        }
    }

    /// The puts up to the floor that it keeps, ascending. It looks at each change that it keeps up to there.
    pub fn keep(&self, alloc: Global) -> Result<Vec<u64>, Memory>
        ensures { IfOk result (λ keep. HoldsPuts self.now keep.items) }
    {
        let mut keep = Vec::new(alloc);
        for (number, kept) in self.kept.range(..=self.floor) {
            note_put(&mut keep, *number, &kept.change)?;
        }
        Ok(keep)
    }

    /// Whether a change drops a path that has no file.
    pub fn is_absent(&self, change: &Stored) -> bool
        ensures { result ≡ is_absent (bare_state self.now) (change_of change.now) }
    {
        match change {
            Stored::Drop { file } => !self.there.has(file),
            Stored::Put { .. } => false,
            Stored::Gate { .. } => false,
        }
    }

    /// Whether a limit is reached: on how many are kept, or on how many were accepted.
    pub fn is_full(&self) -> bool
        ensures { result ≡ is_full self.now.settings (bare_state self.now) }
    {
        are_most(
            self.settings.change_limit,
            self.kept.len() as u64,
            self.accepted,
        )
    }

    /// Whether the text of a change and all kept texts together exceed the limit on bytes.
    pub fn is_long(&self, change: &Stored) -> bool
        ensures { result ≡ is_long self.now.settings (bare_state self.now) (change_of change.now) }
    {
        has_more(self.settings.text_limit - self.text_bytes, change)
    }

    /// One change more, which nothing is against. If memory is refused all is as before. The memory that `hold`, `finish`
    /// and `set_floor` need for it is taken here.
    pub fn accept(&mut self, change: Stored) -> Result<(), Memory>
        requires allowed { MayAccept self.old (change_of change) }
        requires text { has_text change ≡ true }
        ensures more { OnOk result (self.new ≡ with_accepted self.old (change_of change)) }
        ensures err { OnErr result (self.new ≡ self.old) }
    {
        let number = self.accepted + 1;
        let same = change.shared()?;
        insert(&mut self.kept, number, same)?;
        match note(&mut self.there, number, &change) {
            Ok(()) => {}
            Err(refused) => {
                self.kept.remove(&number);
                return Err(refused);
            }
        }
        self.past = self.past.accepted(&change);
        self.accepted = number;
        self.text_bytes += text_len(&change);
        Ok(())
    }

    /// The change of a number has another holder. It takes no memory.
    pub fn hold(&mut self, number: u64, holder: Option<u32>)
        requires { Holds self.old number }
        ensures { self.new ≡ with_slots self.old (with_holder self.old.slots number holder) }
    {
        set_holder(&mut self.kept, number, holder);
        self.past = self.past.held(number, holder);
    }

    /// The change of a number has its work, and its text is given up. It takes no memory.
    pub fn finish(&mut self, number: u64, work: Arc<W, Global>)
        requires held { Holds self.old number }
        requires work { IsItsWork W.IsWorkOf self.old number work }
        ensures { self.new ≡ with_slots self.old (with_work self.old.slots number) }
    {
        set_work(&mut self.kept, number, work);
        self.past = self.past.finished(number);
    }

    /// The floor is at a higher version, and what no version from there on needs is forgotten. It takes no memory, and costs a
    /// search for each change that is forgotten.
    pub fn set_floor(&mut self, floor: u64)
        requires low { self.old.floor ≤ floor }
        requires high { floor ≤ length self.old.slots }
        ensures { self.new ≡ accepted_from self.old.settings self.old.slots floor }
    {
        let gone = forget(&mut self.kept, &mut self.there.over, floor);
        self.text_bytes -= gone;
        self.floor = floor;
    }
}

// Whether a limit is reached: on how many are kept, or on how many were accepted.
fn are_most(most: u64, kept: u64, accepted: u64) -> bool
    ensures { result ≡ (nat_le most kept || nat_le (2 ^ 60) accepted) }
{
    kept >= most || accepted >= MOST
}

// Whether its text has more bytes than there is room for.
fn has_more(room: u64, change: &Stored) -> bool
    ensures { result ≡ nat_lt room (text_len (change_of change.now)) }
{
    text_len(change) > room
}

// One number more, if the change is a put.
fn note_put(keep: &mut Vec<u64>, number: u64, change: &Stored) -> Result<(), Memory>
    ensures { OnOk result (NotesPut (change_of change.now) number keep.old.items keep.new.items) }
{
    match change {
        Stored::Put { .. } => {
            keep.push(number)?;
            Ok(())
        }
        Stored::Drop { .. } => Ok(()),
        Stored::Gate { .. } => Ok(()),
    }
}

// One change more, which nobody took and whose work is not done.
fn insert<W: Drop>(
    kept: &mut BTreeMap<u64, Kept<W>>,
    number: u64,
    change: Stored,
) -> Result<(), Memory>
    requires { get nat_cmp kept.old number ≡ None }
    ensures more { OnOk result (IsInserted number change kept.old kept.new) }
    ensures same { OnErr result (kept.new.entries ≡ kept.old.entries) }
{
    let slot = Kept {
        change,
        work: None,
        holder: None,
    };
    kept.insert(number, slot)?;
    Ok(())
}

// Another holder of the change of a number.
fn set_holder<W>(kept: &mut BTreeMap<u64, Kept<W>>, number: u64, holder: Option<u32>)
    ensures { IsHeldBy number holder kept.old kept.new }
{
    match kept.get_mut(&number) {
        Some(found) => found.holder = holder,
        None => {}
    }
}

// The work of the change of a number, in place of its text.
fn set_work<W: Drop>(kept: &mut BTreeMap<u64, Kept<W>>, number: u64, work: Arc<W, Global>)
    ensures { IsWorkedAs number work kept.old kept.new }
{
    match kept.get_mut(&number) {
        Some(found) => {
            found.change.give_up_text();
            found.work = Some(work);
        }
        None => {}
    }
}
