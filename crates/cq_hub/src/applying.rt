ghost use Rattle.std.specs.Prelude.{◌≡◌, ◌+◌, ◌-◌, ◌<◌, ◌≤◌, length, All, IfOk, OnOk};
ghost use Rattle.cq_history.specs.State.{ready};
ghost use Rattle.cq_shard.specs.Shard.{HaveFewKeys};
ghost use Rattle.cq_hub.specs.Shards.{StandsBeside, StandBeside, AreFresh};
ghost use Rattle.cq_hub.specs.Comings.{IsComing, StaysComing, AreWorksBehind};

use cq_base::{Entry, Memory, Steps};
use cq_board::Board;
use cq_io::Gate;
use cq_shard::{Indexed, Shard, parted};
use std::alloc::Global;
use std::marker::Brand;
use std::mem;
use std::sync::Arc;
use std::sync::ledger::{Blank, Ledger};

/// So many shards, which have applied nothing.
pub fn shards_of(alloc: Global, number: u32) -> Result<Vec<Shard>, Memory>
    ensures { IfOk result (λ shards. AreFresh number shards.items) }
{
    let mut shards = Vec::with_capacity(alloc, number as usize)?;
    for i in 0..number {
        shards.push(Shard::new(alloc, i, number))?;
    }
    Ok(shards)
}

/// Each of the board's shards applies the changes up to a number up to which all are done, at once. The keys of their works
/// are looked at once, if the shards have applied as many changes. If memory is refused, some shards have applied them,
/// and others none.
pub(crate) fn apply_up_to<W: Indexed, G: Gate>(
    alloc: Global,
    board: &Board<W>,
    shards: &mut Vec<Shard>,
    to: u64,
    gate: &G,
) -> Result<(), Memory>
    requires done { to ≤ ready board.now.state }
    requires floor { board.now.state.floor ≤ board.now.state.published }
    requires some { 0 < board.now.settings.shards }
    requires stand { StandBeside W.keys_in W.IsWorkOf board.now shards.old.items }
    ensures stand { StandBeside W.keys_in W.IsWorkOf board.now shards.new.items }
    ensures applied { OnOk result (All (λ c. to ≤ c.applied) shards.new.items) }
{
    apply_counted::<W, G, Brand>(alloc, board, shards, to, gate, Blank::new(1))
}

// The same on a ledger of its own, which nobody reads.
fn apply_counted<W: Indexed, G: Gate, L: Ledger>(
    alloc: Global,
    board: &Board<W>,
    shards: &mut Vec<Shard>,
    to: u64,
    gate: &G,
    blank: Blank,
) -> Result<(), Memory>
    requires name { blank.name ≡ L.name }
    requires parts { blank.parts ≡ L.parts }
    requires done { to ≤ ready board.now.state }
    requires floor { board.now.state.floor ≤ board.now.state.published }
    requires some { 0 < board.now.settings.shards }
    requires stand { StandBeside W.keys_in W.IsWorkOf board.now shards.old.items }
    ensures stand { StandBeside W.keys_in W.IsWorkOf board.now shards.new.items }
    ensures applied { OnOk result (All (λ c. to ≤ c.applied) shards.new.items) }
{
    let mut steps: Steps<L> = Steps::new(blank);
    let mut coming = Coming::behind(alloc, board, shards[0].applied(), to)?;
    'shards: for number in 0..board.settings().shards {
        let i = number as usize;
        catch_up(alloc, board, i, &mut shards[i], &mut coming, &mut steps)?;
        gate.after_shard(number);
    }
    Ok(())
}

// The shard of this number applies them, all at once.
fn catch_up<W: Indexed, L: Ledger>(
    alloc: Global,
    board: &Board<W>,
    i: usize,
    shard: &mut Shard,
    coming: &mut Coming<W>,
    steps: &mut Steps<L>,
) -> Result<(), Memory>
    requires within { i < board.now.settings.shards }
    requires floor { board.now.state.floor ≤ board.now.state.published }
    requires shard { StandsBeside W.keys_in W.IsWorkOf board.now i shard.old }
    requires coming { IsComing W.keys_in W.IsWorkOf board.now i coming.old }
    ensures shard { StandsBeside W.keys_in W.IsWorkOf board.now i shard.new }
    ensures coming { OnOk result (IsComing W.keys_in W.IsWorkOf board.now (i + 1) coming.new) }
    ensures to { OnOk result (coming.new.to ≡ coming.old.to) }
    ensures applied { OnOk result (coming.old.to ≤ shard.new.applied) }
{
    coming.turn_to(alloc, board, shard.applied())?;
    let part = mem::replace(&mut coming.parts[i], Vec::new(alloc));
    shard.apply_all(&coming.works, part, steps)?;
    Ok(())
}

// The works of the changes after one up to another, and what they bring to each shard.
#[derive(Drop)]
struct Coming<W> {
    from: u64,
    to: u64,
    works: Vec<Option<Arc<W, Global>>>,
    parts: Vec<Vec<Entry>>,
}

impl<W: Indexed> Coming<W> {
    // The works that the board has, parted again.
    fn behind(alloc: Global, board: &Board<W>, from: u64, to: u64) -> Result<Coming<W>, Memory>
        requires done { to ≤ ready board.now.state }
        requires floor { board.now.state.floor ≤ from }
        requires some { 0 < board.now.settings.shards }
        ensures coming { IfOk result (IsComing W.keys_in W.IsWorkOf board.now 0) }
        ensures from { IfOk result (λ coming. coming.from ≡ from) }
        ensures to { IfOk result (λ coming. coming.to ≡ to) }
    {
        let works = finished_works(alloc, board, from, to)?;
        let parts = parted(alloc, from, board.settings().shards, &works)?;
        Ok(Coming {
            from,
            to,
            works,
            parts,
        })
    }

    // They are those after another change, if they aren't yet.
    fn turn_to(&mut self, alloc: Global, board: &Board<W>, from: u64) -> Result<(), Memory>
        requires done { self.old.to ≤ ready board.now.state }
        requires floor { board.now.state.floor ≤ from }
        requires some { 0 < board.now.settings.shards }
        ensures coming { OnOk result
            (StaysComing W.keys_in W.IsWorkOf board.now self.old self.new) }
        ensures from { OnOk result (self.new.from ≡ from) }
        ensures to { OnOk result (self.new.to ≡ self.old.to) }
    {
        if self.from != from {
            *self = Coming::behind(alloc, board, from, self.to)?;
        }
        Ok(())
    }
}

/// The works of the changes after one up to another, as the board has them: each is kept, since none is below the floor. It
/// takes memory for an owner of each.
pub fn finished_works<W: Indexed>(
    alloc: Global,
    board: &Board<W>,
    from: u64,
    to: u64,
) -> Result<Vec<Option<Arc<W, Global>>>, Memory>
    requires done { to ≤ ready board.now.state }
    requires floor { board.now.state.floor ≤ from }
    ensures number { IfOk result (λ works. length works.items ≡ to - from) }
    ensures few { IfOk result (λ works. HaveFewKeys W.keys_in works.items) }
    ensures works { IfOk result (λ works. AreWorksBehind W.IsWorkOf board.now from works.items) }
{
    let mut works = Vec::new(alloc);
    'changes: for i in from..to {
        let work = board.finished_work(i + 1)?;
        works.push(work)?;
    }
    Ok(works)
}
