ghost use Rattle.std.specs.Prelude.{◌≡◌, ◌≢◌, ℕ, ◌+◌, ◌^◌, ◌%◌, ◌<◌, ◌≤◌, max, List, [], ◌∷◌, ◌++◌, map, length, Option, None, Some, IfOk, IfSome, option_to_list};
ghost use mathlib.Core.List.{IsPrefix};
ghost use Rattle.cq_cells.specs.Callers.{Differ, NoneFrom, longer};
ghost use Rattle.cq_cells.specs.declared.item.Item.TheVariants as item;
ghost use Rattle.cq_cells.specs.Passes.{CellsState, AreMadeWith, IsPassOf, IsFree, IsSameCaller, IsOwn, HasBoard, HasShard, MayAdd, MayLeave, IsFound, HasReached, AreFresh, first_pass, with_child, child_of, least};
ghost use Rattle.cq_cells.specs.Steps.{AreOneHistory};

use crate::item::Item;
use crate::law::{ByCell, Law};
use crate::locked::Locked;
use crate::pass::Pass;
use std::alloc::{AllocError, Global};
use std::marker::{Brand, Model};
use std::sync::Wait;

/// A board and its shards, each in a cell that one pass at a time holds.
#[derive(Drop)]
pub struct Cells<B, S, E, K, L: Law<B, S, E, K>, R> {
    locked: Locked<Item<B, S>, E, K, ByCell<L>, R>,
}

impl<B, S, E, K, L: Law<B, S, E, K>, R> Model for Cells<B, S, E, K, L, R> {
    ghost use Rattle.std.specs.Prelude.{◌<◌, ◌^◌};
    ghost use Rattle.cq_cells.specs.Passes.{CellsState, cells_state};

    ghost Value = { CellsState K };

    ghost view = { λ c. cells_state c.locked.table.shared.table_id c.locked.table.shared.key c.locked.count (L.callers c.locked.table.shared.key) };

    ghost invariant = { λ c. L.callers c.locked.table.shared.key < 2 ^ 32 };
}

impl<B, S, E, K, L: Law<B, S, E, K>, R: Wait> Cells<B, S, E, K, L, R> {
    /// Takes the board, and waits while another pass holds it. The pass has then seen the whole history.
    pub fn enter_board(&self, pass: &mut Pass<B, S, E, K>) -> B
        requires of { IsPassOf self.now pass.old }
        requires free { IsFree pass.old }
        ensures of { IsPassOf self.now pass.new × IsSameCaller pass.old pass.new }
        ensures hand { HasBoard pass.new result }
        ensures seen { IsPrefix pass.old.seen pass.new.seen }
        ensures lawful { L.lawful self.now.about pass.new.seen }
        ensures board { L.board self.now.about pass.new.seen result }
        ensures own { IsOwn L.caller pass.old pass.new.seen }
        ensures unmade { 0 < pass.new.next → NoneFrom L.caller pass.new.next pass.new.seen }
        ensures known { pass.new.known ≡ pass.old.known }
    {
        match self.locked.take(0, &mut pass.seat) {
            Item::Board(board) => board,
            Item::Shard(_) => unreachable!(),
        }
    }

    /// Takes the shard with this number, and waits while another pass holds it.
    pub fn enter_shard(&self, shard: u32, pass: &mut Pass<B, S, E, K>) -> S
        requires of { IsPassOf self.now pass.old }
        requires free { IsFree pass.old }
        requires shard { shard < self.now.shards }
        ensures of { IsPassOf self.now pass.new × IsSameCaller pass.old pass.new }
        ensures hand { HasShard pass.new shard result }
        ensures seen { pass.new.seen ≡ pass.old.seen }
        ensures shard { IsFound (L.lawful self.now.about) (L.shard self.now.about) L.caller
            shard result pass.old pass.new }
    {
        match self.locked.take(shard as usize + 1, &mut pass.seat) {
            Item::Shard(shard) => shard,
            Item::Board(_) => unreachable!(),
        }
    }
}

impl<B, S, E, K, L: Law<B, S, E, K>, R> Cells<B, S, E, K, L, R> {
    /// Puts the board back, after at most one event. The history has then this many events, modulo 2^63.
    pub fn leave_board(&self, board: B, events: u64, pass: &mut Pass<B, S, E, K>)
        ghost event: { Option E }
        requires of { IsPassOf self.now pass.old }
        requires hand { (b : B) × HasBoard pass.old b }
        requires event { IfSome event
            (MayAdd (L.lawful self.now.about) L.asks L.caller self.now pass.old) }
        requires events { events ≡ length (pass.old.seen ++ option_to_list event) % 2 ^ 63 }
        requires board { L.board self.now.about (pass.old.seen ++ option_to_list event) board }
        ensures of { IsPassOf self.now pass.new × IsSameCaller pass.old pass.new }
        ensures free { IsFree pass.new }
        ensures seen { pass.new.seen ≡ pass.old.seen ++ option_to_list event }
        ensures known { pass.new.known ≡ pass.old.known }
    {
        self.locked.note::<Brand>(0, &mut pass.seat);
        self.locked
            .release(0, Item::Board(board), events, &mut pass.seat);
    }

    /// Puts the shard with this number back, which has then applied this many changes: as many as before, or one more.
    pub fn leave_shard(&self, shard: u32, value: S, applied: u64, pass: &mut Pass<B, S, E, K>)
        requires of { IsPassOf self.now pass.old }
        requires shard { shard < self.now.shards }
        requires hand { (x : S) × HasShard pass.old shard x }
        requires step { MayLeave (L.lawful self.now.about) (L.shard self.now.about)
            pass.old shard applied value }
        requires small { applied < 2 ^ 63 }
        ensures of { IsPassOf self.now pass.new × IsSameCaller pass.old pass.new }
        ensures free { IsFree pass.new }
        ensures seen { pass.new.seen ≡ pass.old.seen }
        ensures reached { HasReached shard applied pass.old pass.new }
    {
        self.locked.release(
            shard as usize + 1,
            Item::Shard(value),
            applied,
            &mut pass.seat,
        );
    }

    /// The pass of the next caller, which has seen what this one has.
    pub fn split_pass(&self, pass: &mut Pass<B, S, E, K>) -> Pass<B, S, E, K>
        requires of { IsPassOf self.now pass.old }
        requires free { IsFree pass.old }
        requires room { 0 < pass.old.room }
        ensures of { IsPassOf self.now pass.new × IsPassOf self.now result }
        ensures same { pass.new ≡ with_child pass.old }
        ensures child { result ≡ child_of pass.old }
    {
        let seat = self.locked.split(&mut pass.seat);
        let by = pass.next;
        pass.next += 1;
        Pass {
            seat,
            by,
            next: 0,
            asked: 0,
        }
    }

    /// Ends the callers of another pass: this one has then seen what either had, and has their numbers. If the other is
    /// the first pass, no more callers are made.
    pub fn join_pass(&self, pass: &mut Pass<B, S, E, K>, other: Pass<B, S, E, K>)
        requires of { IsPassOf self.now pass.old × IsPassOf self.now other }
        requires free { IsFree pass.old × IsFree other }
        ensures of { IsPassOf self.now pass.new × IsFree pass.new }
        ensures seen { pass.new.seen ≡ longer pass.old.seen other.seen }
        ensures one_history { AreOneHistory pass.old.seen other.seen }
        ensures callers { pass.new.callers ≡ pass.old.callers ++ other.callers }
        ensures apart { Differ pass.new.callers }
        ensures room { (pass.new.next ≡ pass.old.next) × (pass.new.room ≡ pass.old.room) }
        ensures own { IsOwn L.caller pass.old pass.new.seen × IsOwn L.caller other pass.new.seen }
        ensures unmade { 0 < pass.new.next → NoneFrom L.caller pass.new.next pass.new.seen }
        ensures least { (s : ℕ) → least pass.new s ≡ max (least pass.old s) (least other s) }
        ensures asked { pass.new.asked ≡ pass.old.asked }
    {
        let Pass {
            seat,
            by: _,
            next: _,
            asked: _,
        } = other;
        self.locked.join(&mut pass.seat, seat);
    }

    /// The pass has then seen what another one has, too, which stays as it is. One of the two had seen all that the other
    /// had.
    pub fn level(&self, pass: &mut Pass<B, S, E, K>, other: &mut Pass<B, S, E, K>)
        requires of { IsPassOf self.now pass.old × IsPassOf self.now other.old }
        requires free { IsFree pass.old × IsFree other.old }
        ensures of { IsPassOf self.now pass.new × IsSameCaller pass.old pass.new }
        ensures other { other.new ≡ other.old }
        ensures free { IsFree pass.new }
        ensures seen { pass.new.seen ≡ longer pass.old.seen other.old.seen }
        ensures one_history { AreOneHistory pass.old.seen other.old.seen }
        ensures own { IsOwn L.caller pass.old pass.new.seen }
        ensures unmade { 0 < pass.new.next → NoneFrom L.caller pass.new.next pass.new.seen }
        ensures least { (s : ℕ) → least pass.new s ≡ max (least pass.old s) (least other.old s) }
    {
        self.locked.level(&mut pass.seat, &mut other.seat);
    }

    /// Cells of a board and its shards as they are before any event, and the pass of the first caller.
    pub fn new(
        rt: R,
        alloc: Global,
        about: &K,
        board: B,
        shards: Vec<S>,
    ) -> Result<(Cells<B, S, E, K, L, R>, Pass<B, S, E, K>), AllocError>
    where
        B: Drop,
        S: Drop,
        R: Drop,
        requires callers { (0 < L.callers about.now) × (L.callers about.now < 2 ^ 32) }
        requires lawful { L.lawful about.now [] }
        requires board { L.board about.now [] board }
        requires shards { AreFresh (L.shard about.now) 0 shards.items }
        ensures about { IfOk result (λ c. AreMadeWith about.now (L.callers about.now) c.0) }
        ensures shards { IfOk result (λ c. c.0.shards ≡ length shards.items) }
        ensures of { IfOk result (λ c. IsPassOf c.0 c.1) }
        ensures first { IfOk result (λ c. c.1 ≡ first_pass c.0) }
    {
        let values = items(alloc, board, shards)?;
        let (locked, seat) = Locked::new(rt, alloc, values, about)?;
        let pass = Pass {
            seat,
            by: 0,
            next: 1,
            asked: 0,
        };
        Ok((Cells { locked }, pass))
    }
}

// The board, and then the shards.
fn items<B: Drop, S: Drop>(
    alloc: Global,
    board: B,
    shards: Vec<S>,
) -> Result<Vec<Item<B, S>>, AllocError>
    ensures { IfOk result (λ v. v.items ≡ item.Board board ∷ map (λ x. item.Shard x) shards.items) }
{
    let mut values = Vec::new(alloc);
    values.push(Item::Board(board))?;
    for shard in shards {
        values.push(Item::Shard(shard))?;
    }
    Ok(values)
}
