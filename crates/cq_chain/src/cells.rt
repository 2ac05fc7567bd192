ghost use Rattle.std.specs.Prelude.{◌≡◌, ℕ, ◌+◌, ◌^◌, ◌<◌, ◌≤◌, max, [], ◌++◌, length, Option, IfOk, IfSome, option_to_list};
ghost use mathlib.Core.List.{IsPrefix};
ghost use Rattle.cq_history.specs.declared.event.Event.{Event as Happened};
ghost use Rattle.cq_history.specs.State.{view_of};
ghost use Rattle.cq_history.specs.Lawful.{IsBelow};
ghost use Rattle.cq_board.specs.Stands.{BoardState, StandsFor};
ghost use Rattle.cq_cells.specs.Callers.{longer};
ghost use Rattle.cq_cells.specs.Passes.{IsFree, IsSameCaller, HasBoard, HasShard, HasReached, by_of, least, first_pass, with_child, child_of};
ghost use Rattle.cq_cells.specs.Steps.{AreOneHistory};
ghost use Rattle.cq_chain.specs.Held.{IsBoard, state_in};
ghost use Rattle.cq_chain.specs.Passes.{IsPassOf, IsOwn, HasNoneFrom, MayAdd, IsFound, MayLeave, AreFresh};

use crate::about::About;
use crate::law::BoardLaw;
use cq_base::Memory;
use cq_board::Board;
use cq_history::Event;
use cq_shard::{Indexed, Shard};
use std::alloc::Global;
use std::marker::Model;
use std::sync::Wait;

/// A caller's right to step on the cells of a board and its shards.
pub type Pass<W> = cq_cells::Pass<Board<W>, Shard, Event, About>;

/// A board and its shards, each in a cell that one pass at a time holds.
#[derive(Drop)]
pub struct Cells<W: Indexed, R> {
    cells: cq_cells::Cells<Board<W>, Shard, Event, About, BoardLaw<W>, R>,
    first_only: bool,
}

impl<W: Indexed, R> Model for Cells<W, R> {
    ghost use Rattle.std.specs.Prelude.{◌≡◌, ◌<◌, ◌^◌};
    ghost use Rattle.cq_chain.specs.Passes.{BoardCells};

    ghost Value = { BoardCells };

    ghost view = { λ c. c.cells };

    ghost invariant = { λ c. (c.cells.shards ≡ c.cells.about.settings.shards) × (c.cells.callers ≡ c.cells.about.callers) × (c.cells.about.settings.change_limit < 2 ^ 63) × (c.first_only ≡ c.cells.about.first_only) };
}

impl<W: Indexed, R: Wait> Cells<W, R> {
    /// Takes the board, and waits while another pass holds it. The pass has then seen the whole history, for which the
    /// board stands.
    pub fn enter_board(&self, pass: &mut Pass<W>) -> Board<W>
        requires of { IsPassOf self.now pass.old }
        requires free { IsFree pass.old }
        ensures of { IsPassOf self.now pass.new }
        ensures same { IsSameCaller pass.old pass.new }
        ensures hand { HasBoard pass.new result }
        ensures seen { IsPrefix pass.old.seen pass.new.seen }
        ensures own { IsOwn pass.old pass.new.seen }
        ensures board { IsBoard self.now.about pass.new.seen result }
        ensures known { pass.new.known ≡ pass.old.known }
    {
        self.cells.enter_board(pass)
    }

    /// Takes the shard with this number, and waits while another pass holds it. It is right for some history that begins
    /// with what the pass has seen, has applied what is published there, and was swept no further than the caller's open
    /// version.
    pub fn enter_shard(&self, shard: u32, pass: &mut Pass<W>) -> Shard
        requires of { IsPassOf self.now pass.old }
        requires free { IsFree pass.old }
        requires shard { shard < self.now.about.settings.shards }
        ensures of { IsPassOf self.now pass.new }
        ensures same { IsSameCaller pass.old pass.new }
        ensures hand { HasShard pass.new shard result }
        ensures seen { pass.new.seen ≡ pass.old.seen }
        ensures shard { IsFound W.keys_in W.IsWorkOf self.now.about pass.old shard result }
        ensures published { (state_in self.now.about pass.old.seen).published ≤ result.applied }
        ensures swept { IsBelow result.floor
            (view_of (state_in self.now.about pass.old.seen) (by_of pass.old)) }
        ensures reached { HasReached shard result.applied pass.old pass.new }
        ensures small { result.applied < 2 ^ 63 }
    {
        self.cells.enter_shard(shard, pass)
    }
}

impl<W: Indexed, R> Cells<W, R> {
    /// Whether only the first caller accepts changes.
    pub fn first_only(&self) -> bool
        ensures { result ≡ self.now.about.first_only }
    {
        self.first_only
    }

    /// Puts the board back, after at most one event. The pass has then seen that, too.
    pub fn leave_board(&self, board: Board<W>, pass: &mut Pass<W>)
        ghost event: { Option Happened }
        requires of { IsPassOf self.now pass.old }
        requires hand { (b : BoardState) × HasBoard pass.old b }
        requires event { IfSome event (MayAdd self.now pass.old) }
        requires board { IsBoard self.now.about (pass.old.seen ++ option_to_list event) board }
        ensures of { IsPassOf self.now pass.new }
        ensures same { IsSameCaller pass.old pass.new }
        ensures free { IsFree pass.new }
        ensures seen { pass.new.seen ≡ pass.old.seen ++ option_to_list event }
        ensures known { pass.new.known ≡ pass.old.known }
    {
        let events = board.events() % (1 << 63);
        self.cells.leave_board(board, events, pass);
    }

    /// Puts the shard with this number back, which has applied at most one change more, or was swept.
    pub fn leave_shard(&self, shard: u32, value: Shard, pass: &mut Pass<W>)
        requires of { IsPassOf self.now pass.old }
        requires shard { shard < self.now.about.settings.shards }
        requires step { MayLeave W.keys_in W.IsWorkOf self.now.about pass.old shard value }
        ensures of { IsPassOf self.now pass.new }
        ensures same { IsSameCaller pass.old pass.new }
        ensures free { IsFree pass.new }
        ensures seen { pass.new.seen ≡ pass.old.seen }
        ensures reached { HasReached shard value.applied pass.old pass.new }
    {
        let applied = value.applied();
        self.cells.leave_shard(shard, value, applied, pass);
    }

    /// The pass of the next caller, which has seen what this one has. It has counted nothing.
    pub fn split_pass(&self, pass: &mut Pass<W>) -> Pass<W>
        requires of { IsPassOf self.now pass.old }
        requires free { IsFree pass.old }
        requires room { 0 < pass.old.room }
        ensures of { IsPassOf self.now pass.new × IsPassOf self.now result }
        ensures same { pass.new ≡ with_child pass.old }
        ensures child { result ≡ child_of pass.old }
    {
        self.cells.split_pass(pass)
    }

    /// Ends the callers of another pass: this one has then seen what either had, and has their numbers. One of the two had
    /// seen what the other had. If the other is the first pass, no more callers are made.
    pub fn join_pass(&self, pass: &mut Pass<W>, other: Pass<W>)
        requires of { IsPassOf self.now pass.old × IsPassOf self.now other }
        requires free { IsFree pass.old × IsFree other }
        ensures of { IsPassOf self.now pass.new }
        ensures free { IsFree pass.new }
        ensures seen { pass.new.seen ≡ longer pass.old.seen other.seen }
        ensures one_history { AreOneHistory pass.old.seen other.seen }
        ensures callers { pass.new.callers ≡ pass.old.callers ++ other.callers }
        ensures room { (pass.new.next ≡ pass.old.next) × (pass.new.room ≡ pass.old.room) }
        ensures own { IsOwn pass.old pass.new.seen × IsOwn other pass.new.seen }
        ensures unmade { 0 < pass.new.next → HasNoneFrom pass.new.next pass.new.seen }
        ensures least { (s : ℕ) → least pass.new s ≡ max (least pass.old s) (least other s) }
        ensures asked { pass.new.asked ≡ pass.old.asked }
    {
        self.cells.join_pass(pass, other);
    }

    /// The pass has then seen what another one has, too, which stays as it is. One of the two had seen all that the other
    /// had.
    pub fn level(&self, pass: &mut Pass<W>, other: &mut Pass<W>)
        requires of { IsPassOf self.now pass.old × IsPassOf self.now other.old }
        requires free { IsFree pass.old × IsFree other.old }
        ensures of { IsPassOf self.now pass.new }
        ensures same { IsSameCaller pass.old pass.new }
        ensures other { other.new ≡ other.old }
        ensures free { IsFree pass.new }
        ensures seen { pass.new.seen ≡ longer pass.old.seen other.old.seen }
        ensures one_history { AreOneHistory pass.old.seen other.old.seen }
        ensures own { IsOwn pass.old pass.new.seen }
        ensures least { (s : ℕ) → least pass.new s ≡ max (least pass.old s) (least other.old s) }
    {
        self.cells.level(pass, other);
    }

    /// Cells of a board and its shards as they are made, and the pass of the first caller. It takes memory for a word and
    /// a slot for each; if that is refused, board and shards are given up.
    pub fn new(
        rt: R,
        alloc: Global,
        board: Board<W>,
        shards: Vec<Shard>,
        first_only: bool,
    ) -> Result<(Cells<W, R>, Pass<W>), Memory>
    where
        R: Drop,
        requires board { StandsFor [] board }
        requires callers { 0 < length board.state.views }
        requires limit { board.settings.change_limit < 2 ^ 63 }
        requires shards { AreFresh board.settings.shards shards.items }
        ensures settings { IfOk result (λ c. c.0.about.settings ≡ board.settings) }
        ensures callers { IfOk result (λ c. c.0.about.callers ≡ length board.state.views) }
        ensures first_only { IfOk result (λ c. c.0.about.first_only ≡ first_only) }
        ensures of { IfOk result (λ c. IsPassOf c.0 c.1) }
        ensures first { IfOk result (λ c. c.1 ≡ first_pass c.0) }
    {
        let about = About {
            settings: *board.settings(),
            callers: board.callers(),
            first_only,
        };
        let (cells, pass) = cq_cells::Cells::new(rt, alloc, &about, board, shards)?;
        Ok((Cells { cells, first_only }, pass))
    }
}
