ghost use Rattle.std.specs.Prelude.{◌≡◌, ◌%◌, ◌≤◌, IfOk, IfErr, OnErr, IsSome, Option, Some, None};
ghost use Rattle.std.specs.Bool.{OnTrue, OnFalse};
ghost use Rattle.cq_base.specs.Changes.{IsSoundChange};
ghost use Rattle.cq_history.specs.declared.event.Event.{Event as Happened};
ghost use Rattle.cq_history.specs.declared.event.Event.TheVariants as happened;
ghost use Rattle.cq_history.specs.State.{view_of, IsAccepted};
ghost use Rattle.cq_board.specs.Stands.{BoardState};
ghost use Rattle.cq_cells.specs.Passes.{IsFree, IsSameCaller, HasBoard, by_of, least};
ghost use Rattle.cq_chain.specs.Held.{IsBoard};
ghost use Rattle.cq_chain.specs.Passes as chain;
ghost use Rattle.cq_hub.specs.Hubs.{one_more};
ghost use Rattle.cq_shared.specs.Answers.{SeesMore, IsTold, Accepts, Refuses, Takes, FindsJob, GivesBack, HasNot, Does, FindsDone, Opens, Shuts, IsItsWork, IsViewing, Reads};
ghost use Rattle.cq_shared.specs.Deeds.{event_of, seen_with, seen_accepting, asks_of};
ghost use Rattle.cq_shared.specs.SharedPasses.{IsPassOf, HaveApplied, MayAccept, cells_of, about_of, settings_of, state_of};

use crate::deed::Deed;
use crate::shared::Shared;
use cq_base::{Change, Entry, Memory};
use cq_board::{Asked, Board, Finished, Job, Refused, View};
use cq_chain::Pass;
use cq_shard::Indexed;
use std::alloc::Global;
use std::snapshot::Snapshot;
use std::sync::{Arc, Wait};

impl<W: Indexed, R> Shared<W, R> {
    // Puts the board back after a deed.
    pub(crate) fn leave_after(&self, board: Board<W>, pass: &mut Pass<W>, deed: Deed)
        ghost event: { Option Happened }
        requires event { event ≡ event_of (by_of pass.old) deed }
        requires of { chain.IsPassOf (cells_of self.now) pass.old }
        requires hand { (b : BoardState) × HasBoard pass.old b }
        requires applied { HaveApplied self.now pass.old (asks_of deed) }
        requires board { IsBoard (about_of self.now) (seen_with pass.old deed) board }
        ensures of { chain.IsPassOf (cells_of self.now) pass.new }
        ensures same { IsSameCaller pass.old pass.new }
        ensures free { IsFree pass.new }
        ensures seen { pass.new.seen ≡ seen_with pass.old deed }
    {
        let _deed = deed;
        self.cells.leave_board(board, pass);
    }

    // Puts the board back, which accepted a change.
    fn leave_accepted(&self, board: Board<W>, pass: &mut Pass<W>, change: &Snapshot<Change>)
        ghost event: { Option Happened }
        requires event { event ≡ Some (happened.Accept (by_of pass.old) change.now.value) }
        requires of { chain.IsPassOf (cells_of self.now) pass.old }
        requires may { MayAccept self.now pass.old }
        requires hand { (b : BoardState) × HasBoard pass.old b }
        requires board { IsBoard (about_of self.now)
            (seen_accepting pass.old change.now.value) board }
        ensures of { chain.IsPassOf (cells_of self.now) pass.new }
        ensures same { IsSameCaller pass.old pass.new }
        ensures free { IsFree pass.new }
        ensures seen { pass.new.seen ≡ seen_accepting pass.old change.now.value }
    {
        self.cells.leave_board(board, pass);
    }
}

impl<W: Indexed, R: Wait> Shared<W, R> {
    /// What a caller sees of the changes. It takes no memory.
    pub fn ask(&self, pass: &mut Pass<W>) -> Asked
        requires of { IsPassOf self.now pass.old }
        ensures asks { IsTold self.now pass.old pass.new result }
        ensures asked { pass.new.asked ≡ pass.old.asked }
    {
        let by = pass.by();
        let mut board = self.cells.enter_board(pass);
        let asked = board.ask(by);
        self.leave_after(board, pass, Deed::Ask);
        asked
    }

    // Accepts a change by a caller who may.
    fn accept_allowed(
        &self,
        alloc: Global,
        change: Change,
        pass: &mut Pass<W>,
    ) -> Result<u64, Refused>
        requires of { IsPassOf self.now pass.old }
        requires may { MayAccept self.now pass.old }
        requires sound { IsSoundChange change }
        ensures accepted { IfOk result (Accepts self.now pass.old pass.new change) }
        ensures refused { IfErr result (Refuses self.now pass.old pass.new change) }
        ensures asked { pass.new.asked ≡ pass.old.asked }
    {
        let by = pass.by();
        let mut board = self.cells.enter_board(pass);
        let told = Snapshot::of(&change);
        match board.accept(alloc, by, change) {
            Ok(number) => {
                self.leave_accepted(board, pass, &told);
                Ok(number)
            }
            Err(cause) => {
                self.leave_after(board, pass, Deed::Nothing);
                Err(cause)
            }
        }
    }

    // Whether the pass may accept changes.
    fn may_accept(&self, pass: &Pass<W>) -> bool
        ensures { OnTrue result (MayAccept self.now pass.now) }
    {
        !self.cells.first_only() || pass.by() == 0
    }

    /// Accepts a change, and answers its number, or the first cause against it. If only the first caller may accept changes,
    /// every other caller is answered that memory is refused.
    pub fn accept(&self, alloc: Global, change: Change, pass: &mut Pass<W>) -> Result<u64, Refused>
        requires of { IsPassOf self.now pass.old }
        requires sound { IsSoundChange change }
        ensures accepted { IfOk result (Accepts self.now pass.old pass.new change) }
        ensures refused { IfErr result (Refuses self.now pass.old pass.new change) }
        ensures asked { pass.new.asked ≡ pass.old.asked }
    {
        if self.may_accept(pass) {
            return self.accept_allowed(alloc, change, pass);
        }
        Err(Refused::Memory)
    }

    /// Gives the caller the first change that is neither done nor taken, if there is one.
    pub fn take(&self, pass: &mut Pass<W>) -> Result<Option<Job>, Memory>
        requires of { IsPassOf self.now pass.old }
        ensures taken { IfOk result (Takes self.now pass.old pass.new) }
        ensures refused { OnErr result (SeesMore self.now pass.old pass.new) }
        ensures asked { pass.new.asked ≡ pass.old.asked }
    {
        let by = pass.by();
        let mut board = self.cells.enter_board(pass);
        match board.take(by) {
            Ok(Some(job)) => {
                self.leave_after(board, pass, Deed::Took(job.change));
                Ok(Some(job))
            }
            Ok(None) => {
                self.leave_after(board, pass, Deed::Nothing);
                Ok(None)
            }
            Err(Memory) => {
                self.leave_after(board, pass, Deed::Nothing);
                Err(Memory)
            }
        }
    }

    /// The job of an accepted change, for anybody who helps; none if the change is done.
    pub fn job(&self, change: u64, pass: &mut Pass<W>) -> Result<Option<Job>, Memory>
        requires of { IsPassOf self.now pass.old }
        requires accepted { IsAccepted (state_of self.now pass.old.seen) change }
        ensures job { FindsJob self.now pass.old pass.new change result }
        ensures asked { pass.new.asked ≡ pass.old.asked }
    {
        let board = self.cells.enter_board(pass);
        let job = board.job(change);
        self.leave_after(board, pass, Deed::Nothing);
        job
    }

    /// Gives a taken change back, and answers whether this caller had it, undone. It takes no memory.
    pub fn back(&self, change: u64, pass: &mut Pass<W>) -> bool
        requires of { IsPassOf self.now pass.old }
        ensures back { OnTrue result (GivesBack self.now pass.old pass.new change) }
        ensures not_taken { OnFalse result (HasNot self.now pass.old pass.new change) }
        ensures asked { pass.new.asked ≡ pass.old.asked }
    {
        let by = pass.by();
        let mut board = self.cells.enter_board(pass);
        if board.back(by, change) {
            self.leave_after(board, pass, Deed::Back(change));
            return true;
        }
        self.leave_after(board, pass, Deed::Nothing);
        false
    }

    /// Takes the work of a change, the first time. It takes no memory.
    pub fn finish(&self, change: u64, work: Arc<W, Global>, pass: &mut Pass<W>) -> Finished
        requires of { IsPassOf self.now pass.old }
        requires accepted { IsAccepted (state_of self.now pass.old.seen) change }
        requires work { IsItsWork self.now pass.old W.IsWorkOf change work }
        ensures done { result ≡ Finished.Done → Does self.now pass.old pass.new change }
        ensures already { result ≡ Finished.Already → FindsDone self.now pass.old pass.new change }
        ensures asked { pass.new.asked ≡ pass.old.asked }
    {
        let by = pass.by();
        let mut board = self.cells.enter_board(pass);
        match board.done(by, change, work) {
            Finished::Done => {
                self.leave_after(board, pass, Deed::Done(change));
                Finished::Done
            }
            Finished::Already => {
                self.leave_after(board, pass, Deed::Nothing);
                Finished::Already
            }
        }
    }

    /// Opens a view of the last published version, if this caller has none open. If memory was refused in the
    /// middle of a publication and no `advance` came through since, it reports that again.
    pub fn open_view(&self, pass: &mut Pass<W>) -> Result<View<W>, Memory>
        requires of { IsPassOf self.now pass.old }
        requires closed { view_of (state_of self.now pass.old.seen) (by_of pass.old) ≡ None }
        ensures opened { IfOk result (Opens self.now pass.old pass.new W.IsWorkOf) }
        ensures refused { OnErr result (SeesMore self.now pass.old pass.new) }
        ensures asked { pass.new.asked ≡ pass.old.asked }
    {
        let by = pass.by();
        let mut board = self.cells.enter_board(pass);
        match board.open(by) {
            Ok(view) => {
                self.leave_after(board, pass, Deed::Open(view.version));
                Ok(view)
            }
            Err(Memory) => {
                self.leave_after(board, pass, Deed::Nothing);
                Err(Memory)
            }
        }
    }

    /// Shuts the caller's view. It takes no memory.
    pub fn close_view(&self, _view: View<W>, pass: &mut Pass<W>)
        requires of { IsPassOf self.now pass.old }
        requires viewing { IsSome (view_of (state_of self.now pass.old.seen) (by_of pass.old)) }
        ensures shut { Shuts self.now pass.old pass.new }
        ensures asked { pass.new.asked ≡ pass.old.asked }
    {
        let by = pass.by();
        let mut board = self.cells.enter_board(pass);
        board.shut(by);
        self.leave_after(board, pass, Deed::Shut);
    }

    /// The entries with a key in all files of the view's version, by change and place, whatever is applied meanwhile. It takes
    /// one shard, for as long as they are copied. Each question is counted, also one for which memory is refused.
    pub fn read_bucket(
        &self,
        alloc: Global,
        view: &View<W>,
        key: u64,
        pass: &mut Pass<W>,
    ) -> Result<Vec<Entry>, Memory>
        requires of { IsPassOf self.now pass.old }
        requires viewing { IsViewing self.now pass.old W.IsWorkOf view.now }
        ensures reads { Reads self.now pass.old pass.new W.Indexed view.now key result }
        ensures reached { view.now.version ≤ least pass.new (key % (settings_of self.now).shards) }
        ensures asked { pass.new.asked ≡ one_more pass.old.asked }
    {
        let number = (key % u64::from(self.shards)) as u32;
        let shard = self.cells.enter_shard(number, pass);
        let bucket = shard.bucket(alloc, key, view.listing.live());
        self.cells.leave_shard(number, shard, pass);
        pass.count_reads(1);
        bucket
    }
}
