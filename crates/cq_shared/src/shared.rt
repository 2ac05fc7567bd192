ghost use Rattle.std.specs.Prelude.{◌≡◌, ◌-◌, ◌<◌, ◌≤◌, ◌^◌, ℕ, max, [], ◌++◌, IfOk};
ghost use Rattle.cq_cells.specs.Callers.{longer};
ghost use Rattle.cq_cells.specs.Passes.{IsSameCaller, least, with_child, child_of};
ghost use Rattle.cq_cells.specs.Steps.{AreOneHistory};
ghost use Rattle.cq_chain.specs.Passes.{IsOwn, HasNoneFrom};
ghost use Rattle.cq_hub.specs.Answers.{HasViewOpen, Shuts};
ghost use Rattle.cq_shared.specs.Answers.{HasSeenItsWork, ExtendsByDone, ExtendsWhereDone};
ghost use Rattle.cq_shared.specs.SharedPasses.{IsPassOf, OnlyFirstAccepts, SharedStands, cells_of, settings_of, callers_of, asked_by};

use cq_base::{Change, Entry, Memory, Settings};
use cq_board::{Asked, Board, Finished, Job, Refused, View};
use cq_chain::{Cells, Pass};
use cq_hub::{Hub, shards_of};
use cq_io::Gate;
use cq_shard::Indexed;
use std::alloc::Global;
use std::sync::atomic::AtomicU64;
use std::sync::{Arc, Wait};

/// A board and its shards, shared by the passes of any number of threads.
#[derive(Drop)]
pub struct Shared<W: Indexed, R> {
    pub(crate) cells: Cells<W, R>,
    pub(crate) shards: u32,
    // A floor up to which each shard was swept, as whoever swept them last has left it. It only spares work.
    pub(crate) swept: AtomicU64,
}

// A hub before any event, and the pass of the first caller, who may be the only one that accepts changes.
fn made<W: Indexed, R>(
    rt: R,
    alloc: Global,
    settings: &Settings,
    callers: u32,
    first_only: bool,
) -> Result<(Shared<W, R>, Pass<W>), Memory>
where
    R: Drop,
    requires callers { (1 ≤ callers) × (callers ≤ 1024) }
    requires shards { 1 ≤ settings.now.shards }
    requires limit { settings.now.change_limit < 2 ^ 63 }
    ensures stands { IfOk result (λ made. SharedStands made.0 made.1 0 []) }
    ensures settings { IfOk result (λ made. settings_of made.0 ≡ settings.now) }
    ensures callers { IfOk result (λ made. callers_of made.0 ≡ callers) }
    ensures accepts { IfOk result (λ made. made.0.cells.about.first_only ≡ first_only) }
    ensures room { IfOk result (λ made. (made.1.next ≡ 1) × (made.1.room ≡ callers - 1)) }
    ensures asked { IfOk result (λ made. made.1.asked ≡ 0) }
{
    let board = Board::new(alloc, settings, callers)?;
    let shards = shards_of(alloc, settings.shards)?;
    let (cells, pass) = Cells::new(rt, alloc, board, shards, first_only)?;
    let hub = Shared {
        cells,
        shards: settings.shards,
        swept: AtomicU64::new(0),
    };
    Ok((hub, pass))
}

impl<W: Indexed, R> Shared<W, R> {
    /// A hub of 1 to 1,024 callers before any event, each of whom may accept changes, and the pass of the first, who is number
    /// 0. It takes memory for a board and its shards, and for a word and a slot of each.
    pub fn new(
        rt: R,
        alloc: Global,
        settings: &Settings,
        callers: u32,
    ) -> Result<(Shared<W, R>, Pass<W>), Memory>
    where
        R: Drop,
        requires callers { (1 ≤ callers) × (callers ≤ 1024) }
        requires shards { 1 ≤ settings.now.shards }
        requires limit { settings.now.change_limit < 2 ^ 63 }
        ensures stands { IfOk result (λ made. SharedStands made.0 made.1 0 []) }
        ensures settings { IfOk result (λ made. settings_of made.0 ≡ settings.now) }
        ensures callers { IfOk result (λ made. callers_of made.0 ≡ callers) }
        ensures room { IfOk result (λ made. (made.1.next ≡ 1) × (made.1.room ≡ callers - 1)) }
        ensures asked { IfOk result (λ made. made.1.asked ≡ 0) }
    {
        made(rt, alloc, settings, callers, false)
    }

    /// The same, but only the first caller may accept changes. So its pass has seen each acceptance.
    pub fn with_first_accepting(
        rt: R,
        alloc: Global,
        settings: &Settings,
        callers: u32,
    ) -> Result<(Shared<W, R>, Pass<W>), Memory>
    where
        R: Drop,
        requires callers { (1 ≤ callers) × (callers ≤ 1024) }
        requires shards { 1 ≤ settings.now.shards }
        requires limit { settings.now.change_limit < 2 ^ 63 }
        ensures stands { IfOk result (λ made. SharedStands made.0 made.1 0 []) }
        ensures settings { IfOk result (λ made. settings_of made.0 ≡ settings.now) }
        ensures callers { IfOk result (λ made. callers_of made.0 ≡ callers) }
        ensures accepts { IfOk result (λ made. OnlyFirstAccepts made.0) }
        ensures room { IfOk result (λ made. (made.1.next ≡ 1) × (made.1.room ≡ callers - 1)) }
        ensures asked { IfOk result (λ made. made.1.asked ≡ 0) }
    {
        made(rt, alloc, settings, callers, true)
    }

    /// The cells of the board and its shards, for whoever looks into them.
    pub fn cells(&self) -> &Cells<W, R>
        ensures { result.now ≡ cells_of self.now }
    {
        &self.cells
    }

    /// The pass of the next caller, which has seen what this one has, and has asked for no bucket. It takes no memory.
    pub fn split_pass(&self, pass: &mut Pass<W>) -> Pass<W>
        requires of { IsPassOf self.now pass.old }
        requires room { 0 < pass.old.room }
        ensures of { IsPassOf self.now pass.new × IsPassOf self.now result }
        ensures same { pass.new ≡ with_child pass.old }
        ensures child { result ≡ child_of pass.old }
    {
        self.cells.split_pass(pass)
    }

    /// Ends the callers of another pass: this one has then seen what either had, and has their numbers. One of the two had
    /// seen what the other had. It takes no memory.
    pub fn join_pass(&self, pass: &mut Pass<W>, other: Pass<W>)
        requires of { IsPassOf self.now pass.old × IsPassOf self.now other }
        ensures of { IsPassOf self.now pass.new }
        ensures seen { pass.new.seen ≡ longer pass.old.seen other.seen }
        ensures one_history { AreOneHistory pass.old.seen other.seen }
        ensures callers { pass.new.callers ≡ pass.old.callers ++ other.callers }
        ensures room { (pass.new.next ≡ pass.old.next) × (pass.new.room ≡ pass.old.room) }
        ensures own { IsOwn pass.old pass.new.seen × IsOwn other pass.new.seen }
        ensures unmade { 0 < pass.new.next → HasNoneFrom pass.new.next pass.new.seen }
        ensures least { (s : ℕ) → least pass.new s ≡ max (least pass.old s) (least other s) }
        ensures asked { pass.new.asked ≡ pass.old.asked }
    {
        self.cells.join_pass(pass, other);
    }

    /// The pass has then seen what another one has, too, which stays as it is. One of the two had seen all that the other
    /// had. It takes no memory.
    pub fn level(&self, pass: &mut Pass<W>, other: &mut Pass<W>)
        requires of { IsPassOf self.now pass.old × IsPassOf self.now other.old }
        ensures of { IsPassOf self.now pass.new }
        ensures same { IsSameCaller pass.old pass.new }
        ensures other { other.new ≡ other.old }
        ensures seen { pass.new.seen ≡ longer pass.old.seen other.old.seen }
        ensures one_history { AreOneHistory pass.old.seen other.old.seen }
        ensures own { IsOwn pass.old pass.new.seen }
        ensures least { (s : ℕ) → least pass.new s ≡ max (least pass.old s) (least other.old s) }
    {
        self.cells.level(pass, other);
    }
}

impl<W: Indexed, R: Wait> Hub<W> for Shared<W, R> {
    ghost use Rattle.cq_shared.specs.SharedPasses.{settings_of, callers_of, asked_by, SharedStands, shared_lawful, shared_sound, shared_caller};

    type Pass = Pass<W>;

    ghost settings = { settings_of };

    ghost callers = { callers_of };

    ghost alone = { ⊥ };

    ghost asked = { asked_by };

    ghost Stands = { SharedStands };

    ghost lawful = { λ hub pass c h is. shared_lawful hub pass c h is };

    ghost sound = { λ hub pass c h is. shared_sound hub pass c h is };

    ghost caller = { λ hub pass c h is. shared_caller hub pass c h is };

    fn accept(&self, alloc: Global, change: Change, pass: &mut Pass<W>) -> Result<u64, Refused> {
        self.accept(alloc, change, pass)
    }

    fn ask(&self, pass: &mut Pass<W>) -> Asked {
        self.ask(pass)
    }

    fn take(&self, pass: &mut Pass<W>) -> Result<Option<Job>, Memory> {
        self.take(pass)
    }

    fn job(&self, change: u64, pass: &mut Pass<W>) -> Result<Option<Job>, Memory> {
        self.job(change, pass)
    }

    fn back(&self, change: u64, pass: &mut Pass<W>) -> bool {
        self.back(change, pass)
    }

    fn finish(&self, change: u64, work: Arc<W, Global>, pass: &mut Pass<W>) -> Finished
        requires work { HasSeenItsWork self.now pass.old W.IsWorkOf change work }
        ensures done { result ≡ Finished.Done → ExtendsByDone self.now pass.old pass.new change }
        ensures already { result ≡ Finished.Already
            → ExtendsWhereDone self.now pass.old pass.new change }
        ensures asked { asked_by pass.new ≡ asked_by pass.old }
    {
        self.finish(change, work, pass)
    }

    fn advance<G: Gate>(
        &self,
        alloc: Global,
        to: u64,
        gate: &G,
        pass: &mut Pass<W>,
    ) -> Result<u64, Memory> {
        self.advance(alloc, to, gate, pass)
    }

    fn open_view(&self, pass: &mut Pass<W>) -> Result<View<W>, Memory> {
        self.open_view(pass)
    }

    fn read_bucket(
        &self,
        alloc: Global,
        view: &View<W>,
        key: u64,
        pass: &mut Pass<W>,
    ) -> Result<Vec<Entry>, Memory> {
        self.read_bucket(alloc, view, key, pass)
    }

    fn count_reads(&self, reads: u64, pass: &mut Pass<W>) {
        pass.count_reads(reads);
    }

    fn close_view(&self, view: View<W>, pass: &mut Pass<W>)
        requires viewing { HasViewOpen SharedStands settings_of callers_of self.now pass.old }
        ensures shut { Shuts SharedStands ⊥ settings_of callers_of self.now pass.old pass.new }
        ensures asked { asked_by pass.new ≡ asked_by pass.old }
    {
        self.close_view(view, pass)
    }

    fn sweep(&self, alloc: Global, pass: &mut Pass<W>) -> Result<u64, Memory> {
        self.sweep(alloc, pass)
    }
}
