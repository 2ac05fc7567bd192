ghost use Rattle.std.specs.Prelude.{◌≡◌, ◌+◌, ◌<◌, ◌≤◌, ◌^◌, ℕ, true, [], length, IfOk, OnOk, OnErr};
ghost use Rattle.cq_history.specs.State.{ready};
ghost use Rattle.cq_cells.specs.Passes.{IsSameCaller, least};
ghost use Rattle.cq_shard.specs.Shard.{HaveFewKeys, IsSameShard};
ghost use Rattle.cq_shared.specs.Advancing.{HasWorksFrom, HasWorksUpTo, StandsAfter, GoesFurther};
ghost use Rattle.cq_shared.specs.Answers.{Publishes};
ghost use Rattle.cq_shared.specs.Calls.{Calls};
ghost use Rattle.cq_shared.specs.SharedPasses.{IsPassOf, HaveApplied, HaveAppliedBetween, settings_of, state_of};

use crate::deed::Deed;
use crate::shared::Shared;
use cq_base::{Memory, Steps};
use cq_board::Board;
use cq_chain::Pass;
use cq_hub::finished_works;
use cq_io::Gate;
use cq_shard::{Indexed, Shard, lent};
use std::alloc::Global;
use std::marker::Brand;
use std::sync::ledger::{Blank, Ledger};
use std::sync::{Arc, Wait};

// 2^32 by the golden ratio.
const GOLDEN: u32 = 2_654_435_769;

impl<W: Indexed, R: Wait> Shared<W, R> {
    /// Publishes the changes up to a number, all of which are done, and answers the last published version. The board
    /// gives the owners of the works in one hold; each shard applies each further change in a hold of its own, with a
    /// look at each key of its work; and the board publishes in another. If they are published, the board makes the
    /// listing again in that hold, should memory have been refused while it was changed. If memory is refused, some
    /// shards may be further on than what is published. The gate is called for each shard that was brought up, while the
    /// pass holds no cell.
    pub fn advance<G: Gate>(
        &self,
        alloc: Global,
        to: u64,
        gate: &G,
        pass: &mut Pass<W>,
    ) -> Result<u64, Memory>
        requires of { IsPassOf self.now pass.old }
        requires done { to ≤ ready (state_of self.now pass.old.seen) }
        ensures published { Publishes self.now pass.old pass.new to result }
        ensures asked { pass.new.asked ≡ pass.old.asked }
    {
        let (base, works) = self.works_up_to(alloc, to, pass)?;
        if to <= base {
            return Ok(base);
        }
        self.commit(base, to, &works, gate, pass)?;
        self.publish(alloc, to, pass)
    }

    // The last published version, and the works of the changes after it up to another. If that is published, the
    // listing is made again, should memory have been refused while it was changed.
    fn works_up_to(
        &self,
        alloc: Global,
        to: u64,
        pass: &mut Pass<W>,
    ) -> Result<(u64, Vec<Option<Arc<W, Global>>>), Memory>
        requires of { IsPassOf self.now pass.old }
        requires done { to ≤ ready (state_of self.now pass.old.seen) }
        ensures calls { Calls self.now pass.old pass.new [] (λ _. Unit {0}) }
        ensures base { IfOk result (λ r. r.0 ≡ (state_of self.now pass.new.seen).published) }
        ensures works { IfOk result (HasWorksUpTo self.now pass.new W.Indexed to) }
        ensures asked { pass.new.asked ≡ pass.old.asked }
    {
        let mut board = self.cells.enter_board(pass);
        let base = board.published();
        let listed = relist_where_published(&mut board, to);
        let works = finished_works(alloc, &board, base, to);
        self.leave_after(board, pass, Deed::Nothing);
        listed?;
        Ok((base, works?))
    }

    // Each shard applies the changes up to one. Callers begin at shards that stand apart, and every second one goes down: so
    // two that bring the same changes share the shards among them, and neither goes behind the other.
    fn commit<G: Gate>(
        &self,
        base: u64,
        to: u64,
        works: &Vec<Option<Arc<W, Global>>>,
        gate: &G,
        pass: &mut Pass<W>,
    ) -> Result<(), Memory>
        requires of { IsPassOf self.now pass.old }
        requires base { (base < to) × (base ≤ (state_of self.now pass.old.seen).published) }
        requires done { to ≤ ready (state_of self.now pass.old.seen) }
        requires works { HasWorksFrom self.now pass.old W.Indexed base to works.now.items }
        ensures of { IsPassOf self.now pass.new × IsSameCaller pass.old pass.new }
        ensures seen { pass.new.seen ≡ pass.old.seen }
        ensures applied { OnOk result (HaveApplied self.now pass.new to) }
    {
        let first = first_shard(pass.by(), self.shards);
        if pass.by() % 2 == 0 {
            self.commit_shards(first, self.shards, false, base, to, works, gate, pass)?;
            return self.commit_shards(0, first, false, base, to, works, gate, pass);
        }
        self.commit_shards(0, first, true, base, to, works, gate, pass)?;
        self.commit_shards(first, self.shards, true, base, to, works, gate, pass)
    }

    // The shards from one on and before another apply the changes up to one, the last shard first if they go down.
    fn commit_shards<G: Gate>(
        &self,
        from: u32,
        until: u32,
        down: bool,
        base: u64,
        to: u64,
        works: &Vec<Option<Arc<W, Global>>>,
        gate: &G,
        pass: &mut Pass<W>,
    ) -> Result<(), Memory>
        requires of { IsPassOf self.now pass.old }
        requires until { until ≤ (settings_of self.now).shards }
        requires base { (base < to) × (base ≤ (state_of self.now pass.old.seen).published) }
        requires done { to ≤ ready (state_of self.now pass.old.seen) }
        requires works { HasWorksFrom self.now pass.old W.Indexed base to works.now.items }
        ensures of { IsPassOf self.now pass.new × IsSameCaller pass.old pass.new }
        ensures seen { pass.new.seen ≡ pass.old.seen }
        ensures more { (s : ℕ) → least pass.old s ≤ least pass.new s }
        ensures applied { OnOk result (HaveAppliedBetween from until pass.new to) }
    {
        let mut low = from;
        let mut high = until;
        'shards: while low < high {
            let number = if down { high - 1 } else { low };
            if down {
                high = number;
            } else {
                low = number + 1;
            }
            self.commit_shard(number, base, to, works, pass)?;
            gate.after_shard(number);
        }
        Ok(())
    }

    // One shard applies the changes up to one, one by one, as long as no other caller has brought it so far.
    fn commit_shard(
        &self,
        number: u32,
        base: u64,
        to: u64,
        works: &Vec<Option<Arc<W, Global>>>,
        pass: &mut Pass<W>,
    ) -> Result<(), Memory>
        requires of { IsPassOf self.now pass.old }
        requires number { number < (settings_of self.now).shards }
        requires base { (base < to) × (base ≤ (state_of self.now pass.old.seen).published) }
        requires done { to ≤ ready (state_of self.now pass.old.seen) }
        requires works { HasWorksFrom self.now pass.old W.Indexed base to works.now.items }
        ensures of { IsPassOf self.now pass.new × IsSameCaller pass.old pass.new }
        ensures seen { pass.new.seen ≡ pass.old.seen }
        ensures more { (s : ℕ) → least pass.old s ≤ least pass.new s }
        ensures applied { OnOk result (to ≤ least pass.new number) }
    {
        'changes: for _change in base..to {
            if self.apply_one(number, base, to, works, pass)? {
                return Ok(());
            }
        }
        Ok(())
    }

    // The shard applies the next change, unless it has applied so many; and whether it has applied so many then.
    fn apply_one(
        &self,
        number: u32,
        base: u64,
        to: u64,
        works: &Vec<Option<Arc<W, Global>>>,
        pass: &mut Pass<W>,
    ) -> Result<bool, Memory>
        requires of { IsPassOf self.now pass.old }
        requires number { number < (settings_of self.now).shards }
        requires base { (base < to) × (base ≤ (state_of self.now pass.old.seen).published) }
        requires done { to ≤ ready (state_of self.now pass.old.seen) }
        requires works { HasWorksFrom self.now pass.old W.Indexed base to works.now.items }
        ensures of { IsPassOf self.now pass.new × IsSameCaller pass.old pass.new }
        ensures seen { pass.new.seen ≡ pass.old.seen }
        ensures more { (s : ℕ) → least pass.old s ≤ least pass.new s }
        ensures all { IfOk result (λ all. all ≡ true → to ≤ least pass.new number) }
        ensures first { OnOk result (base + 1 ≤ least pass.new number) }
        ensures next { OnOk result (GoesFurther number to pass.old pass.new) }
    {
        let mut shard = self.cells.enter_shard(number, pass);
        let applied = shard.applied();
        if applied >= to {
            self.cells.leave_shard(number, shard, pass);
            return Ok(true);
        }
        let at = (applied - base) as usize;
        let done = apply_next(&mut shard, &works[at..at + 1]);
        self.cells.leave_shard(number, shard, pass);
        done?;
        Ok(applied + 1 >= to)
    }

    // Publishes the changes up to one, if another has not published as many.
    fn publish(&self, alloc: Global, to: u64, pass: &mut Pass<W>) -> Result<u64, Memory>
        requires of { IsPassOf self.now pass.old }
        requires done { to ≤ ready (state_of self.now pass.old.seen) }
        requires applied { HaveApplied self.now pass.old to }
        ensures published { Publishes self.now pass.old pass.new to result }
        ensures asked { pass.new.asked ≡ pass.old.asked }
    {
        let mut board = self.cells.enter_board(pass);
        let published = board.published();
        if to <= published {
            let listed = board.relist();
            self.leave_after(board, pass, Deed::Nothing);
            listed?;
            return Ok(published);
        }
        match board.publish(alloc, to) {
            Ok(()) => {
                self.leave_after(board, pass, Deed::Publish(to));
                Ok(to)
            }
            Err(Memory) => {
                self.leave_after(board, pass, Deed::Nothing);
                Err(Memory)
            }
        }
    }
}

// Makes the listing of a board again if a version is published already, should memory have been refused while it was
// changed. A later version's publication makes it else.
fn relist_where_published<W: Indexed>(board: &mut Board<W>, to: u64) -> Result<(), Memory>
    ensures { board.new ≡ board.old }
{
    if to <= board.published() {
        return board.relist();
    }
    Ok(())
}

// At which shard a caller begins. However many callers and shards there are, the first so many callers stand apart by about
// equal parts of the shards.
fn first_shard(caller: u32, shards: u32) -> u32
    ensures { result ≤ shards }
{
    let place = u64::from(caller.wrapping_mul(GOLDEN)).saturating_mul(u64::from(shards)) >> 32;
    place.min(u64::from(shards)) as u32
}

// The shard applies the next change, whose work this is.
fn apply_next<W: Indexed>(shard: &mut Shard, work: &[Option<Arc<W, Global>>]) -> Result<(), Memory>
    requires one { length work.now ≡ 1 }
    requires room { shard.old.applied + 1 < 2 ^ 64 }
    requires few { HaveFewKeys W.keys_in work.now }
    ensures stands { StandsAfter W.Indexed shard.old work.now (OnOk result) shard.new }
    ensures applied { OnOk result (shard.new.applied ≡ shard.old.applied + 1) }
    ensures kept { OnOk result (IsSameShard shard.old shard.new) }
    ensures same { OnErr result (shard.new ≡ shard.old) }
{
    apply_counted::<W, Brand>(shard, work, Blank::new(1))
}

// The same on a ledger of its own, which nobody reads.
fn apply_counted<W: Indexed, L: Ledger>(
    shard: &mut Shard,
    work: &[Option<Arc<W, Global>>],
    blank: Blank,
) -> Result<(), Memory>
    requires name { blank.name ≡ L.name }
    requires parts { blank.parts ≡ L.parts }
    requires one { length work.now ≡ 1 }
    requires room { shard.old.applied + 1 < 2 ^ 64 }
    requires few { HaveFewKeys W.keys_in work.now }
    ensures stands { StandsAfter W.Indexed shard.old work.now (OnOk result) shard.new }
    ensures applied { OnOk result (shard.new.applied ≡ shard.old.applied + 1) }
    ensures kept { OnOk result (IsSameShard shard.old shard.new) }
    ensures same { OnErr result (shard.new ≡ shard.old) }
{
    let mut steps: Steps<L> = Steps::new(blank);
    let next = shard.applied() + 1;
    shard.apply(next, lent(&work[0]), &mut steps)
}
