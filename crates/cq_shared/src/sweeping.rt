ghost use Rattle.std.specs.Prelude.{◌≡◌, ◌<◌, IfOk};
ghost use Rattle.cq_history.specs.Gone.{AreKeptPuts};
ghost use Rattle.cq_history.specs.State.{accepted};
ghost use Rattle.cq_board.specs.Calls.{KeepsPuts};
ghost use Rattle.cq_cells.specs.Passes.{IsSameCaller};
ghost use Rattle.cq_shared.specs.Answers.{RaisesFloor, KeepsAbove, Sweeps};
ghost use Rattle.cq_shared.specs.SharedPasses.{IsPassOf, settings_of, state_of};

use crate::deed::Deed;
use crate::shared::Shared;
use cq_base::Memory;
use cq_board::{Board, Keep};
use cq_chain::Pass;
use cq_hub::sweep_to;
use cq_shard::Indexed;
use std::alloc::Global;
use std::sync::Wait;
use std::sync::atomic::Ordering;

impl<W: Indexed, R: Wait> Shared<W, R> {
    /// Gives up the versions below the published one and each open one, sweeps each shard that was not swept so far, and
    /// answers the floor. The board sets it in one hold, and gives the puts that it keeps; each shard is swept in a hold
    /// of its own. If all were swept up to this floor, no shard is taken, and no memory. If memory is refused, no
    /// shard is swept. The listing that has those puts' numbers has an owner more until all shards are swept.
    pub fn sweep(&self, alloc: Global, pass: &mut Pass<W>) -> Result<u64, Memory>
        requires of { IsPassOf self.now pass.old }
        ensures swept { Sweeps self.now pass.old pass.new result }
        ensures asked { pass.new.asked ≡ pass.old.asked }
    {
        let above = self.swept.load(Ordering::SeqCst);
        let (floor, keep) = self.raise_floor(alloc, above, pass)?;
        if floor <= above {
            return Ok(floor);
        }
        self.sweep_shards(floor, keep.numbers(), pass);
        drop(keep);
        self.swept.store(floor, Ordering::SeqCst);
        Ok(floor)
    }

    // Sets the greatest floor that there may be, in one hold of the board. If it is above another one, the puts that
    // it keeps are returned.
    fn raise_floor(
        &self,
        alloc: Global,
        above: u64,
        pass: &mut Pass<W>,
    ) -> Result<(u64, Keep<W>), Memory>
        requires of { IsPassOf self.now pass.old }
        ensures calls { RaisesFloor self.now pass.old pass.new }
        ensures floor { IfOk result (λ r. r.0 ≡ (state_of self.now pass.new.seen).floor) }
        ensures keep { IfOk result (KeepsAbove above pass.new) }
        ensures asked { pass.new.asked ≡ pass.old.asked }
    {
        let mut board = self.cells.enter_board(pass);
        let floor = board.greatest_floor();
        if board.set_floor(floor) {
            let keep = keep_above(alloc, &board, above);
            self.leave_after(board, pass, Deed::Floor(floor));
            return Ok((floor, keep?));
        }
        let keep = keep_above(alloc, &board, above);
        self.leave_after(board, pass, Deed::Nothing);
        Ok((floor, keep?))
    }

    // Each shard is swept up to the floor, in a hold of its own.
    fn sweep_shards(&self, floor: u64, keep: &[u64], pass: &mut Pass<W>)
        requires of { IsPassOf self.now pass.old }
        requires floor { floor ≡ (state_of self.now pass.old.seen).floor }
        requires keep { AreKeptPuts (accepted pass.old.seen) floor keep.now }
        ensures of { IsPassOf self.now pass.new × IsSameCaller pass.old pass.new }
        ensures seen { pass.new.seen ≡ pass.old.seen }
    {
        'shards: for number in 0..self.shards {
            self.sweep_shard(number, floor, keep, pass);
        }
    }

    // The shard is swept up to the floor but for the puts that this keeps, if it was not.
    fn sweep_shard(&self, number: u32, floor: u64, keep: &[u64], pass: &mut Pass<W>)
        requires of { IsPassOf self.now pass.old }
        requires number { number < (settings_of self.now).shards }
        requires floor { floor ≡ (state_of self.now pass.old.seen).floor }
        requires keep { AreKeptPuts (accepted pass.old.seen) floor keep.now }
        ensures of { IsPassOf self.now pass.new × IsSameCaller pass.old pass.new }
        ensures seen { pass.new.seen ≡ pass.old.seen }
    {
        let mut shard = self.cells.enter_shard(number, pass);
        sweep_to::<W>(floor, keep, &mut shard);
        self.cells.leave_shard(number, shard, pass);
    }
}

// The puts that the board's floor keeps. If it is no higher than another one, nothing is looked for, and no memory taken.
fn keep_above<W: Indexed>(alloc: Global, board: &Board<W>, above: u64) -> Result<Keep<W>, Memory>
    ensures { IfOk result (λ keep. above < board.now.state.floor → KeepsPuts board.now.state keep) }
{
    if board.floor() <= above {
        return Ok(Keep::new(alloc));
    }
    board.keep(alloc)
}
