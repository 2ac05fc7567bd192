ghost use Rattle.std.specs.Prelude.{◌≡◌, ◌≤◌, All, OnOk};
ghost use Rattle.cq_hub.specs.Shards.{StandBeside, AreKeptOf, IsSweptTo};

use cq_base::Memory;
use cq_board::Board;
use cq_shard::{Indexed, Shard, it_knows_what_is_kept};
use std::alloc::Global;

/// Each of the board's shards is swept up to the board's floor, if it was not, but for the puts that this keeps. It
/// asks the board for these, and does nothing if all are swept.
pub(crate) fn sweep_shards<W: Indexed>(
    alloc: Global,
    board: &Board<W>,
    shards: &mut Vec<Shard>,
) -> Result<(), Memory>
    requires published { board.now.state.floor ≤ board.now.state.published }
    requires stand { StandBeside W.keys_in W.IsWorkOf board.now shards.old.items }
    ensures stand { StandBeside W.keys_in W.IsWorkOf board.now shards.new.items }
    ensures swept { OnOk result (All (λ c. c.floor ≡ board.now.state.floor) shards.new.items) }
{
    let floor = board.floor();
    let least = least_floor(floor, shards);
    if least == floor {
        return Ok(());
    }
    let keep = board.keep(alloc)?;
    let numbers = keep.numbers();
    'shards: for i in 0..shards.len() {
        sweep_to::<W>(floor, numbers, &mut shards[i]);
    }
    Ok(())
}

// The least of a floor and each shard's.
fn least_floor(floor: u64, shards: &[Shard]) -> u64
    ensures at_most { result ≤ floor }
    ensures least { All (λ c. result ≤ c.floor) shards.now }
{
    let mut least = floor;
    for shard in shards {
        least = least.min(shard.floor());
    }
    least
}

/// The shard is swept up to a floor, if it was not, but for the puts that this keeps of the changes that it stands
/// for.
pub fn sweep_to<W: Indexed>(floor: u64, keep: &[u64], shard: &mut Shard)
    requires applied { floor ≤ shard.old.applied }
    requires kept { AreKeptOf W.keys_in W.IsWorkOf floor keep.now shard.old }
    ensures { IsSweptTo floor keep.now shard.old shard.new }
{
    it_knows_what_is_kept::<W>();
    let at = shard.floor();
    if at < floor {
        shard.sweep(floor, keep);
    }
}
