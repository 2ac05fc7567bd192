ghost use Rattle.std.specs.Prelude.{◌≡◌, IfOk, IfErr};
ghost use Rattle.cq_base.specs.Changes.{IsSoundChange};
ghost use Rattle.cq_keeper.specs.Firsts.{IsFirst, IsFirstAfter, IsFirstStill, AcceptsByFirst, Refuses, SeesMore};
ghost use Rattle.cq_shared.specs.SharedPasses.{IsPassOf};

use cq_base::Change;
use cq_board::Refused;
use cq_chain::Pass;
use cq_shard::Indexed;
use cq_shared::Shared;
use std::alloc::Global;
use std::sync::Wait;

/// Accepts a change by the first caller, after all that another pass has seen, and answers its number, or the first cause against
/// it. The other pass, of whoever sent the change, has then seen as much.
pub(crate) fn accept_by_first<W: Indexed, R: Wait>(
    hub: &Shared<W, R>,
    alloc: Global,
    change: Change,
    first: &mut Pass<W>,
    pass: &mut Pass<W>,
) -> Result<u64, Refused>
    requires first { IsFirst hub.now first.old }
    requires of { IsPassOf hub.now pass.old }
    requires sound { IsSoundChange change }
    ensures accepted { IfOk result (AcceptsByFirst hub.now pass.old pass.new change) }
    ensures first { IfOk result (λ _. IsFirstAfter hub.now first.old first.new change) }
    ensures refused { IfErr result (Refuses hub.now pass.old pass.new change) }
    ensures still { IfErr result (λ _. IsFirstStill hub.now first.old first.new) }
    ensures sees { SeesMore hub.now pass.old pass.new }
    ensures asked { pass.new.asked ≡ pass.old.asked }
{
    hub.level(first, pass);
    let result = hub.accept(alloc, change, first);
    hub.level(pass, first);
    result
}
