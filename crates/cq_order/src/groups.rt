ghost use Rattle.std.specs.Prelude.{◌≡◌, IfOk};
ghost use Rattle.std.specs.Ordering.{is_lt};
ghost use Rattle.cq_clones.specs.Groups.{ComesBefore};
ghost use Rattle.cq_base.specs.Places.{first_place};
ghost use Rattle.cq_order.specs.Order.{IsOrderOf, comes_before};

use crate::places::compare_places;
use cq_base::{Group, Memory};
use std::cmp::Ordering;

/// By the first place, and longer first.
fn compare_groups(g: &Group, h: &Group) -> Ordering
    ensures { is_lt result ≡ comes_before g.now h.now }
{
    compare_places(g.first_place(), h.first_place()).then(h.tokens.cmp(&g.tokens))
}

/// Groups in order: by the first place, and longer first. They are dropped if memory is refused.
pub fn order(groups: Vec<Group>) -> Result<Vec<Group>, Memory>
    ensures { IfOk result (λ sorted. IsOrderOf ComesBefore groups.items sorted.items) }
{
    let mut groups = groups;
    groups.sort_by(|g, h| compare_groups(g, h))?;
    Ok(groups)
}
