ghost use Rattle.std.specs.Prelude.{◌≡◌, ◌==◌, ◌&&◌};
ghost use Rattle.std.specs.Ordering.{is_lt, is_eq};
ghost use Rattle.cq_clones.specs.Groups.{IsBefore};
ghost use Rattle.cq_order.specs.Order.{IsOrderOf, is_before};

use cq_base::Place;
use std::cmp::Ordering;

/// By file and then token.
pub(crate) fn compare_places(p: Place, q: Place) -> Ordering
    ensures less { is_lt result ≡ is_before p q }
    ensures equal { is_eq result ≡ (p.file == q.file && p.at == q.at) }
{
    p.file.cmp(&q.file).then(p.at.cmp(&q.at))
}

/// Puts places in order.
pub fn sort_places(places: &mut Vec<Place>)
    ensures { IsOrderOf IsBefore places.old.items places.new.items }
{
    places.sort_unstable_by(|p, q| compare_places(*p, *q));
}
