ghost use Rattle.std.specs.Prelude.{◌≡◌};
ghost use Rattle.std.specs.Ordering.{is_lt};
ghost use Rattle.cq_clones.specs.Windows.{EntryBefore};
ghost use Rattle.cq_order.specs.Order.{IsOrderOf, is_entry_before};

use cq_base::Entry;
use std::cmp::Ordering;

/// By change and then place.
fn compare_entries(a: &Entry, b: &Entry) -> Ordering
    ensures { is_lt result ≡ is_entry_before a.now b.now }
{
    a.change.cmp(&b.change).then(a.at.cmp(&b.at))
}

/// Puts entries in order.
pub fn sort_entries(entries: &mut Vec<Entry>)
    ensures { IsOrderOf EntryBefore entries.old.items entries.new.items }
{
    entries.sort_unstable_by(|a, b| compare_entries(a, b));
}
