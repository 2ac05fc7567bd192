//! Places, entries and groups in their order, the occurrences of a word that are kept, and the spots of a list's changes.
//! Both the plain listing and the listing by index rest on these, so that they agree on order and on overlaps. A sort of
//! n items costs n log n comparisons; `kept` one walk; `spot_of` a binary search between the two places that `reach`
//! gives in constant time, and nothing is made for it. `spots_of` is a walk if the greatest change is less than four
//! times the number of changes, and a sort otherwise. Spots are edited in place, one file at a time.
#![tactic(auto)]

mod counting;
mod entries;
mod groups;
mod keeping;
mod places;
mod rising;
mod spots;

pub use entries::sort_entries;
pub use groups::order;
pub use keeping::kept;
pub use places::sort_places;
pub use rising::reach;
pub use spots::{Spot, Spots, spot_of, spots_of};
