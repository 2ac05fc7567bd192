ghost use Rattle.std.specs.Prelude.{◌≤◌, length};

use crate::nothing::Unworked;
use cq_kept::Changes;
use std::collections::BTreeMap;

/// The changes of a log that its last version needs, and the line of each.
#[derive(Drop)]
pub struct Shortener {
    pub changes: Changes<Unworked>,
    // By the numbers of the changes. There may be lines of changes that are gone.
    pub lines: BTreeMap<u64, Vec<u8>>,
    // How many there may be before those that are gone are looked for.
    pub most: usize,
    // No floor is above the last change.
    ghost low: { changes.floor ≤ length changes.slots },
}
