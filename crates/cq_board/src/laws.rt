//! What a board and its shards keep together, for those who read the definitions.
ghost use Rattle.cq_shard.specs.Laws.{WithAllSettings};
ghost use Rattle.cq_board.specs.Entries.{ShardsHaveTheEntries};

use cq_shard::{Indexed, it_answers_what_it_holds};

/// What a shard that has applied a version answers for the numbers of the version's files is its part of the entries of the
/// version.
pub fn shards_have_the_entries<W: Indexed>()
    ensures { WithAllSettings W.Indexed ShardsHaveTheEntries }
{
    it_answers_what_it_holds::<W>();
}
