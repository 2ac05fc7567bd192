ghost use Rattle.cq_clones.specs.Readers.{HasOneList, ListsEveryMatch, ShowsItsTokens};

/// A corpus has at most one list of groups: the definition leaves nothing open.
pub fn has_one_list()
    ensures { HasOneList }
{}

/// A listing is complete: every match of at least the least length whose two words do not overlap lies in a group of
/// it, with both its places.
pub fn lists_every_match()
    ensures { ListsEveryMatch }
{}

/// A listing is sound: each place of each group shows that group's tokens, all within its file.
pub fn shows_its_tokens()
    ensures { ShowsItsTokens }
{}
