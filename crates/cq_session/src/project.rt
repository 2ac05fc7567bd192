ghost use Rattle.std.specs.Prelude.{◌≡◌, nat_eq};
ghost use Rattle.std.specs.List.{list_any};
ghost use Rattle.cq_projects.specs.Spotted.{numbers_of};
ghost use Rattle.cq_session.specs.Projects.{entries_of};

use cq_base::Entry;
use cq_projects::ProjectFiles;

/// Only the entries of these files' changes stay.
pub fn keep<W>(entries: &mut Vec<Entry>, files: &ProjectFiles<W>)
    ensures { entries.new.items ≡ entries_of (numbers_of files.now) entries.old.items }
{
    entries.retain(|e| is_among(files, e.change));
}

// Whether one of the files was put by this change.
fn is_among<W>(files: &ProjectFiles<W>, change: u64) -> bool
    ensures { result ≡ list_any (nat_eq change) (numbers_of files.now) }
{
    files.position_of_change(change).is_some()
}
