ghost use Rattle.std.specs.Prelude.{◌≡◌, IfOk};
ghost use Rattle.cq_answer.specs.Works.{work_in};

use cq_base::{Lang, Memory};
use cq_projects::Held;
use cq_reply::SharedPath;
use cq_work::Work;
use std::alloc::Global;
use std::sync::Arc;
use std::sync::ledger::Ledger;

/// The path of a file of a listing, as the rows of a reply share it.
pub(crate) fn path_of<L: Ledger>(file: &Arc<Held<Work<L>>, Global>) -> Result<SharedPath, Memory>
    ensures { IfOk result (λ path. path ≡ (work_in file.now).path) }
{
    Ok(SharedPath::new(Arc::try_clone(&file.path)?))
}

/// The number of the change that put it.
pub(crate) fn change_of<L: Ledger>(file: &Arc<Held<Work<L>>, Global>) -> u64
    ensures { result ≡ (work_in file.now).number }
{
    file.change
}

pub(crate) fn lang_of<L: Ledger>(file: &Arc<Held<Work<L>>, Global>) -> Lang
    ensures { result ≡ (work_in file.now).lang }
{
    file.lang
}

/// The work of its text.
pub(crate) fn work_of<L: Ledger>(file: &Arc<Held<Work<L>>, Global>) -> &Work<L>
    ensures { result.now ≡ (work_in file.now).body }
{
    &file.work
}
