ghost use Rattle.std.specs.Prelude.{◌≡◌, true, IfOk};
ghost use Rattle.cq_history.specs.Changes.{text_len};
ghost use Rattle.cq_kept.specs.Slots.{change_of, has_text};

use crate::kept::{FileKey, ProjectKey, Stored};
use crate::put_text::PutText;
use cq_base::{Change, Memory};
use std::alloc::Global;
use std::sync::Arc;

/// How many bytes of text a change brings.
pub fn text_len(change: &Stored) -> u64
    ensures { result ≡ text_len (change_of change.now) }
{
    match change {
        Stored::Put { text, .. } => text.len(),
        Stored::Drop { .. } => 0,
        Stored::Gate { .. } => 0,
    }
}

/// The change as it is kept.
pub fn stored(alloc: Global, change: Change) -> Result<Stored, Memory>
    ensures change { IfOk result (λ kept. change_of kept ≡ change) }
    ensures text { IfOk result (λ kept. has_text kept ≡ true) }
{
    match change {
        Change::Put {
            project,
            path,
            lang,
            text,
        } => {
            let project = Arc::new(alloc, project)?;
            let path = Arc::new(alloc, path)?;
            let text = PutText::new(alloc, text)?;
            Ok(Stored::Put {
                file: FileKey { project, path },
                lang,
                text,
            })
        }
        Change::Drop { project, path } => {
            let project = Arc::new(alloc, project)?;
            let path = Arc::new(alloc, path)?;
            Ok(Stored::Drop {
                file: FileKey { project, path },
            })
        }
        Change::Gate {
            project,
            conditions,
        } => {
            let project = Arc::new(alloc, project)?;
            let conditions = Arc::new(alloc, conditions)?;
            Ok(Stored::Gate {
                key: ProjectKey { project },
                conditions,
            })
        }
    }
}
