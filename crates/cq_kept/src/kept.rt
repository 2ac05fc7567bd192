ghost use Rattle.std.specs.Prelude.{◌≡◌, IfOk};
ghost use Rattle.std.specs.Arc.{arc_value};
ghost use Rattle.cq_kept.specs.Slots.{change_of, given_up, has_text};

use crate::put_text::PutText;
use cq_base::{Conditions, Lang, Memory, Text};
use std::alloc::Global;
use std::sync::Arc;

/// Where a file is: its project and its path there. They are ordered by project and then path, byte by byte.
#[derive(PartialEq, Eq, PartialOrd, Ord, Drop)]
pub struct FileKey {
    pub project: Arc<Text, Global>,
    pub path: Arc<Text, Global>,
}

impl FileKey {
    /// The same texts, shared.
    pub fn shared(&self) -> Result<FileKey, Memory>
        ensures project { IfOk result (λ k. arc_value k.project ≡ arc_value self.now.project) }
        ensures path { IfOk result (λ k. arc_value k.path ≡ arc_value self.now.path) }
    {
        let project = Arc::try_clone(&self.project)?;
        let path = Arc::try_clone(&self.path)?;
        Ok(FileKey { project, path })
    }
}

/// A project, by its name, byte by byte.
#[derive(PartialEq, Eq, PartialOrd, Ord, Drop)]
pub struct ProjectKey {
    pub project: Arc<Text, Global>,
}

impl ProjectKey {
    /// The same text, shared.
    pub fn shared(&self) -> Result<ProjectKey, Memory>
        ensures { IfOk result (λ k. arc_value k.project ≡ arc_value self.now.project) }
    {
        let project = Arc::try_clone(&self.project)?;
        Ok(ProjectKey { project })
    }
}

/// A change as the board keeps it: who needs a text of it shares that.
#[derive(Drop)]
pub enum Stored {
    Put {
        file: FileKey,
        lang: Lang,
        text: PutText,
    },
    Drop {
        file: FileKey,
    },
    Gate {
        key: ProjectKey,
        conditions: Arc<Conditions, Global>,
    },
}

impl Stored {
    /// The same change, whose texts are shared.
    pub fn shared(&self) -> Result<Stored, Memory>
        ensures change { IfOk result (λ same. change_of same ≡ change_of self.now) }
        ensures text { IfOk result (λ same. has_text same ≡ has_text self.now) }
    {
        match self {
            Stored::Put { file, lang, text } => {
                let file = file.shared()?;
                let text = text.shared()?;
                Ok(Stored::Put {
                    file,
                    lang: *lang,
                    text,
                })
            }
            Stored::Drop { file } => {
                let file = file.shared()?;
                Ok(Stored::Drop { file })
            }
            Stored::Gate { key, conditions } => {
                let key = key.shared()?;
                let conditions = Arc::try_clone(conditions)?;
                Ok(Stored::Gate { key, conditions })
            }
        }
    }

    /// Gives its text up, if it is a put.
    pub(crate) fn give_up_text(&mut self)
        ensures { self.new ≡ given_up self.old }
    {
        match self {
            Stored::Put { text, .. } => text.give_up(),
            Stored::Drop { .. } => {}
            Stored::Gate { .. } => {}
        }
    }
}

/// An accepted change, its work once it was made, and who took it and did not give it back. A put has its text until then.
#[derive(Drop)]
pub struct Kept<W> {
    pub change: Stored,
    pub work: Option<Arc<W, Global>>,
    pub holder: Option<u32>,
}
