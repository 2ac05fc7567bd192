use crate::project_files::ProjectFiles;
use cq_base::{Conditions, Lang, Text};
use std::alloc::Global;
use std::marker::Model;
use std::sync::Arc;

/// A file of a published version with its work. Contracts see the file, with the work in the place of its text.
#[derive(Drop)]
pub struct Held<W> {
    pub path: Arc<Text, Global>,
    pub change: u64,
    pub lang: Lang,
    pub work: Arc<W, Global>,
}

impl<W> Model for Held<W> {
    ghost use Rattle.std.specs.Arc.{arc_value};
    ghost use Rattle.cq_history.specs.Files.{File};

    ghost Value = { File W };

    ghost view = { λ h. record { path = arc_value h.path; number = h.change; lang = h.lang; body = arc_value h.work } };
}

/// The files of one project, and the conditions of its last gate.
#[derive(Drop)]
pub struct Project<W> {
    pub name: Arc<Text, Global>,
    pub files: ProjectFiles<W>,
    pub conditions: Option<Arc<Conditions, Global>>,
}

impl<W> Model for Project<W> {
    ghost use Rattle.std.specs.Prelude.{[], option_map, unwrap_or};
    ghost use Rattle.std.specs.Arc.{arc_value};
    ghost use Rattle.cq_projects.specs.Projects.{ListedProject};

    ghost Value = { ListedProject W };

    ghost view = { λ p. record { name = arc_value p.name; files = p.files; conditions = unwrap_or (option_map arc_value p.conditions) [] } };
}
