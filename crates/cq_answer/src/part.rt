ghost use Rattle.std.specs.Prelude.{◌≡◌, ℕ, length};
ghost use Rattle.cq_answer.specs.Parts as spec;
ghost use Rattle.cq_answer.specs.Works.{paths_in};

use cq_base::Text;
use cq_projects::ProjectFiles;
use cq_request::{Kind, Query};
use cq_work::Work;
use std::sync::ledger::Ledger;

/// What a query lists of a project.
#[derive(Clone, Copy, Debug, PartialEq, Eq)]
pub enum Part {
    /// All files.
    Whole,
    /// The file at this position.
    File(u32),
    /// The file at this position, of which no groups are shown.
    Alone(u32),
    /// No file: the query shows no groups, or its path is not there.
    Nothing,
}

fn part_at<L: Ledger>(files: &ProjectFiles<Work<L>>, path: &Option<Text>) -> Part
    ensures part { result ≡ spec.part_at (paths_in files.now) path.now }
    ensures within { spec.IsWithin (length files.now) result }
{
    let Some(path) = path else {
        return Part::Whole;
    };
    match files.position_of_path(path) {
        Some(file) => Part::File(file),
        None => Part::Nothing,
    }
}

fn alone(part: Part) -> Part
    ensures part { result ≡ spec.alone part }
    ensures within { (n : ℕ) → spec.IsWithin n part → spec.IsWithin n result }
{
    match part {
        Part::File(file) => Part::Alone(file),
        Part::Alone(file) => Part::Alone(file),
        Part::Whole | Part::Nothing => Part::Nothing,
    }
}

/// What a query lists of some files. It costs a binary search if it has a path.
pub(crate) fn part_of<L: Ledger>(files: &ProjectFiles<Work<L>>, query: &Query) -> Part
    ensures part { result ≡ spec.part_of (paths_in files.now) query.now.kind query.now.path }
    ensures within { spec.IsWithin (length files.now) result }
{
    match query.kind {
        Kind::Files => Part::Nothing,
        Kind::Groups | Kind::Measures => part_at(files, &query.path),
        Kind::Verdict => Part::Whole,
        Kind::Functions => alone(part_at(files, &query.path)),
    }
}
