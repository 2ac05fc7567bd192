ghost use Rattle.std.specs.Prelude.{◌≡◌, ◌<◌, length, IfOk, IfErr, OnOk, OnErr};
ghost use Rattle.std.specs.Arc.{arc_value};
ghost use Rattle.std.specs.Ordering.{nat_cmp};
ghost use Rattle.std.specs.Cmp.Lexicographic.{slice_cmp};
ghost use Rattle.cq_projects.specs.Ordered.{AreRising, IsAt, IsGap};
ghost use Rattle.cq_projects.specs.Projects.{owner_name, owner_files, owned_files};
ghost use Rattle.cq_projects.specs.Edits.{replaced_by, owned_position, HaveSameFiles, HaveSameConditions, IsNewer, EditsProjectFiles, EditsProjectConditions, EditsOwnerFiles, EditsOwnerConditions, IsReplacedInOwned, EditsOwnedFiles, EditsOwnedConditions};

use crate::held::{Held, Project};
use crate::project_files::ProjectFiles;
use cq_base::{Conditions, Memory, Text};
use std::alloc::Global;
use std::cmp::Ordering;
use std::sync::Arc;

/// What a change makes of its project.
#[derive(Drop)]
pub enum ProjectEdit<W> {
    Put(Arc<Held<W>, Global>),
    Drop(Arc<Text, Global>),
    Gate(Arc<Conditions, Global>),
}

// How the project's name compares, byte by byte.
fn compare<W>(project: &Arc<Project<W>, Global>, name: &Text) -> Ordering
    ensures { result ≡ slice_cmp nat_cmp (owner_name project.now) name.now }
{
    project.name.as_bytes().cmp(name.as_bytes())
}

/// Where the project is among others in the order of their names, or where it belongs.
pub fn find_project<W>(projects: &[Arc<Project<W>, Global>], name: &Text) -> Result<usize, usize>
    requires { AreRising owner_name projects.now }
    ensures found { IfOk result (IsAt owner_name name.now projects.now) }
    ensures gap { IfErr result (IsGap owner_name name.now projects.now) }
{
    projects.binary_search_by(|project| compare(project, name))
}

/// A copy of a project, which shares its files.
pub(crate) fn copied<W: Drop>(alloc: Global, project: &Project<W>) -> Result<Project<W>, Memory>
    ensures { IfOk result (λ p. p ≡ project.now) }
{
    let name = Arc::try_clone(&project.name)?;
    let files = project.files.copied(alloc)?;
    let conditions = match &project.conditions {
        Some(conditions) => Some(Arc::try_clone(conditions)?),
        None => None,
    };
    Ok(Project {
        name,
        files,
        conditions,
    })
}

// Edits a project, and answers the change whose file it replaced or dropped, if there was one.
fn edit_own<W: Drop>(project: &mut Project<W>, edit: ProjectEdit<W>) -> Result<Option<u64>, Memory>
    requires newer { IsNewer edit project.old.files }
    ensures name { project.new.name ≡ project.old.name }
    ensures files { OnOk result (EditsProjectFiles edit project.old project.new) }
    ensures conditions { OnOk result (EditsProjectConditions edit project.old project.new) }
    ensures number { IfOk result (λ n. n ≡ replaced_by edit project.old.files) }
    ensures unchanged { OnErr result (project.new ≡ project.old) }
{
    match edit {
        ProjectEdit::Put(held) => project.files.put(held),
        ProjectEdit::Drop(path) => Ok(project.files.remove(&path)),
        ProjectEdit::Gate(conditions) => {
            project.conditions = Some(conditions);
            Ok(None)
        }
    }
}

// Edits a project in place if nobody else holds it, else a copy that takes its place.
fn edit_shared<W: Drop>(
    alloc: Global,
    project: &mut Arc<Project<W>, Global>,
    edit: ProjectEdit<W>,
) -> Result<Option<u64>, Memory>
    requires newer { IsNewer edit (owner_files project.old) }
    ensures name { owner_name project.new ≡ owner_name project.old }
    ensures files { OnOk result (EditsOwnerFiles edit project.old project.new) }
    ensures conditions { OnOk result (EditsOwnerConditions edit project.old project.new) }
    ensures number { IfOk result (λ n. n ≡ replaced_by edit (owner_files project.old)) }
    ensures unchanged { OnErr result (arc_value project.new ≡ arc_value project.old) }
{
    match Arc::get_mut(project) {
        Some(own) => edit_own(own, edit),
        None => {
            let mut own = copied(alloc, project)?;
            let replaced = edit_own(&mut own, edit)?;
            *project = Arc::new(alloc, own)?;
            Ok(replaced)
        }
    }
}

// The index of the project of this name, which is added if it is not there.
fn project_at<W: Drop>(
    alloc: Global,
    projects: &mut Vec<Arc<Project<W>, Global>>,
    name: &Arc<Text, Global>,
) -> Result<usize, Memory>
    requires { AreRising owner_name projects.old.items }
    ensures names { AreRising owner_name projects.new.items }
    ensures first { IfOk result (λ i. i ≡ owned_position (arc_value name.now) projects.new.items) }
    ensures within { IfOk result (λ i. i < length projects.new.items) }
    ensures files { HaveSameFiles projects.old.items projects.new.items }
    ensures conditions { HaveSameConditions projects.old.items projects.new.items }
{
    match find_project(projects, name) {
        Ok(i) => Ok(i),
        Err(i) => {
            let name = Arc::try_clone(name)?;
            let project = Arc::new(
                alloc,
                Project {
                    name,
                    files: ProjectFiles::new(alloc),
                    conditions: None,
                },
            )?;
            projects.insert(i, project)?;
            Ok(i)
        }
    }
}

/// Edits the project of a name, and answers the change whose file it replaced or dropped, if there was one. It costs a
/// search among the projects, one among its files, and a move in that list; if someone else holds the project, a copy
/// of that list, with an owner for each file. If memory is refused, all have the files and conditions that they had.
pub fn edit_in<W: Drop>(
    alloc: Global,
    projects: &mut Vec<Arc<Project<W>, Global>>,
    name: &Arc<Text, Global>,
    edit: ProjectEdit<W>,
) -> Result<Option<u64>, Memory>
    requires names { AreRising owner_name projects.old.items }
    requires newer { IsNewer edit (owned_files projects.old.items (arc_value name.now)) }
    ensures names { AreRising owner_name projects.new.items }
    ensures number { IfOk result (IsReplacedInOwned edit (arc_value name.now) projects.old.items) }
    ensures files { OnOk result
        (EditsOwnedFiles (arc_value name.now) edit projects.old.items projects.new.items) }
    ensures conditions { OnOk result
        (EditsOwnedConditions (arc_value name.now) edit projects.old.items projects.new.items) }
    ensures same_files { OnErr result (HaveSameFiles projects.old.items projects.new.items) }
    ensures same_conditions { OnErr result
        (HaveSameConditions projects.old.items projects.new.items) }
{
    let i = project_at(alloc, projects, name)?;
    edit_shared(alloc, &mut projects[i], edit)
}
