//! The next listing while a batch of changes is gathered: what is to be at each path that the batch names is kept
//! beside each project, and put into its list at once, in path order.
ghost use Rattle.std.specs.Prelude.{◌≡◌, ◌<◌, All, length, map, option_map, IfOk, IfErr, OnOk};
ghost use Rattle.std.specs.Arc.{arc_value};
ghost use Rattle.std.specs.Ordering.{nat_cmp};
ghost use Rattle.std.specs.Cmp.Lexicographic.{slice_cmp};
ghost use Rattle.cq_projects.specs.Drafts.{IsOwn, IsSetAt, IsRevised, IsOwnerRevised, number_in, edited_named, files_at, AreOwn, AreCut};
ghost use Rattle.cq_projects.specs.Spotted.{AreApart, AreApartIn};
ghost use Rattle.cq_projects.specs.Edits.{replaced_by, SameFilesByName, SameConditionsByName, EditsProjectFiles, EditsProjectConditions, IsReplacedIn, EditsFiles, EditsConditions};
ghost use Rattle.cq_history.specs.Files.{number_at};
ghost use Rattle.cq_projects.specs.Projects.{name_in, position_of, owner_files};
ghost use Rattle.cq_projects.specs.Ordered.{AreRising, IsAt, IsGap};

use crate::files::Cut;
use crate::held::{Held, Project};
use crate::merging::Named;
use crate::project_files::ProjectFiles;
use crate::projects::{ProjectEdit, copied};
use cq_base::{Conditions, Memory, Text};
use std::alloc::Global;
use std::cmp::Ordering;
use std::collections::BTreeMap;
use std::marker::Model;
use std::sync::Arc;

/// A project of the next listing: what it was, the file that is to be at each path that the batch names (none if its
/// last change there drops it), and the conditions if the batch sets them.
#[derive(Drop)]
pub struct Draft<W> {
    project: Arc<Project<W>, Global>,
    paths: BTreeMap<Arc<Text, Global>, Named<W>>,
    conditions: Option<Arc<Conditions, Global>>,
}

impl<W> Model for Draft<W> {
    ghost use Rattle.std.specs.Prelude.{option_map, unwrap_or};
    ghost use Rattle.std.specs.Arc.{arc_value};
    ghost use Rattle.cq_projects.specs.Drafts.{edited_named, files_at, AreOwn, AreCut};
    ghost use Rattle.cq_projects.specs.Projects.{ListedProject};

    ghost Value = { ListedProject W };

    ghost view = { λ d. record { name = (arc_value d.project).name; files = edited_named d.paths.entries (arc_value d.project).files; conditions = unwrap_or (option_map arc_value d.conditions) (arc_value d.project).conditions } };

    ghost invariant = { λ d. AreCut (arc_value d.project).files d.paths.entries × AreOwn (files_at d.paths.entries) };
}

impl<W: Drop> Draft<W> {
    // The draft of a project that did not change yet.
    fn of(alloc: Global, project: Arc<Project<W>, Global>) -> Draft<W>
        ensures { result ≡ arc_value project }
    {
        Draft {
            project,
            paths: BTreeMap::new(alloc),
            conditions: None,
        }
    }

    // Sets what is at a path, and answers the change whose file that replaces or drops, if there was one.
    fn set(
        &mut self,
        path: Arc<Text, Global>,
        file: Option<Arc<Held<W>, Global>>,
    ) -> Result<Option<u64>, Memory>
        requires { IsOwn (arc_value path) file }
        ensures set { OnOk result (IsSetAt (arc_value path) file self.old self.new) }
        ensures number { IfOk result (λ n. n ≡ number_at (arc_value path) self.old.files) }
    {
        let Cut {
            before,
            behind,
            change,
        } = self.project.files.cut_at(&path);
        let named = Named {
            before,
            behind,
            file,
        };
        match self.paths.insert(path, named)? {
            Some(replaced) => Ok(change_in(replaced.file)),
            None => Ok(change),
        }
    }

    // Edits it, and answers the change whose file that replaces or drops, if there was one.
    fn edit(&mut self, edit: ProjectEdit<W>) -> Result<Option<u64>, Memory>
        ensures name { OnOk result (self.new.name ≡ self.old.name) }
        ensures files { OnOk result (EditsProjectFiles edit self.old self.new) }
        ensures conditions { OnOk result (EditsProjectConditions edit self.old self.new) }
        ensures number { IfOk result (λ n. n ≡ replaced_by edit self.old.files) }
    {
        match edit {
            ProjectEdit::Put(held) => {
                let path = Arc::try_clone(&held.path)?;
                self.set(path, Some(held))
            }
            ProjectEdit::Drop(path) => self.set(path, None),
            ProjectEdit::Gate(conditions) => {
                self.conditions = Some(conditions);
                Ok(None)
            }
        }
    }

    // The project with what the batch makes of it: the same one if it changes nothing. If nobody else holds it, it is
    // changed in place.
    fn finished(self, alloc: Global) -> Result<Arc<Project<W>, Global>, Memory>
        requires apart { AreApart self }
        ensures { IfOk result (λ project. arc_value project ≡ self) }
    {
        let Draft {
            mut project,
            paths,
            conditions,
        } = self;
        if paths.is_empty() && conditions.is_none() {
            return Ok(project);
        }
        revise_shared(alloc, &mut project, paths, conditions)?;
        Ok(project)
    }
}

// Revises a project: the files at some paths, and the conditions if there are any. If memory is refused, it has no files.
fn revise<W: Drop>(
    alloc: Global,
    project: &mut Project<W>,
    paths: BTreeMap<Arc<Text, Global>, Named<W>>,
    conditions: Option<Arc<Conditions, Global>>,
) -> Result<(), Memory>
    requires cut { AreCut project.old.files paths.entries }
    requires own { AreOwn (files_at paths.entries) }
    requires apart { AreApartIn (edited_named paths.entries project.old.files) }
    ensures { OnOk result (IsRevised paths.entries conditions project.old project.new) }
{
    project.files.merge(alloc, paths)?;
    if conditions.is_some() {
        project.conditions = conditions;
    }
    Ok(())
}

// Revises a project in place if nobody else holds it, else a copy that takes its place.
fn revise_shared<W: Drop>(
    alloc: Global,
    project: &mut Arc<Project<W>, Global>,
    paths: BTreeMap<Arc<Text, Global>, Named<W>>,
    conditions: Option<Arc<Conditions, Global>>,
) -> Result<(), Memory>
    requires cut { AreCut (owner_files project.old) paths.entries }
    requires own { AreOwn (files_at paths.entries) }
    requires apart { AreApartIn (edited_named paths.entries (owner_files project.old)) }
    ensures { OnOk result (IsOwnerRevised paths.entries conditions project.old project.new) }
{
    match Arc::get_mut(project) {
        Some(own) => revise(alloc, own, paths, conditions),
        None => {
            let mut own = copied(alloc, project)?;
            revise(alloc, &mut own, paths, conditions)?;
            *project = Arc::new(alloc, own)?;
            Ok(())
        }
    }
}

// The change that put a file, if there is one.
fn change_in<W: Drop>(file: Option<Arc<Held<W>, Global>>) -> Option<u64>
    ensures { result ≡ option_map number_in file }
{
    match file {
        Some(held) => Some(held.change),
        None => None,
    }
}

/// The drafts of projects that did not change yet, an owner more for each project.
pub fn drafts_of<W: Drop>(
    alloc: Global,
    projects: &[Arc<Project<W>, Global>],
) -> Result<Vec<Draft<W>>, Memory>
    ensures { IfOk result (λ drafts. drafts.items ≡ map arc_value projects.now) }
{
    let mut drafts = Vec::with_capacity(alloc, projects.len())?;
    for project in projects {
        let project = Arc::try_clone(project)?;
        drafts.push(Draft::of(alloc, project))?;
    }
    Ok(drafts)
}

/// The drafts of projects. Their owners are given up, so a project that nobody else holds is changed in place.
pub fn own_drafts<W: Drop>(
    alloc: Global,
    projects: Vec<Arc<Project<W>, Global>>,
) -> Result<Vec<Draft<W>>, Memory>
    ensures { IfOk result (λ drafts. drafts.items ≡ map arc_value projects.items) }
{
    let mut drafts = Vec::with_capacity(alloc, projects.len())?;
    for project in projects {
        drafts.push(Draft::of(alloc, project))?;
    }
    Ok(drafts)
}

/// The projects with what the batch makes of them. One that nobody else has is changed in place: its owners of files are
/// moved. Of one that somebody else has a list is made, with an owner more for each file.
pub fn finished_all<W: Drop>(
    alloc: Global,
    drafts: Vec<Draft<W>>,
) -> Result<Vec<Arc<Project<W>, Global>>, Memory>
    requires apart { All AreApart drafts.items }
    ensures { IfOk result (λ projects. map arc_value projects.items ≡ drafts.items) }
{
    let mut projects = Vec::with_capacity(alloc, drafts.len())?;
    for draft in drafts {
        projects.push(draft.finished(alloc)?)?;
    }
    Ok(projects)
}

// How the draft's name compares, byte by byte.
fn compare<W>(draft: &Draft<W>, name: &Text) -> Ordering
    ensures { result ≡ slice_cmp nat_cmp (name_in draft.now) name.now }
{
    draft.project.name.as_bytes().cmp(name.as_bytes())
}

// Where the draft is among others in the order of their names, or where it belongs.
fn find<W>(drafts: &[Draft<W>], name: &Text) -> Result<usize, usize>
    requires { AreRising name_in drafts.now }
    ensures found { IfOk result (IsAt name_in name.now drafts.now) }
    ensures gap { IfErr result (IsGap name_in name.now drafts.now) }
{
    drafts.binary_search_by(|draft| compare(draft, name))
}

// The index of the draft of this name, which is added if it is not there.
fn draft_at<W: Drop>(
    alloc: Global,
    drafts: &mut Vec<Draft<W>>,
    name: &Arc<Text, Global>,
) -> Result<usize, Memory>
    requires { AreRising name_in drafts.old.items }
    ensures names { AreRising name_in drafts.new.items }
    ensures first { IfOk result (λ i. i ≡ position_of (arc_value name.now) drafts.new.items) }
    ensures within { IfOk result (λ i. i < length drafts.new.items) }
    ensures files { SameFilesByName drafts.old.items drafts.new.items }
    ensures conditions { SameConditionsByName drafts.old.items drafts.new.items }
{
    match find(drafts, name) {
        Ok(i) => Ok(i),
        Err(i) => {
            let name = Arc::try_clone(name)?;
            let project = Arc::new(
                alloc,
                Project {
                    name,
                    files: ProjectFiles::new(alloc),
                    conditions: None,
                },
            )?;
            drafts.insert(i, Draft::of(alloc, project))?;
            Ok(i)
        }
    }
}

/// Edits the draft of a name, and answers the change whose file that replaces or drops, if there was one. It costs a
/// search among the drafts, one among the project's files, and one among the paths that the batch names.
pub fn edit_draft<W: Drop>(
    alloc: Global,
    drafts: &mut Vec<Draft<W>>,
    name: &Arc<Text, Global>,
    edit: ProjectEdit<W>,
) -> Result<Option<u64>, Memory>
    requires { AreRising name_in drafts.old.items }
    ensures names { OnOk result (AreRising name_in drafts.new.items) }
    ensures number { IfOk result (IsReplacedIn edit (arc_value name.now) drafts.old.items) }
    ensures files { OnOk result
        (EditsFiles (arc_value name.now) edit drafts.old.items drafts.new.items) }
    ensures conditions { OnOk result
        (EditsConditions (arc_value name.now) edit drafts.old.items drafts.new.items) }
{
    let i = draft_at(alloc, drafts, name)?;
    drafts[i].edit(edit)
}
