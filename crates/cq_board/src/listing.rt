ghost use Rattle.std.specs.Prelude.{◌≡◌, ◌⊎◌, ◌+◌, ◌≤◌, [], IfOk, OnOk, OnErr, IfSome, IsNone, true, map, length};
ghost use Rattle.std.specs.Arc.{arc_value};
ghost use Rattle.std.specs.List.{prefix_len};
ghost use Rattle.cq_history.specs.State.{is_done};
ghost use Rattle.cq_kept.specs.Accepted.{Holds, HoldsNoneBetween, IsNextHeld};
ghost use Rattle.cq_kept.specs.Slots.{slot_from, slot_at, IsWorked};
ghost use Rattle.cq_board.specs.Boards.{ListsVersion, OwnsVersion};
ghost use Rattle.cq_board.specs.Listings.{ListsTheSame, listed};
ghost use Rattle.cq_projects.specs.Projects.{files_in, conditions_in};
ghost use Rattle.cq_board.specs.Turnover.{IsListingBefore, ListsKept};

use crate::editing::{apply_change, draft_change, put_number};
use crate::live::{Turnover, note, turn, turn_one};
use cq_base::{Condition, Memory, Settings, Text};
use cq_kept::{Changes, Kept};
use cq_projects::{
    Draft, Held, Project, ProjectFiles, drafts_of, find_project, finished_all, own_drafts,
};
use cq_shard::Indexed;
use std::alloc::Global;
use std::marker::Model;
use std::mem;
use std::sync::Arc;

/// The files and conditions of all projects at one version. Projects that did not change are shared with the version
/// before.
#[derive(Drop)]
pub struct Listing<W> {
    projects: Vec<Arc<Project<W>, Global>>,
    live: Vec<u64>,
    // What is lent of a project that has none.
    no_files: ProjectFiles<W>,
}

impl<W> Model for Listing<W> {
    ghost use Rattle.std.specs.Prelude.{◌≡◌, [], map};
    ghost use Rattle.std.specs.Arc.{arc_value};
    ghost use Rattle.cq_projects.specs.Ordered.{AreRising};
    ghost use Rattle.cq_board.specs.Listings.{Listed};
    ghost use Rattle.cq_projects.specs.Projects.{owner_name};

    ghost Value = { Listed W };

    ghost view = { λ l. record { projects = map arc_value l.projects.items; live = l.live.items } };

    ghost invariant = { λ l. AreRising owner_name l.projects.items × (l.no_files ≡ []) };
}

impl<W> Listing<W> {
    /// A listing of no project.
    pub(crate) fn new(alloc: Global) -> Listing<W>
        ensures { result ≡ record { projects = []; live = [] } }
    {
        Listing {
            projects: Vec::new(alloc),
            live: Vec::new(alloc),
            no_files: ProjectFiles::new(alloc),
        }
    }

    /// The files of a project, none if it has none. It costs a search among the projects.
    pub fn project(&self, name: &Text) -> &ProjectFiles<W>
        ensures { result.now ≡ files_in self.now.projects name.now }
    {
        match find_project(&self.projects, name) {
            Ok(i) => &self.projects[i].files,
            Err(_) => &self.no_files,
        }
    }

    /// The files of a project in path order, none if it has none. It costs a search among the projects.
    pub fn files(&self, project: &Text) -> &[Arc<Held<W>, Global>]
        ensures { map arc_value result.now ≡ files_in self.now.projects project.now }
    {
        match find_project(&self.projects, project) {
            Ok(i) => self.projects[i].files.items(),
            Err(_) => &[],
        }
    }

    /// The conditions of a project's last gate, none before its first. It costs a search among the projects.
    pub fn conditions(&self, project: &Text) -> &[Condition]
        ensures { result.now ≡ conditions_in self.now.projects project.now }
    {
        match find_project(&self.projects, project) {
            Ok(i) => match &self.projects[i].conditions {
                Some(conditions) => conditions.as_slice(),
                None => &[],
            },
            Err(_) => &[],
        }
    }

    /// The numbers of the changes that put the files of all projects, in order.
    pub fn live(&self) -> &[u64]
        ensures { result.now ≡ self.now.live }
    {
        &self.live
    }
}

/// A version that a caller has open.
#[derive(Drop)]
pub struct View<W> {
    pub version: u64,
    pub listing: Arc<Listing<W>, Global>,
}

// A change that is kept.
fn kept_at<W: Indexed>(changes: &Changes<W>, number: u64) -> &Kept<W>
    requires { Holds changes.now number }
    ensures slot { slot_from result.now ≡ slot_at changes.now.slots number }
    ensures work { IsWorked (W.IsWorkOf changes.now.settings) result.now }
{
    match changes.get(number) {
        Some(kept) => kept,
        None => unreachable!(),
    }
}

// The next change that is kept after a number, up to a version, and its own number.
fn next_up_to<W: Indexed>(changes: &Changes<W>, after: u64, version: u64) -> Option<(u64, &Kept<W>)>
    requires { after ≤ length changes.now.slots }
    ensures next { IfSome result (λ p. IsNextHeld changes.now after p.0) }
    ensures within { IfSome result (λ p. p.0 ≤ version) }
    ensures slot { IfSome result (λ p. slot_from p.1.now ≡ slot_at changes.now.slots p.0) }
    ensures work { IfSome result (λ p. IsWorked (W.IsWorkOf changes.now.settings) p.1.now) }
    ensures none { IsNone result → HoldsNoneBetween changes.now after version }
{
    match changes.next(after) {
        Some((number, kept)) => {
            if number <= version {
                Some((number, kept))
            } else {
                None
            }
        }
        None => None,
    }
}

// The listing of a later version, from the drafts of an earlier one's projects and its live numbers. If that is version 0,
// only the kept changes leave the same.
fn next_listing<W: Indexed>(
    alloc: Global,
    changes: &Changes<W>,
    mut drafts: Vec<Draft<W>>,
    mut live: Vec<u64>,
    before: u64,
    version: u64,
) -> Result<Listing<W>, Memory>
    requires order { before ≤ version }
    requires from { (changes.now.floor ≤ before) ⊎ (before ≡ 0) }
    requires floor { changes.now.floor ≤ version }
    requires done { version ≤ prefix_len is_done changes.now.slots }
    requires listing { ListsVersion W.IsWorkOf changes.now before (listed drafts.items live.items) }
    ensures { IfOk result (ListsVersion W.IsWorkOf changes.now version) }
{
    let mut turnover = Turnover::new(alloc);
    let mut at = before;
    while let Some((number, kept)) = next_up_to(changes, at, version) {
        let replaced = draft_change(alloc, changes.settings(), &mut drafts, number, kept)?;
        note(&mut turnover.put, put_number(&kept.change, number))?;
        note(&mut turnover.gone, replaced)?;
        at = number;
    }
    let projects = finished_all(alloc, drafts)?;
    turn(&mut live, turnover)?;
    Ok(Listing {
        projects,
        live,
        no_files: ProjectFiles::new(alloc),
    })
}

// The listing with one change more, which is the one with the next number and done. Nothing of it is copied that nobody
// else has. If memory is refused, it is that of as many changes as before.
fn advance_own<W: Indexed>(
    alloc: Global,
    settings: &Settings,
    own: &mut Listing<W>,
    number: u64,
    kept: &Kept<W>,
) -> Result<(), Memory>
    requires done { is_done (slot_from kept.now) ≡ true }
    requires work { IsWorked (W.IsWorkOf settings.now) kept.now }
    requires listing { IsListingBefore (W.IsWorkOf settings.now) number own.old }
    ensures next { OnOk result
        (ListsKept (W.IsWorkOf settings.now) number kept.now own.old own.new) }
    ensures unchanged { OnErr result (ListsTheSame (W.IsWorkOf settings.now) own.old own.new) }
{
    own.live.reserve(1)?;
    let replaced = apply_change(alloc, settings, &mut own.projects, number, kept)?;
    turn_one(&mut own.live, put_number(&kept.change, number), replaced);
    Ok(())
}

// The listing of a later version, whose projects and numbers are those of an earlier one: they are given up. What of them
// nobody else has is changed in place.
fn advanced<W: Indexed>(
    alloc: Global,
    changes: &Changes<W>,
    old: Listing<W>,
    before: u64,
    version: u64,
) -> Result<Listing<W>, Memory>
    requires order { before ≤ version }
    requires from { (changes.now.floor ≤ before) ⊎ (before ≡ 0) }
    requires floor { changes.now.floor ≤ version }
    requires done { version ≤ prefix_len is_done changes.now.slots }
    requires listing { ListsVersion W.IsWorkOf changes.now before old }
    ensures { IfOk result (ListsVersion W.IsWorkOf changes.now version) }
{
    let Listing {
        projects,
        live,
        no_files: _no_files,
    } = old;
    let drafts = own_drafts(alloc, projects)?;
    next_listing(alloc, changes, drafts, live, before, version)
}

// The listing of a later version beside an earlier one that stays, with an owner more for each project, and for each
// project that changed a copy of its list of files.
fn advanced_copy<W: Indexed>(
    alloc: Global,
    changes: &Changes<W>,
    old: &Listing<W>,
    before: u64,
    version: u64,
) -> Result<Listing<W>, Memory>
    requires order { before ≤ version }
    requires from { (changes.now.floor ≤ before) ⊎ (before ≡ 0) }
    requires floor { changes.now.floor ≤ version }
    requires done { version ≤ prefix_len is_done changes.now.slots }
    requires listing { ListsVersion W.IsWorkOf changes.now before old.now }
    ensures { IfOk result (ListsVersion W.IsWorkOf changes.now version) }
{
    let drafts = drafts_of(alloc, &old.projects)?;
    let live = Vec::from_slice(alloc, &old.live)?;
    next_listing(alloc, changes, drafts, live, before, version)
}

// Makes a listing that nobody else has that of a later version. If memory is refused, it is that of version 0.
fn advance_all<W: Indexed>(
    alloc: Global,
    changes: &Changes<W>,
    own: &mut Listing<W>,
    before: u64,
    version: u64,
) -> Result<(), Memory>
    requires order { before ≤ version }
    requires from { (changes.now.floor ≤ before) ⊎ (before ≡ 0) }
    requires floor { changes.now.floor ≤ version }
    requires done { version ≤ prefix_len is_done changes.now.slots }
    requires listing { ListsVersion W.IsWorkOf changes.now before own.old }
    ensures next { OnOk result (ListsVersion W.IsWorkOf changes.now version own.new) }
    ensures emptied { OnErr result (own.new ≡ listed [] []) }
{
    let old = mem::replace(own, Listing::new(alloc));
    *own = advanced(alloc, changes, old, before, version)?;
    Ok(())
}

// Makes the listing that of a later version, beside the earlier one, which somebody else has.
fn advance_copied<W: Indexed>(
    alloc: Global,
    changes: &Changes<W>,
    listing: &mut Arc<Listing<W>, Global>,
    before: u64,
    version: u64,
) -> Result<(), Memory>
    requires order { before ≤ version }
    requires from { (changes.now.floor ≤ before) ⊎ (before ≡ 0) }
    requires floor { changes.now.floor ≤ version }
    requires done { version ≤ prefix_len is_done changes.now.slots }
    requires listing { OwnsVersion W.IsWorkOf changes.now before listing.old }
    ensures next { OnOk result (OwnsVersion W.IsWorkOf changes.now version listing.new) }
    ensures unchanged { OnErr result (OwnsVersion W.IsWorkOf changes.now before listing.new) }
{
    let own = advanced_copy(alloc, changes, listing, before, version)?;
    *listing = Arc::new(alloc, own)?;
    Ok(())
}

// Makes the listing that of a later version, in place if nobody else has it. If memory is refused, it is that of the
// version that is returned then.
fn advance_many<W: Indexed>(
    alloc: Global,
    changes: &Changes<W>,
    listing: &mut Arc<Listing<W>, Global>,
    at: &mut u64,
    version: u64,
) -> Result<(), Memory>
    requires order { at.old ≤ version }
    requires from { (changes.now.floor ≤ at.old) ⊎ (at.old ≡ 0) }
    requires floor { changes.now.floor ≤ version }
    requires done { version ≤ prefix_len is_done changes.now.slots }
    requires listing { OwnsVersion W.IsWorkOf changes.now at.old listing.old }
    ensures listing { OwnsVersion W.IsWorkOf changes.now at.new listing.new }
    ensures next { OnOk result (at.new ≡ version) }
    ensures back { OnErr result ((at.new ≡ at.old) ⊎ (at.new ≡ 0)) }
{
    match Arc::get_mut(listing) {
        Some(own) => {
            let before = *at;
            *at = 0;
            advance_all(alloc, changes, own, before, version)?;
            *at = version;
            Ok(())
        }
        None => {
            advance_copied(alloc, changes, listing, *at, version)?;
            *at = version;
            Ok(())
        }
    }
}

// The listing of the next version, which is above the floor, made in place if nobody else has it.
fn advance_one<W: Indexed>(
    alloc: Global,
    changes: &Changes<W>,
    listing: &mut Arc<Listing<W>, Global>,
    before: u64,
    version: u64,
) -> Result<(), Memory>
    requires one { before + 1 ≡ version }
    requires behind { changes.now.floor ≤ before }
    requires done { version ≤ prefix_len is_done changes.now.slots }
    requires listing { OwnsVersion W.IsWorkOf changes.now before listing.old }
    ensures next { OnOk result (OwnsVersion W.IsWorkOf changes.now version listing.new) }
    ensures unchanged { OnErr result (OwnsVersion W.IsWorkOf changes.now before listing.new) }
{
    match Arc::get_mut(listing) {
        Some(own) => advance_own(
            alloc,
            changes.settings(),
            own,
            version,
            kept_at(changes, version),
        ),
        None => advance_copied(alloc, changes, listing, before, version),
    }
}

/// Makes the listing that of a version at or past the one that it is of, and returns which it is of then. What nobody else
/// has of it is changed in place: a single change costs a search and a move, several move the files of each project that
/// they change once. Of what somebody else has a copy is made first, with an owner for each project, and for each file of a
/// project that changed. If memory is refused, it is that of the version before, or of version 0, from which it is made again
/// of what is kept.
pub fn advance_to<W: Indexed>(
    alloc: Global,
    changes: &Changes<W>,
    listing: &mut Arc<Listing<W>, Global>,
    at: &mut u64,
    version: u64,
) -> Result<(), Memory>
    requires order { at.old ≤ version }
    requires from { (changes.now.floor ≤ at.old) ⊎ (at.old ≡ 0) }
    requires floor { changes.now.floor ≤ version }
    requires done { version ≤ prefix_len is_done changes.now.slots }
    requires listing { OwnsVersion W.IsWorkOf changes.now at.old listing.old }
    ensures listing { OwnsVersion W.IsWorkOf changes.now at.new listing.new }
    ensures next { OnOk result (at.new ≡ version) }
    ensures back { OnErr result ((at.new ≡ at.old) ⊎ (at.new ≡ 0)) }
{
    if *at == version {
        return Ok(());
    }
    if version - *at == 1 && changes.floor() <= *at {
        advance_one(alloc, changes, listing, *at, version)?;
        *at = version;
        return Ok(());
    }
    advance_many(alloc, changes, listing, at, version)
}
