ghost use Rattle.std.specs.Prelude.{◌≡◌, ◌+◌, ◌<◌, ◌≤◌, [], length, OnOk, IfOk, OnErr, IfSome, None, IsSome, IsTrue, IsNone, false, ◌↔◌, take, fold, replicate};
ghost use Rattle.cq_history.specs.declared.event.Event.TheVariants as event;
ghost use Rattle.std.specs.Bool.{OnTrue, OnFalse};
ghost use Rattle.cq_history.specs.State.{first_free, ready, view_of, IsAccepted, IsDone, IsUndone};
ghost use Rattle.cq_board.specs.Stands.{BoardState, StandsFor, Adds, IsCaller};
ghost use Rattle.cq_board.specs.Answers.{asked_of, greatest_floor, lower, IsJob, IsKeptWork, IsViewOf, TellsCause};
ghost use Rattle.cq_board.specs.Calls.{AddsTaking, Allows, HasTaken, IsFirstJob, IsJobAt, IsWorkOn, KeepsPuts, ShowsFewConditions, TellsFree};
ghost use Rattle.cq_base.specs.Changes.{IsSoundChange};
ghost use Rattle.cq_board.specs.Sound.{HasSoundText};

use crate::free::{FreeChanges, first_free, note_given_back, note_taken, pass_over};
use crate::keep::Keep;
use crate::listing::{Listing, View, advance_to};
use crate::refusing::refusal;
use crate::undone::{is_taken_by, job_at, job_of, note_undone, ready_of, undone_at, work_at};
use crate::{Asked, Finished, Job, Refused};
use cq_base::{Change, Memory, Settings};
use cq_kept::{Changes, stored};
use cq_shard::Indexed;
use std::alloc::Global;
use std::collections::BTreeSet;
use std::marker::Model;
use std::sync::Arc;

/// The accepted changes and what became of them.
#[derive(Drop)]
pub struct Board<W: Indexed> {
    changes: Changes<W>,
    // The indexes of the changes that are not done.
    undone: BTreeSet<u64>,
    free: FreeChanges,
    published: u64,
    // The version that the listing is of: the published one, or 0 if memory was refused while it was changed.
    listed: u64,
    views: Vec<Option<u64>>,
    listing: Arc<Listing<W>, Global>,
    events: u64,
}

impl<W: Indexed> Model for Board<W> {
    ghost use Rattle.cq_board.specs.Stands.{BoardState};

    ghost Value = { BoardState };

    ghost use Rattle.std.specs.Arc.{arc_value};
    ghost use Rattle.cq_board.specs.Boards.{BoardOk};
    ghost use Rattle.cq_kept.specs.Slots.{state_from};

    ghost view = { λ b. record { settings = b.changes.settings; state = state_from b.changes.slots b.published b.changes.floor b.views.items; events = b.events } };

    ghost invariant = { λ b. BoardOk (W.IsWorkOf b.changes.settings) b.changes b.undone b.free b.published b.listed (arc_value b.listing) b.views.items };
}

impl<W: Indexed> Board<W> {
    /// A board for so many callers, before any event. It takes memory for their views, for an empty listing, and 8 bytes for
    /// each change that may be kept.
    pub fn new(alloc: Global, settings: &Settings, callers: u32) -> Result<Board<W>, Memory>
        ensures stands { IfOk result (StandsFor []) }
        ensures settings { IfOk result (λ b. b.settings ≡ settings.now) }
        ensures callers { IfOk result (λ b. length b.state.views ≡ callers) }
    {
        let views = no_views(alloc, callers)?;
        let listing = Arc::new(alloc, Listing::new(alloc))?;
        let free = FreeChanges::new(alloc, settings.change_limit as usize)?;
        Ok(Board {
            changes: Changes::new(alloc, settings),
            undone: BTreeSet::new(alloc),
            free,
            published: 0,
            listed: 0,
            views,
            listing,
            events: 0,
        })
    }

    /// The job of a change, for anybody who helps; none if the change is done.
    pub fn job(&self, change: u64) -> Result<Option<Job>, Memory>
        requires { IsAccepted self.now.state change }
        ensures none { IfOk result (λ job. IsNone job ↔ IsDone self.now.state change) }
        ensures job { IfOk result (λ job. IfSome job (IsJobAt self.now.state change)) }
        ensures text { IfOk result (λ job. IfSome job HasSoundText) }
    {
        match undone_at(&self.changes, change) {
            Some(kept) => Ok(Some(job_of(change, &kept.change)?)),
            None => Ok(None),
        }
    }

    /// Whether a change is accepted and not done.
    pub fn is_undone(&self, change: u64) -> bool
        ensures { IsTrue result ↔ IsUndone self.now.state change }
    {
        undone_at(&self.changes, change).is_some()
    }

    /// The work of a done put that the floor keeps, and None for any other number.
    pub fn finished_work(&self, change: u64) -> Result<Option<Arc<W, Global>>, Memory>
        ensures some { IfOk result (λ work. IsSome work ↔ IsKeptWork self.now.state change) }
        ensures work { IfOk result (λ work. IfSome work (IsWorkOn W.IsWorkOf self.now change)) }
    {
        match work_at(&self.changes, change) {
            Some(work) => Ok(Some(Arc::try_clone(work)?)),
            None => Ok(None),
        }
    }

    /// The settings that it was made with.
    pub fn settings(&self) -> &Settings
        ensures { result.now ≡ self.now.settings }
    {
        self.changes.settings()
    }

    /// How many callers it has.
    pub fn callers(&self) -> u32
        ensures { result ≡ length self.now.state.views }
    {
        self.views.len() as u32
    }

    /// Up to which change all are done.
    pub fn ready(&self) -> u64
        ensures { result ≡ ready self.now.state }
    {
        ready_of(&self.changes, &self.undone)
    }

    /// How many events there were, modulo 2^64.
    pub fn events(&self) -> u64
        ensures { result ≡ self.now.events }
    {
        self.events
    }

    /// The last published version.
    pub fn published(&self) -> u64
        ensures { result ≡ self.now.state.published }
    {
        self.published
    }

    /// The last floor.
    pub fn floor(&self) -> u64
        ensures { result ≡ self.now.state.floor }
    {
        self.changes.floor()
    }

    /// The greatest floor that there may be: the least of the last published version and each open view's. It looks at
    /// each caller's view.
    pub fn greatest_floor(&self) -> u64
        ensures { result ≡ greatest_floor self.now.state }
    {
        least(self.published, &self.views)
    }

    /// The puts up to the floor that it keeps, ascending. If the floor is the last published version they are those of
    /// its listing, and cost an owner of it. Else, and if memory was refused in the middle of the last publication,
    /// they are listed by a look at each change that it keeps up to there.
    pub fn keep(&self, alloc: Global) -> Result<Keep<W>, Memory>
        ensures { IfOk result (KeepsPuts self.now.state) }
    {
        let floor = self.changes.floor();
        if self.listed == floor {
            let listing = Arc::try_clone(&self.listing)?;
            return Ok(Keep::shared(listing));
        }
        let numbers = self.changes.keep(alloc)?;
        Ok(Keep::own(numbers))
    }

    /// Gives a taken change back, and answers whether there is this caller and had it, undone. It takes no memory, and costs
    /// a search among those that were given back.
    pub fn back(&mut self, by: u32, change: u64) -> bool
        ensures adds { OnTrue result (Adds (event.Back by change) self.old self.new) }
        ensures taken { IsTrue result ↔ HasTaken self.old by change }
        ensures unchanged { OnFalse result (self.new ≡ self.old) }
    {
        if by as usize >= self.views.len() {
            return false;
        }
        if !is_taken_by(&self.changes, change, by) {
            return false;
        }
        note_given_back(&self.changes, &mut self.free, change - 1);
        self.changes.hold(change, None);
        self.events = self.events.wrapping_add(1);
        true
    }

    /// Accepts a change, and answers its number, or the first cause against it. A refusal changes nothing. What `back`, `done`
    /// and `set_floor` need of memory for it is taken here.
    pub fn accept(&mut self, alloc: Global, by: u32, change: Change) -> Result<u64, Refused>
        requires caller { IsCaller self.old by }
        requires sound { IsSoundChange change }
        ensures adds { OnOk result (Adds (event.Accept by change) self.old self.new) }
        ensures number { IfOk result (λ number. number ≡ length self.new.state.slots) }
        ensures cause { TellsCause self.old.settings self.old.state change result }
        ensures err { OnErr result (self.new ≡ self.old) }
    {
        let change = stored(alloc, change)?;
        if let Some(cause) = refusal(&self.changes, &change) {
            return Err(cause);
        }
        note_undone(&self.changes, &mut self.undone, &change)?;
        let accepted = self.changes.len();
        match self.changes.accept(change) {
            Ok(()) => {}
            Err(_refused) => {
                self.undone.remove(&accepted);
                return Err(Refused::Memory);
            }
        }
        self.events = self.events.wrapping_add(1);
        Ok(self.changes.len())
    }

    /// What a caller sees of the changes. It takes no memory.
    pub fn ask(&mut self, by: u32) -> Asked
        requires { IsCaller self.old by }
        ensures adds { Adds (event.Ask by) self.old self.new }
        ensures same { self.new.state ≡ self.old.state }
        ensures answer { result ≡ asked_of self.old.state }
    {
        self.events = self.events.wrapping_add(1);
        let accepted = self.changes.len();
        let done = ready_of(&self.changes, &self.undone);
        let undone = if done < accepted {
            Some(done + 1)
        } else {
            None
        };
        Asked {
            accepted,
            done,
            undone,
            published: self.published,
        }
    }

    /// Gives the caller the first change that is neither done nor taken, if there is one. It costs a search among those
    /// that were given back or one among those that are not done, and another one for each that was given back and is
    /// done since, once: at most as many as were held at once.
    pub fn take(&mut self, by: u32) -> Result<Option<Job>, Memory>
        requires { IsCaller self.old by }
        ensures taken { IfOk result (λ job. IfSome job (AddsTaking by self.old self.new)) }
        ensures job { IfOk result (λ job. IfSome job (IsJob self.old.state)) }
        ensures text { IfOk result (λ job. IfSome job HasSoundText) }
        ensures first { IfOk result (λ job. IfSome job (IsFirstJob self.old.state)) }
        ensures none { result ≡ Ok None → length self.old.state.slots < first_free self.old.state }
        ensures unchanged { IfOk result (TellsFree self.old self.new) }
        ensures err { OnErr result (self.new ≡ self.old) }
    {
        let i = first_free(&self.changes, &self.undone, &mut self.free);
        if i == self.changes.len() {
            return Ok(None);
        }
        let job = job_at(&self.changes, i + 1)?;
        self.changes.hold(i + 1, Some(by));
        note_taken(&mut self.free, i);
        self.events = self.events.wrapping_add(1);
        Ok(Some(job))
    }

    /// Publishes a version up to which all is done. If memory is refused, nothing has changed, but that `open` may
    /// refuse until `relist` or another publication is through. What it costs is said at the head of the crate.
    pub fn publish(&mut self, alloc: Global, version: u64) -> Result<(), Memory>
        requires above { self.old.state.published < version }
        requires done { version ≤ ready self.old.state }
        ensures adds { OnOk result (Adds (event.Publish version) self.old self.new) }
        ensures err { OnErr result (self.new ≡ self.old) }
    {
        advance_to(
            alloc,
            &self.changes,
            &mut self.listing,
            &mut self.listed,
            version,
        )?;
        self.published = version;
        self.events = self.events.wrapping_add(1);
        Ok(())
    }

    /// Makes the listing that of the published version again, from what is kept, if memory was refused while it was
    /// changed. Else it does nothing, and costs nothing.
    pub fn relist(&mut self) -> Result<(), Memory>
        ensures { self.new ≡ self.old }
    {
        let alloc = *self.views.allocator();
        let version = self.published;
        advance_to(
            alloc,
            &self.changes,
            &mut self.listing,
            &mut self.listed,
            version,
        )?;
        Ok(())
    }

    /// Opens a view of the last published version, which costs an owner of its listing. If memory was refused in the
    /// middle of a publication and no `relist` or `publish` came through since, it reports that again.
    pub fn open(&mut self, by: u32) -> Result<View<W>, Memory>
        requires caller { IsCaller self.old by }
        requires closed { view_of self.old.state by ≡ None }
        ensures adds { IfOk result (λ view. Adds (event.Open by view.version) self.old self.new) }
        ensures version { IfOk result (λ view. view.version ≡ self.old.state.published) }
        ensures listing { IfOk result (IsViewOf (W.IsWorkOf self.old.settings) self.old.state) }
        ensures conditions { IfOk result ShowsFewConditions }
        ensures err { OnErr result (self.new ≡ self.old) }
    {
        if self.listed != self.published {
            return Err(Memory);
        }
        let listing = Arc::try_clone(&self.listing)?;
        self.views[by as usize] = Some(self.published);
        self.events = self.events.wrapping_add(1);
        Ok(View {
            version: self.published,
            listing,
        })
    }

    /// Shuts the caller's view. It takes no memory.
    pub fn shut(&mut self, by: u32)
        requires caller { IsCaller self.old by }
        requires viewing { IsSome (view_of self.old.state by) }
        ensures { Adds (event.Shut by) self.old self.new }
    {
        self.views[by as usize] = None;
        self.events = self.events.wrapping_add(1);
    }

    /// Gives versions below this one up, and answers whether it may: if it is above the last floor and at most the last
    /// published version and each open view's. What no version from there on needs is forgotten, for a search each. It looks at
    /// each caller's view, and takes no memory.
    pub fn set_floor(&mut self, version: u64) -> bool
        ensures adds { OnTrue result (Adds (event.Floor version) self.old self.new) }
        ensures lawful { IsTrue result ↔ Allows self.old (event.Floor version) }
        ensures unchanged { OnFalse result (self.new ≡ self.old) }
    {
        if version <= self.changes.floor() {
            return false;
        }
        if version > least(self.published, &self.views) {
            return false;
        }
        self.changes.set_floor(version);
        pass_over(&mut self.free, version);
        self.events = self.events.wrapping_add(1);
        true
    }

    /// Takes the work of a change, the first time. It takes no memory.
    pub fn done(&mut self, by: u32, change: u64, work: Arc<W, Global>) -> Finished
        requires caller { IsCaller self.old by }
        requires accepted { IsAccepted self.old.state change }
        requires work { IsWorkOn W.IsWorkOf self.old change work }
        ensures adds { result ≡ Finished.Done → Adds (event.Done by change) self.old self.new }
        ensures already { (result ≡ Finished.Already) ↔ IsDone self.old.state change }
        ensures unchanged { result ≡ Finished.Already → self.new ≡ self.old }
    {
        if undone_at(&self.changes, change).is_none() {
            return Finished::Already;
        }
        self.changes.finish(change, work);
        self.undone.remove(&(change - 1));
        self.events = self.events.wrapping_add(1);
        Finished::Done
    }
}

// The least of a version and each open view's.
fn least(version: u64, views: &[Option<u64>]) -> u64
    ensures { result ≡ fold lower version views.now }
{
    let mut least = version;
    for view in views {
        if let Some(seen) = view {
            least = least.min(*seen);
        }
    }
    least
}

fn no_views(alloc: Global, callers: u32) -> Result<Vec<Option<u64>>, Memory>
    ensures { IfOk result (λ views. views.items ≡ replicate callers None) }
{
    let mut views = Vec::with_capacity(alloc, callers as usize)?;
    for _i in 0..callers {
        views.push(None)?;
    }
    Ok(views)
}
