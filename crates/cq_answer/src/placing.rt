ghost use Rattle.std.specs.Prelude.{◌≡◌, ◌≤◌, map, IfOk, Contains};
ghost use Rattle.cq_base.specs.declared.group.Place.{Place};
ghost use Rattle.cq_measures.specs.Measures.{IsInside, IsGroupInside, AreGroupsInside};
ghost use Rattle.cq_answer.specs.Rows as spec;
ghost use Rattle.cq_answer.specs.Works.{works_in, facts_in};

use crate::file::{path_of, work_of};
use cq_base::{Group, Memory, Place};
use cq_projects::Held;
use cq_reply::{GroupRow, GroupRows, PlaceRow, PlaceRows};
use cq_work::Work;
use std::alloc::Global;
use std::sync::Arc;
use std::sync::ledger::Ledger;

// A place of a word of `tokens` tokens.
fn place_row<L: Ledger>(
    files: &[Arc<Held<Work<L>>, Global>],
    tokens: u32,
    place: Place,
) -> Result<PlaceRow, Memory>
    requires some { 1 ≤ tokens }
    requires inside { IsInside (facts_in (works_in files.now)).spans tokens place }
    ensures { IfOk result (λ row. row
        ≡ spec.place_row (facts_in (works_in files.now)) tokens place) }
{
    let file = &files[place.file as usize];
    let spans = &work_of(file).spans;
    let at = place.at as usize;
    Ok(PlaceRow {
        path: path_of(file)?,
        at: place.at,
        first: spans[at].first_line,
        last: spans[at + tokens as usize - 1].last_line,
    })
}

fn place_rows<L: Ledger>(
    alloc: Global,
    files: &[Arc<Held<Work<L>>, Global>],
    tokens: u32,
    places: &[Place],
) -> Result<PlaceRows, Memory>
    requires some { 1 ≤ tokens }
    requires inside { (p : Place) → Contains places.now p
        → IsInside (facts_in (works_in files.now)).spans tokens p }
    ensures { IfOk result (λ rows. rows
        ≡ map (spec.place_row (facts_in (works_in files.now)) tokens) places.now) }
{
    let mut rows = Vec::with_capacity(alloc, places.len())?;
    for place in places {
        rows.push(place_row(files, tokens, *place)?)?;
    }
    Ok(PlaceRows::from_vec(rows))
}

fn group_row<L: Ledger>(
    alloc: Global,
    files: &[Arc<Held<Work<L>>, Global>],
    group: &Group,
) -> Result<GroupRow, Memory>
    requires { IsGroupInside (facts_in (works_in files.now)).spans group.now }
    ensures { IfOk result (λ row. row ≡ spec.group_row (facts_in (works_in files.now)) group.now) }
{
    Ok(GroupRow {
        tokens: group.tokens,
        places: place_rows(alloc, files, group.tokens, group.places.as_slice())?,
    })
}

/// The groups of some files, as a reply shows them.
pub(crate) fn group_rows<L: Ledger>(
    alloc: Global,
    files: &[Arc<Held<Work<L>>, Global>],
    groups: &[Group],
) -> Result<GroupRows, Memory>
    requires { AreGroupsInside (facts_in (works_in files.now)).spans groups.now }
    ensures { IfOk result (λ rows. rows
        ≡ map (spec.group_row (facts_in (works_in files.now))) groups.now) }
{
    let mut rows = Vec::new(alloc);
    for group in groups {
        rows.push(group_row(alloc, files, group)?)?;
    }
    Ok(GroupRows::from_vec(rows))
}
