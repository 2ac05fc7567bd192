ghost use Rattle.std.specs.Prelude.{◌≡◌, ◌≤◌, ◌<◌, length, All, IfOk};
ghost use Rattle.std.specs.List.Sorted.{IsStrictlyIncreasing};
ghost use Rattle.cq_answer.specs.Parts.{IsPattern, chooses_all};
ghost use Rattle.cq_answer.specs.Works.{works_in, chosen_in};
ghost use Rattle.cq_scope.specs.Chosen as spec;

use cq_base::{Memory, Text};
use cq_projects::Held;
use cq_request::Query;
use cq_scope::{Pattern, choose, is_chosen};
use cq_work::Work;
use std::alloc::Global;
use std::sync::Arc;
use std::sync::ledger::Ledger;

// The pattern that a query's scope is, if it has one.
fn pattern_of(alloc: Global, scope: &Option<Text>) -> Result<Option<Pattern>, Memory>
    requires { IsPattern scope.now }
    ensures { IfOk result (λ p. p ≡ scope.now) }
{
    match scope {
        Some(text) => Pattern::read(alloc, text),
        None => Ok(None),
    }
}

/// Whether a query chooses every file, whatever its path and its change.
pub(crate) fn is_of_all(query: &Query) -> bool
    ensures { result ≡ chooses_all query.now.scope query.now.since }
{
    match &query.scope {
        Some(_) => false,
        None => query.since == 0,
    }
}

/// Whether a query chooses the file at a position.
pub(crate) fn is_counted<L: Ledger>(
    alloc: Global,
    files: &[Arc<Held<Work<L>>, Global>],
    query: &Query,
    file: u32,
) -> Result<bool, Memory>
    requires within { file < length files.now }
    requires scope { IsPattern query.now.scope }
    ensures { IfOk result (λ b. b ≡ chosen_in (works_in files.now) query.now file) }
{
    let scope = pattern_of(alloc, &query.scope)?;
    Ok(is_chosen(scope.as_ref(), query.since, &files[file as usize]))
}

/// The positions of the files that a query chooses.
pub(crate) fn chosen_by<L: Ledger>(
    alloc: Global,
    files: &[Arc<Held<Work<L>>, Global>],
    query: &Query,
) -> Result<Vec<u32>, Memory>
    requires few { length files.now ≤ 262144 }
    requires scope { IsPattern query.now.scope }
    ensures chosen { IfOk result
        (λ v. v.items ≡ spec.chosen query.now.scope query.now.since (works_in files.now)) }
    ensures ascending { IfOk result (λ v. IsStrictlyIncreasing v.items) }
    ensures inside { IfOk result (λ v. All (λ i. i < length files.now) v.items) }
{
    let scope = pattern_of(alloc, &query.scope)?;
    choose(alloc, files, scope.as_ref(), query.since)
}
