ghost use Rattle.std.specs.Prelude.{◌≡◌, ◌≤◌, length, IfOk, OnOk};
ghost use Rattle.cq_base.specs.Settings.{IsInRange};
ghost use Rattle.cq_reply.specs.Written.{IsReplyText};
ghost use Rattle.cq_answer.specs.Parts.{HasPath, HasScope, IsPattern, IsWithin};
ghost use Rattle.cq_answer.specs.Rows.{AreShowable, AreFewFunctions};
ghost use Rattle.cq_answer.specs.Given.{AreGiven, IsReplyOf, AsksGiven, AsksGivenAtMost, ReadsGiven};
ghost use Rattle.cq_answer.specs.Versions.{IsReplyOn, ShowsGroups, AsksOn, AsksAtMostOn, ReadsOn};
ghost use Rattle.cq_answer.specs.Works.{works_in, keys_in, numbers_in, facts_in, AreNumbered};

use crate::functions::functions_in;
use crate::listing::groups_of;
use crate::measuring::measures_of;
use crate::part::{Part, part_of};
use crate::placing::group_rows;
use crate::project::ProjectAt;
use crate::showing::file_rows;
use cq_base::{Group, Memory, Steps};
use cq_groups::Buckets;
use cq_measures::verdict;
use cq_projects::Held;
use cq_reply::Reply;
use cq_request::{Kind, Query};
use cq_work::Work;
use std::alloc::Global;
use std::sync::Arc;
use std::sync::ledger::Ledger;
use std::thread::Threads;

// What a query lists of a project, with its groups.
#[derive(Drop)]
struct Found<'a> {
    part: Part,
    groups: &'a [Group],
}

// The reply to a query, from what it lists.
fn reply_of<R: Threads + Sync, L: Ledger>(
    rt: &R,
    alloc: Global,
    files: &[Arc<Held<Work<L>>, Global>],
    at: &ProjectAt<'_, L>,
    query: &Query,
    found: &Found<'_>,
) -> Result<Reply, Memory>
    requires few { length at.now.conditions.now ≤ 32 }
    requires within { IsWithin (length files.now) found.now.part }
    requires scope { IsPattern query.now.scope }
    requires numbered { AreNumbered (works_in files.now) }
    requires measurable { AreShowable (facts_in (works_in files.now)) found.now.groups.now }
    requires few_functions { AreFewFunctions (facts_in (works_in files.now)) }
    ensures { IfOk result (ShowsGroups files.now at.now.conditions.now at.now.version query.now
        found.now.part found.now.groups.now) }
{
    let version = at.version;
    match query.kind {
        Kind::Files => Ok(Reply::Files {
            files: file_rows(alloc, files)?,
            version,
        }),
        Kind::Groups => Ok(Reply::Groups {
            groups: group_rows(alloc, files, found.groups)?,
            version,
        }),
        Kind::Measures => Ok(Reply::Measures {
            measures: measures_of(rt, alloc, files, query, found.part, found.groups)?,
            version,
        }),
        Kind::Verdict => {
            let measures = measures_of(rt, alloc, files, query, found.part, found.groups)?;
            Ok(Reply::Verdict {
                verdict: verdict(alloc, at.conditions, &measures)?,
                version,
            })
        }
        Kind::Functions => {
            let (functions, worst) = functions_in(alloc, files, found.part)?;
            Ok(Reply::Functions {
                functions,
                version,
                worst,
            })
        }
    }
}

/// The reply to a query on the files of one project with their works, and on its conditions, at a version. If they are
/// those of a version of some changes, it is the reply by these. If memory is refused, the buckets can still answer the
/// next question. With a path that exists, the index is asked only for the keys of that file's windows. For the list of
/// files, for functions, and for a path that does not exist, it is not asked and no token is read. Measures of chosen files
/// are by the groups of the whole project, and cost one look for each file, the comparison of its path if it changed, and a
/// search among the chosen ones for each place. The measures of a whole project of many places are counted in threads; all
/// else is done on the caller's.
pub fn answer<R: Threads + Sync, B: Buckets, L: Ledger>(
    rt: &R,
    alloc: Global,
    at: &ProjectAt<'_, L>,
    query: &Query,
    buckets: &mut B,
    steps: &mut Steps<L>,
) -> Result<Reply, Memory>
    requires settings { IsInRange at.now.settings.now }
    requires given { AreGiven at.now.settings.now at.now.files.now at.now.conditions.now }
    requires long { at.now.settings.now.chunk ≤ query.now.min }
    requires path { HasPath query.now.kind query.now.path }
    requires scope { HasScope query.now.path query.now.scope }
    requires for_changes { B.file_changes buckets.old ≡ numbers_in at.now.files.now }
    requires for_keys { B.file_keys buckets.old ≡ keys_in at.now.files.now }
    requires ready { B.ready buckets.old }
    ensures given { IfOk result
        (IsReplyOf at.now.files.now at.now.conditions.now query.now at.now.version) }
    ensures reply { IfOk result
        (IsReplyOn at.now.settings.now at.now.version query.now
        at.now.files.now at.now.conditions.now) }
    ensures texts { IfOk result IsReplyText }
    ensures asks { OnOk result
        (AsksGiven B.Buckets at.now.files.now query.now buckets.old buckets.new) }
    ensures asks_most { AsksGivenAtMost B.Buckets at.now.files.now query.now buckets.old buckets.new }
    ensures reads_most { ReadsGiven at.now.files.now query.now steps.old steps.new }
    ensures asked { OnOk result
        (AsksOn B.Buckets at.now.settings.now at.now.version query.now at.now.files.now
        buckets.old buckets.new) }
    ensures asked_most { AsksAtMostOn B.Buckets at.now.settings.now at.now.version query.now
        at.now.files.now buckets.old buckets.new }
    ensures same_changes { B.file_changes buckets.new ≡ B.file_changes buckets.old }
    ensures same_keys { B.file_keys buckets.new ≡ B.file_keys buckets.old }
    ensures ready { B.ready buckets.new }
    ensures moved { B.moved buckets.old buckets.new }
    ensures reads { ReadsOn at.now.settings.now at.now.version query.now at.now.files.now
        steps.old steps.new }
{
    let part = part_of(at.files, query);
    let groups = groups_of(alloc, at, part, query.min, buckets, steps)?;
    let items = at.files.items();
    let found = Found {
        part,
        groups: &groups,
    };
    reply_of(rt, alloc, items, at, query, &found)
}
