ghost use Rattle.std.specs.Prelude.{◌≡◌, ◌<◌, length, IfOk};
ghost use Rattle.cq_measures.specs.Measures.{counts_of, spans_of};
ghost use Rattle.cq_answer.specs.Calls.{AreMeasuresAt, AreMeasuresOf, AreMeasuresOfAll};
ghost use Rattle.cq_answer.specs.Parts.{IsPattern, IsWithin};
ghost use Rattle.cq_answer.specs.Rows as spec;
ghost use Rattle.cq_answer.specs.Works.{works_in, work_in, facts_in, AreNumbered};
ghost use Rattle.cq_answer.specs.declared.part.Part.TheVariants as variant;

use crate::choosing::{chosen_by, is_counted, is_of_all};
use crate::file::work_of;
use crate::part::Part;
use cq_base::{Group, Measures, Memory};
use cq_measures::{FileLines, chosen_measures, file_measures, project_measures};
use cq_projects::Held;
use cq_request::Query;
use cq_work::Work;
use std::alloc::Global;
use std::sync::Arc;
use std::sync::ledger::Ledger;
use std::thread::Threads;

// What is counted of the files, and where their tokens are, which are lent.
fn lines_of<'a, L: Ledger>(
    alloc: Global,
    files: &'a [Arc<Held<Work<L>>, Global>],
) -> Result<Vec<FileLines<'a>>, Memory>
    ensures counts { IfOk result (λ v. counts_of v.items ≡ (facts_in (works_in files.now)).counts) }
    ensures spans { IfOk result (λ v. spans_of v.items ≡ (facts_in (works_in files.now)).spans) }
{
    let mut all = Vec::new(alloc);
    for file in files {
        all.push(lines_in(file))?;
    }
    Ok(all)
}

// The same of one file.
fn lines_in<'a, L: Ledger>(file: &'a Arc<Held<Work<L>>, Global>) -> FileLines<'a>
    ensures counts { result.counts ≡ (work_in file.now).body.counts }
    ensures spans { result.spans.now ≡ (work_in file.now).body.spans.items }
{
    let work = work_of(file);
    FileLines {
        counts: work.counts,
        spans: &work.spans,
    }
}

// Those of all the files.
fn measures_of_all<R: Threads + Sync, L: Ledger>(
    rt: &R,
    alloc: Global,
    files: &[Arc<Held<Work<L>>, Global>],
    groups: &[Group],
) -> Result<Measures, Memory>
    requires { spec.AreShowable (facts_in (works_in files.now)) groups.now }
    ensures { IfOk result (AreMeasuresOfAll files.now groups.now) }
{
    project_measures(rt, alloc, &lines_of(alloc, files)?, groups)
}

// Those of the files that a query chooses.
fn measures_of_chosen<L: Ledger>(
    alloc: Global,
    files: &[Arc<Held<Work<L>>, Global>],
    query: &Query,
    groups: &[Group],
) -> Result<Measures, Memory>
    requires scope { IsPattern query.now.scope }
    requires measurable { spec.AreShowable (facts_in (works_in files.now)) groups.now }
    ensures { IfOk result (AreMeasuresOf files.now query.now variant.Whole groups.now) }
{
    let chosen = chosen_by(alloc, files, query)?;
    chosen_measures(alloc, &lines_of(alloc, files)?, &chosen, groups)
}

// Those of the whole project: in threads if every file is chosen.
fn measures_of_whole<R: Threads + Sync, L: Ledger>(
    rt: &R,
    alloc: Global,
    files: &[Arc<Held<Work<L>>, Global>],
    query: &Query,
    groups: &[Group],
) -> Result<Measures, Memory>
    requires scope { IsPattern query.now.scope }
    requires numbered { AreNumbered (works_in files.now) }
    requires measurable { spec.AreShowable (facts_in (works_in files.now)) groups.now }
    ensures { IfOk result (AreMeasuresOf files.now query.now variant.Whole groups.now) }
{
    if is_of_all(query) {
        measures_of_all(rt, alloc, files, groups)
    } else {
        measures_of_chosen(alloc, files, query, groups)
    }
}

// Those of one file.
fn measures_at<L: Ledger>(
    alloc: Global,
    files: &[Arc<Held<Work<L>>, Global>],
    file: u32,
    groups: &[Group],
) -> Result<Measures, Memory>
    requires within { file < length files.now }
    requires measurable { spec.AreShowable (facts_in (works_in files.now)) groups.now }
    ensures { IfOk result (AreMeasuresAt files.now file groups.now) }
{
    file_measures(alloc, file, &lines_in(&files[file as usize]), groups)
}

// Those of one file if the query chooses it.
fn measures_of_file<L: Ledger>(
    alloc: Global,
    files: &[Arc<Held<Work<L>>, Global>],
    query: &Query,
    file: u32,
    groups: &[Group],
) -> Result<Measures, Memory>
    requires within { file < length files.now }
    requires scope { IsPattern query.now.scope }
    requires measurable { spec.AreShowable (facts_in (works_in files.now)) groups.now }
    ensures { IfOk result (AreMeasuresOf files.now query.now (variant.File file) groups.now) }
{
    let is_chosen = is_counted(alloc, files, query, file)?;
    if is_chosen {
        measures_at(alloc, files, file, groups)
    } else {
        Ok(Measures::none())
    }
}

/// The measures of a part of some files, by the groups that it lists, over the files that the query chooses.
pub(crate) fn measures_of<R: Threads + Sync, L: Ledger>(
    rt: &R,
    alloc: Global,
    files: &[Arc<Held<Work<L>>, Global>],
    query: &Query,
    part: Part,
    groups: &[Group],
) -> Result<Measures, Memory>
    requires within { IsWithin (length files.now) part }
    requires scope { IsPattern query.now.scope }
    requires numbered { AreNumbered (works_in files.now) }
    requires measurable { spec.AreShowable (facts_in (works_in files.now)) groups.now }
    ensures { IfOk result (AreMeasuresOf files.now query.now part groups.now) }
{
    match part {
        Part::Whole => measures_of_whole(rt, alloc, files, query, groups),
        Part::File(file) => measures_of_file(alloc, files, query, file, groups),
        Part::Alone(_) | Part::Nothing => Ok(Measures::none()),
    }
}
