ghost use Rattle.std.specs.Prelude.{◌≡◌, IfOk};
ghost use Rattle.cq_answer.specs.Rows as spec;
ghost use Rattle.cq_answer.specs.Works.{work_in, works_in, row_of, facts_in};

use crate::file::{change_of, lang_of, path_of, work_of};
use cq_base::Memory;
use cq_projects::Held;
use cq_reply::{FileRow, FileRows, Shown};
use cq_work::{State, Work};
use std::alloc::Global;
use std::sync::Arc;
use std::sync::ledger::Ledger;

fn shown_in(state: State) -> Shown
    ensures { result ≡ spec.shown_in state }
{
    match state {
        State::Ok => Shown::Ok,
        State::Fault(at) => Shown::Fault(at),
        State::Large => Shown::Large,
    }
}

fn file_row<L: Ledger>(file: &Arc<Held<Work<L>>, Global>) -> Result<FileRow, Memory>
    ensures { IfOk result (λ row. row ≡ row_of (work_in file.now)) }
{
    let work = work_of(file);
    Ok(FileRow {
        path: path_of(file)?,
        change: change_of(file),
        lang: lang_of(file),
        lines: work.counts.lines,
        shown: shown_in(work.state),
        tokens: work.tokens.len(),
    })
}

/// The files, as a reply shows them.
pub(crate) fn file_rows<L: Ledger>(
    alloc: Global,
    files: &[Arc<Held<Work<L>>, Global>],
) -> Result<FileRows, Memory>
    ensures { IfOk result (λ rows. rows ≡ (facts_in (works_in files.now)).rows) }
{
    let mut rows = Vec::new(alloc);
    for file in files {
        rows.push(file_row(file)?)?;
    }
    Ok(FileRows::from_vec(rows))
}
