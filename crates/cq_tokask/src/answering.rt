ghost use Rattle.std.specs.Prelude.{◌≤◌, [], IfOk};
ghost use Rattle.cq_answer.specs.Given.{IsReplyOf};
ghost use Rattle.cq_answer.specs.Parts.{HasPath, HasScope};
ghost use Rattle.cq_base.specs.Settings.{IsInRange};
ghost use Rattle.cq_tokask.specs.Asked.{AnswersQuery, AnswersSaid};
ghost use Rattle.cq_reply.specs.Written.{IsReplyText};
ghost use Rattle.cq_request.specs.Reading.{line_says};
ghost use Rattle.cq_talk.specs.Said.{Read};
ghost use Rattle.cq_tokfile.specs.Loaded.{IsLoadedOf};
ghost use Rattle.cq_tokfile.specs.Snapshot.{IsSoundSnapshot};

use crate::version::KeptVersion;
use cq_answer::{ProjectAt, answer};
use cq_base::{Memory, Refusal, Settings, Steps};
use cq_projects::ProjectFiles;
use cq_reply::Reply;
use cq_request::{Query, ReadError, Request, read_request};
use cq_tokfile::Loaded;
use cq_work::Work;
use std::alloc::Global;
use std::sync::ledger::Ledger;
use std::thread::Threads;

// The reply to a query on a project that has no files.
fn reply_to_other<R: Threads + Sync, L: Ledger>(
    rt: &R,
    alloc: Global,
    settings: &Settings,
    query: &Query,
    version: u64,
    steps: &mut Steps<L>,
) -> Result<Reply, Memory>
    requires in_range { IsInRange settings.now }
    requires long { settings.now.chunk ≤ query.now.min }
    requires path { HasPath query.now.kind query.now.path }
    requires scope { HasScope query.now.path query.now.scope }
    ensures given { IfOk result (IsReplyOf {L = L} [] [] query.now version) }
    ensures text { IfOk result IsReplyText }
{
    let files: ProjectFiles<Work<L>> = ProjectFiles::new(alloc);
    let mut buckets: Loaded<L> = Loaded::none(alloc);
    let at = ProjectAt {
        settings,
        files: &files,
        conditions: &[],
        version,
    };
    answer(rt, alloc, &at, query, &mut buckets, steps)
}

// The reply to a query.
fn query_reply<R: Threads + Sync, L: Ledger>(
    rt: &R,
    alloc: Global,
    kept: &KeptVersion<'_, L>,
    loaded: &mut Loaded<L>,
    query: &Query,
    steps: &mut Steps<L>,
) -> Result<Reply, Memory>
    requires in_range { IsInRange kept.now.settings.now }
    requires sound { IsSoundSnapshot kept.now.settings.now kept.now.snapshot.now }
    requires loaded { IsLoadedOf kept.now.snapshot.now.files loaded.old }
    requires long { kept.now.settings.now.chunk ≤ query.now.min }
    requires path { HasPath query.now.kind query.now.path }
    requires scope { HasScope query.now.path query.now.scope }
    ensures answers { IfOk result (AnswersQuery kept.now.snapshot.now query.now) }
    ensures text { IfOk result IsReplyText }
    ensures loaded { IsLoadedOf kept.now.snapshot.now.files loaded.new }
{
    if query.at > kept.snapshot.version {
        return Ok(Reply::Refused(Refusal::Future(kept.snapshot.version)));
    }
    if !query.project.is_same(&kept.snapshot.project) {
        return reply_to_other(
            rt,
            alloc,
            kept.settings,
            query,
            kept.snapshot.version,
            steps,
        );
    }
    let at = ProjectAt {
        settings: kept.settings,
        files: &kept.snapshot.files,
        conditions: kept.snapshot.conditions.as_slice(),
        version: kept.snapshot.version,
    };
    answer(rt, alloc, &at, query, loaded, steps)
}

/// The reply to a line that is not too long.
pub(crate) fn reply_to<R: Threads + Sync, L: Ledger>(
    rt: &R,
    alloc: Global,
    kept: &KeptVersion<'_, L>,
    loaded: &mut Loaded<L>,
    line: &[u8],
    steps: &mut Steps<L>,
) -> Result<Reply, Memory>
    requires in_range { IsInRange kept.now.settings.now }
    requires sound { IsSoundSnapshot kept.now.settings.now kept.now.snapshot.now }
    requires loaded { IsLoadedOf kept.now.snapshot.now.files loaded.old }
    ensures answers { IfOk result
        (AnswersSaid kept.now.snapshot.now (Read (line_says kept.now.settings.now.chunk line.now))) }
    ensures text { IfOk result IsReplyText }
    ensures loaded { IsLoadedOf kept.now.snapshot.now.files loaded.new }
{
    match read_request(alloc, kept.settings, line) {
        Ok(Request::Query(query)) => { query_reply(rt, alloc, kept, loaded, &query, steps) }
        Ok(Request::Change(_change)) => Ok(Reply::Refused(Refusal::Op)),
        Ok(Request::State) => Ok(Reply::Refused(Refusal::Op)),
        Err(ReadError::Refused(refusal)) => Ok(Reply::Refused(refusal)),
        Err(ReadError::Memory) => Err(Memory),
    }
}
