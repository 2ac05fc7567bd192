ghost use Rattle.std.specs.Prelude.{◌≡◌, ◌≤◌, ◌*◌, ℕ, List, IfOk, OnErr, length};
ghost use Rattle.cq_answer.specs.Reply.{IsReply};
ghost use Rattle.cq_base.specs.Settings.{IsInRange};
ghost use Rattle.cq_base.specs.declared.measures.Measures.{Measures};
ghost use Rattle.cq_io.specs.Causes.{HasCause};
ghost use Rattle.cq_reply.specs.declared.reply.FileRow.{FileRow};
ghost use Rattle.cq_reply.specs.declared.reply.GroupRow.{GroupRow};
ghost use Rattle.cq_reply.specs.declared.reply.Reply.TheVariants as told;
ghost use Rattle.cq_request.specs.declared.request.Kind.TheVariants as kind;
ghost use Rattle.cq_make.specs.Generator.{puts_to};
ghost use Rattle.cq_make.specs.Made.{Makes, ShowsFiles, ShowsGroups, ShowsMeasures};
ghost use Rattle.cq_make.specs.Summary.{question, IsSummary};

use crate::asking::reply_of;
use crate::putting::put_all;
use crate::summary::{summary_line, token_count};
use cq_base::{Measures, Memory, Settings, Steps, Text};
use cq_hub::{Hub, Solo, SoloPass};
use cq_io::{Failed, OpenGate, Sink, send};
use cq_reply::{FileRow, Reply};
use cq_request::Kind;
use cq_session::{NoLog, Server};
use cq_work::{Keyer, Work};
use std::alloc::Global;
use std::sync::ledger::Ledger;
use std::thread::Threads;

/// The project of a number, of so many files.
#[derive(Clone, Copy, Debug, PartialEq, Eq)]
pub struct Project {
    pub number: u64,
    pub files: u32,
}

fn group_count(reply: &Reply) -> u64
    requires { ShowsGroups reply.now }
    ensures { (rows : List GroupRow) (v : ℕ)
        → reply.now ≡ told.Groups rows v → result ≡ length rows }
{
    match reply {
        Reply::Groups { groups, .. } => groups.as_slice().len() as u64,
        _ => unreachable!(),
    }
}

fn measures_in(reply: &Reply) -> &Measures
    requires { ShowsMeasures reply.now }
    ensures { (measures : Measures) (v : ℕ)
        → reply.now ≡ told.Measures measures v → result.now ≡ measures }
{
    match reply {
        Reply::Measures { measures, .. } => measures,
        _ => unreachable!(),
    }
}

fn rows_in(reply: &Reply) -> &[FileRow]
    requires { ShowsFiles reply.now }
    ensures { (rows : List FileRow) (v : ℕ) → reply.now ≡ told.Files rows v → result.now ≡ rows }
{
    match reply {
        Reply::Files { files, .. } => files.as_slice(),
        _ => unreachable!(),
    }
}

// The line that shows these replies, which are those to the questions at the last version.
fn line_told(
    alloc: Global,
    settings: &Settings,
    project: Project,
    groups: &Reply,
    measures: &Reply,
    rows: &Reply,
) -> Result<Text, Memory>
    requires few { project.files ≤ 262144 }
    requires groups { IsReply settings.now (puts_to project.number project.files) project.files
        (question kind.Groups) groups.now }
    requires measures { IsReply settings.now (puts_to project.number project.files) project.files
        (question kind.Measures) measures.now }
    requires rows { IsReply settings.now (puts_to project.number project.files) project.files
        (question kind.Files) rows.now }
    ensures { IfOk result (IsSummary settings.now project.number project.files) }
{
    let groups = group_count(groups);
    let tokens = token_count(rows_in(rows));
    summary_line(
        alloc,
        groups,
        measures_in(measures),
        tokens,
        project.files as u64,
    )
}

// The line of the project, as a hub of its own answers.
fn line_made<R: Threads + Sync, L: Ledger>(
    rt: &R,
    alloc: Global,
    settings: &Settings,
    project: Project,
    steps: &mut Steps<L>,
) -> Result<Text, Memory>
    requires in_range { IsInRange settings.now }
    requires short { settings.now.chunk ≤ 50 }
    requires few { project.files ≤ settings.now.change_limit }
    requires room { 280 * project.files ≤ settings.now.text_limit }
    ensures { IfOk result (IsSummary settings.now project.number project.files) }
{
    let keyer = Keyer::plain(settings);
    let made: (Solo<Work<L>>, SoloPass<Work<L>>) = Solo::new(alloc, settings)?;
    let (hub, mut pass) = made;
    put_all(alloc, &hub, project.number, project.files, &mut pass)?;
    let server = Server {
        rt,
        alloc,
        keyer: &keyer,
        hub: &hub,
        keeper: &NoLog,
        gate: &OpenGate,
    };
    let groups = reply_of(&server, Kind::Groups, &mut pass, steps)?;
    let measures = reply_of(&server, Kind::Measures, &mut pass, steps)?;
    let rows = reply_of(&server, Kind::Files, &mut pass, steps)?;
    line_told(alloc, settings, project, &groups, &measures, &rows)
}

/// Makes a project, and writes the one line that describes it: how many groups it has of at least 50 tokens, its measures,
/// the tokens of its files and its version. Memory is needed only before a byte is written.
pub fn make<R: Threads + Sync, K: Sink, L: Ledger>(
    rt: &R,
    alloc: Global,
    settings: &Settings,
    project: Project,
    sink: &mut K,
    steps: &mut Steps<L>,
) -> Result<Result<(), Failed>, Memory>
    requires in_range { IsInRange settings.now }
    requires short { settings.now.chunk ≤ 50 }
    requires few { project.files ≤ settings.now.change_limit }
    requires room { 280 * project.files ≤ settings.now.text_limit }
    ensures line { IfOk result
        (Makes settings.now project.number project.files (K.written sink.old) (K.written sink.new)) }
    ensures cause { IfOk result (HasCause (K.faults sink.old) (K.faults sink.new)) }
    ensures memory { OnErr result (sink.new ≡ sink.old) }
{
    let line = line_made(rt, alloc, settings, project, steps)?;
    Ok(send(sink, line.as_bytes()))
}
