ghost use Rattle.std.specs.Prelude.{◌≡◌, IfOk, OnOk, OnErr};
ghost use Rattle.cq_reply.specs.Added.{AddsValue};
ghost use Rattle.cq_reply.specs.Lines.{bytes_of, NeedsMemory};
ghost use Rattle.cq_reply.specs.Written.{reply_data, line_of, ReadsAs, IsReplyText};

use crate::files::write_files;
use crate::functions::write_functions;
use crate::groups::write_groups;
use crate::line::Line;
use crate::measures::{write_measures, write_verdict};
use crate::refusal::{write_refused, write_state};
use crate::reply::Reply;
use crate::short::{Short, fixed};
use cq_base::{Memory, Text};
use json::Writer;
use std::alloc::{AllocError, Global};

// A reply that is made in memory.
fn write_reply(out: &mut Writer, reply: &Reply) -> Result<(), AllocError>
    requires text { IsReplyText reply.now }
    requires long { NeedsMemory reply.now }
    ensures { OnOk result (AddsValue (reply_data reply.now) out.old out.new) }
{
    match reply {
        Reply::Files { files, version } => write_files(out, files.as_slice(), *version),
        Reply::Groups { groups, version } => write_groups(out, groups.as_slice(), *version),
        Reply::Measures { measures, version } => write_measures(out, measures, *version),
        Reply::Verdict { verdict, version } => write_verdict(out, verdict, *version),
        Reply::Functions {
            functions,
            version,
            worst,
        } => write_functions(out, functions.as_slice(), *version, *worst),
        Reply::State {
            accepted,
            done,
            published,
        } => write_state(out, *accepted, *done, *published),
        Reply::Refused(why) => write_refused(out, why),
        Reply::Change(_) | Reply::Pending(_) | Reply::Long | Reply::Memory => unreachable!(),
    }
}

// The line of a reply that is made in memory.
fn made(alloc: Global, reply: &Reply) -> Result<Text, Memory>
    requires text { IsReplyText reply.now }
    requires long { NeedsMemory reply.now }
    ensures line { IfOk result (λ t. t ≡ line_of reply.now) }
    ensures reads_back { IfOk result (λ t. ReadsAs t (reply_data reply.now)) }
{
    let mut out = Writer::new(Vec::with_capacity(alloc, 128)?);
    write_reply(&mut out, reply)?;
    let mut line = out.into_inner();
    line.push(b'\n')?;
    Ok(Text::from_vec(line))
}

/// The line of a reply, with its line feed. Each text in it has to be UTF-8. Whether a change was accepted is written
/// without memory, and so is a change that is not done.
pub fn line_of(alloc: Global, reply: &Reply) -> Result<Line, Memory>
    requires { IsReplyText reply.now }
    ensures line { IfOk result (λ line. bytes_of line ≡ line_of reply.now) }
    ensures reads_back { IfOk result (λ line. ReadsAs (bytes_of line) (reply_data reply.now)) }
    ensures memory { OnErr result (NeedsMemory reply.now) }
{
    match reply {
        Reply::Change(number) => Ok(Line::Short(fixed(Short::Change(*number)))),
        Reply::Pending(number) => Ok(Line::Short(fixed(Short::Pending(*number)))),
        Reply::Long => Ok(Line::Short(fixed(Short::Long))),
        Reply::Memory => Ok(Line::Short(fixed(Short::Memory))),
        _ => Ok(Line::Made(made(alloc, reply)?)),
    }
}
