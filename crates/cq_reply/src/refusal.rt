ghost use Rattle.std.specs.Prelude.{OnOk};
ghost use Rattle.std.specs.Str.{IsUtf8};
ghost use Rattle.cq_reply.specs.Added.{AddsValue};
ghost use Rattle.cq_base.specs.Refusals.{IsSoundRefusal};
ghost use Rattle.cq_reply.specs.Written.{refusal, named_refusal, counted_refusal, refused_data, state_data};

use crate::member::{write_flag, write_number, write_string, write_text};
use cq_base::{Refusal, Text};
use json::Writer;
use std::alloc::AllocError;

// A refusal that says no more than its code and its word.
fn write_refusal(out: &mut Writer, code: u64, word: &str) -> Result<(), AllocError>
    ensures { OnOk result (AddsValue (refusal code word.now) out.old out.new) }
{
    out.begin_object()?;
    write_number(out, "code", code)?;
    write_string(out, "error", word)?;
    write_flag(out, "ok", false)?;
    out.end_object()
}

// One that also reports a count.
fn write_counted(out: &mut Writer, code: u64, word: &str, count: u64) -> Result<(), AllocError>
    ensures { OnOk result (AddsValue (counted_refusal code word.now count) out.old out.new) }
{
    out.begin_object()?;
    write_number(out, "code", code)?;
    write_number(out, "count", count)?;
    write_string(out, "error", word)?;
    write_flag(out, "ok", false)?;
    out.end_object()
}

// One that also names a member.
fn write_named(out: &mut Writer, code: u64, word: &str, name: &Text) -> Result<(), AllocError>
    requires { IsUtf8 name.now }
    ensures { OnOk result (AddsValue (named_refusal code word.now name.now) out.old out.new) }
{
    out.begin_object()?;
    write_number(out, "code", code)?;
    write_string(out, "error", word)?;
    write_text(out, "name", name.as_bytes())?;
    write_flag(out, "ok", false)?;
    out.end_object()
}

/// Why a line is refused.
pub(crate) fn write_refused(out: &mut Writer, why: &Refusal) -> Result<(), AllocError>
    requires { IsSoundRefusal why.now }
    ensures { OnOk result (AddsValue (refused_data why.now) out.old out.new) }
{
    let code = why.code();
    let word = why.word();
    match why.name() {
        Some(name) => write_named(out, code, word, name),
        None => match why.count() {
            Some(count) => write_counted(out, code, word, count),
            None => write_refusal(out, code, word),
        },
    }
}

/// How far the server is.
pub(crate) fn write_state(
    out: &mut Writer,
    accepted: u64,
    done: u64,
    published: u64,
) -> Result<(), AllocError>
    ensures { OnOk result (AddsValue (state_data accepted done published) out.old out.new) }
{
    out.begin_object()?;
    write_number(out, "accepted", accepted)?;
    write_number(out, "done", done)?;
    write_flag(out, "ok", true)?;
    write_number(out, "published", published)?;
    out.end_object()
}
