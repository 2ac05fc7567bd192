ghost use Rattle.std.specs.Prelude.{OnOk, map};
ghost use Rattle.std.specs.List.{AllByRecursion};
ghost use Rattle.serde_json.specs.Data.{array, object};
ghost use Rattle.serde_json.specs.View.{items_of};
ghost use Rattle.cq_reply.specs.declared.reply.Shown.TheVariants.{Fault};
ghost use Rattle.cq_reply.specs.Added.{AddsValue, AddsFile};
ghost use Rattle.cq_reply.specs.Written.{file_members, shown_data, file_data, files_data, IsFileText};

use crate::member::{write_flag, write_number, write_string, write_text};
use crate::reply::{FileRow, Shown};
use json::Writer;
use std::alloc::AllocError;

// The members that every file has, and the end of their object.
fn write_members(out: &mut Writer, row: &FileRow, state: &str) -> Result<(), AllocError>
    requires { IsFileText row.now }
    ensures { OnOk result (AddsFile row.now state.now out.old out.new) }
{
    write_number(out, "change", row.change)?;
    write_string(out, "lang", row.lang.name())?;
    write_number(out, "lines", row.lines)?;
    write_text(out, "path", row.path.as_bytes())?;
    write_string(out, "state", state)?;
    write_number(out, "tokens", row.tokens as u64)?;
    out.end_object()
}

// A file that is shown with no more than its state.
fn write_plain(out: &mut Writer, row: &FileRow, state: &str) -> Result<(), AllocError>
    requires { IsFileText row.now }
    ensures { OnOk result (AddsValue (object (file_members row.now state.now)) out.old out.new) }
{
    out.begin_object()?;
    write_members(out, row, state)
}

// A file that has a fault at this byte.
fn write_faulty(out: &mut Writer, row: &FileRow, at: u32) -> Result<(), AllocError>
    requires { IsFileText row.now }
    ensures { OnOk result (AddsValue (shown_data row.now (Fault at)) out.old out.new) }
{
    out.begin_object()?;
    write_number(out, "at", at as u64)?;
    write_members(out, row, "fault")
}

fn write_file(out: &mut Writer, row: &FileRow) -> Result<(), AllocError>
    requires { IsFileText row.now }
    ensures { OnOk result (AddsValue (file_data row.now) out.old out.new) }
{
    match row.shown {
        Shown::Ok => write_plain(out, row, "ok"),
        Shown::Fault(at) => write_faulty(out, row, at),
        Shown::Large => write_plain(out, row, "large"),
    }
}

fn write_list(out: &mut Writer, rows: &[FileRow]) -> Result<(), AllocError>
    requires { AllByRecursion IsFileText rows.now }
    ensures { OnOk result
        (AddsValue (array (items_of (map file_data rows.now))) out.old out.new) }
{
    out.begin_array()?;
    for row in rows {
        write_file(out, row)?;
    }
    out.end_array()
}

/// The files of a project at a version.
pub(crate) fn write_files(
    out: &mut Writer,
    rows: &[FileRow],
    version: u64,
) -> Result<(), AllocError>
    requires { AllByRecursion IsFileText rows.now }
    ensures { OnOk result (AddsValue (files_data rows.now version) out.old out.new) }
{
    out.begin_object()?;
    out.key("files")?;
    write_list(out, rows)?;
    write_flag(out, "ok", true)?;
    write_number(out, "version", version)?;
    out.end_object()
}
