ghost use Rattle.std.specs.Prelude.{OnOk, map};
ghost use Rattle.std.specs.List.{AllByRecursion};
ghost use Rattle.serde_json.specs.Data.{array};
ghost use Rattle.serde_json.specs.View.{items_of};
ghost use Rattle.cq_reply.specs.Added.{AddsValue};
ghost use Rattle.cq_reply.specs.Written.{place_data, group_data, groups_data, IsPlaceText, IsGroupText};

use crate::member::{write_flag, write_number, write_text};
use crate::reply::{GroupRow, PlaceRow};
use json::Writer;
use std::alloc::AllocError;

fn write_place(out: &mut Writer, row: &PlaceRow) -> Result<(), AllocError>
    requires { IsPlaceText row.now }
    ensures { OnOk result (AddsValue (place_data row.now) out.old out.new) }
{
    out.begin_object()?;
    write_number(out, "at", row.at as u64)?;
    write_number(out, "first", row.first as u64)?;
    write_number(out, "last", row.last as u64)?;
    write_text(out, "path", row.path.as_bytes())?;
    out.end_object()
}

fn write_places(out: &mut Writer, rows: &[PlaceRow]) -> Result<(), AllocError>
    requires { AllByRecursion IsPlaceText rows.now }
    ensures { OnOk result
        (AddsValue (array (items_of (map place_data rows.now))) out.old out.new) }
{
    out.begin_array()?;
    for row in rows {
        write_place(out, row)?;
    }
    out.end_array()
}

fn write_group(out: &mut Writer, row: &GroupRow) -> Result<(), AllocError>
    requires { IsGroupText row.now }
    ensures { OnOk result (AddsValue (group_data row.now) out.old out.new) }
{
    out.begin_object()?;
    out.key("places")?;
    write_places(out, row.places.as_slice())?;
    write_number(out, "tokens", row.tokens as u64)?;
    out.end_object()
}

fn write_list(out: &mut Writer, rows: &[GroupRow]) -> Result<(), AllocError>
    requires { AllByRecursion IsGroupText rows.now }
    ensures { OnOk result
        (AddsValue (array (items_of (map group_data rows.now))) out.old out.new) }
{
    out.begin_array()?;
    for row in rows {
        write_group(out, row)?;
    }
    out.end_array()
}

/// The groups of a project at a version.
pub(crate) fn write_groups(
    out: &mut Writer,
    rows: &[GroupRow],
    version: u64,
) -> Result<(), AllocError>
    requires { AllByRecursion IsGroupText rows.now }
    ensures { OnOk result (AddsValue (groups_data rows.now version) out.old out.new) }
{
    out.begin_object()?;
    out.key("groups")?;
    write_list(out, rows)?;
    write_flag(out, "ok", true)?;
    write_number(out, "total", rows.len() as u64)?;
    write_number(out, "version", version)?;
    out.end_object()
}
