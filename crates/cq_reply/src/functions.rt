ghost use Rattle.std.specs.Prelude.{OnOk, map};
ghost use Rattle.std.specs.List.{AllByRecursion};
ghost use Rattle.serde_json.specs.Data.{array};
ghost use Rattle.serde_json.specs.View.{items_of};
ghost use Rattle.cq_reply.specs.Added.{AddsValue};
ghost use Rattle.cq_reply.specs.Written.{position_data, function_data, functions_data, IsFunctionText};

use crate::member::{write_count, write_flag, write_number, write_text};
use cq_func::Function;
use json::Writer;
use std::alloc::AllocError;

fn write_function(out: &mut Writer, function: &Function) -> Result<(), AllocError>
    requires { IsFunctionText function.now }
    ensures { OnOk result (AddsValue (function_data function.now) out.old out.new) }
{
    out.begin_object()?;
    write_number(out, "complexity", function.complexity as u64)?;
    write_number(out, "first", function.first as u64)?;
    write_number(out, "last", function.last as u64)?;
    write_text(out, "name", function.name.as_bytes())?;
    out.end_object()
}

fn write_list(out: &mut Writer, functions: &[Function]) -> Result<(), AllocError>
    requires { AllByRecursion IsFunctionText functions.now }
    ensures { OnOk result
        (AddsValue (array (items_of (map function_data functions.now))) out.old out.new) }
{
    out.begin_array()?;
    for function in functions {
        write_function(out, function)?;
    }
    out.end_array()
}

fn write_position(out: &mut Writer, position: Option<u32>) -> Result<(), AllocError>
    ensures { OnOk result (AddsValue (position_data position) out.old out.new) }
{
    match position {
        Some(position) => write_count(out, position as u64),
        None => out.null(),
    }
}

/// The functions of a file at a version, and the position of the first of greatest complexity.
pub(crate) fn write_functions(
    out: &mut Writer,
    functions: &[Function],
    version: u64,
    worst: Option<u32>,
) -> Result<(), AllocError>
    requires { AllByRecursion IsFunctionText functions.now }
    ensures { OnOk result
        (AddsValue (functions_data functions.now version worst) out.old out.new) }
{
    out.begin_object()?;
    out.key("functions")?;
    write_list(out, functions)?;
    write_flag(out, "ok", true)?;
    write_number(out, "version", version)?;
    out.key("worst")?;
    write_position(out, worst)?;
    out.end_object()
}
