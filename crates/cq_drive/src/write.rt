ghost use Rattle.std.specs.Prelude.{◌≡◌, IfOk, OnErr, map};
ghost use Rattle.serde_json.specs.View.{view};
ghost use Rattle.cq_reply.specs.Lines.{bytes_of};
ghost use Rattle.cq_drive.specs.Outcomes.{entry_data, read_data, read_line, line_of as line_of_outcome, IsOutcomeText, NeedsMemory};

use crate::outcome::ScriptOutcome;
use cq_base::{Entry, Memory, Text};
use cq_reply::{Fixed, Line, line_of as line_of_reply};
use serde_json::{Value, json};
use std::alloc::{AllocError, Global};

fn entry_value(alloc: Global, entry: &Entry) -> Result<Value, AllocError>
    ensures { IfOk result (λ v. view v ≡ entry_data entry.now) }
{
    json!(in alloc; [entry.change, entry.at])
}

fn entry_values(alloc: Global, entries: &[Entry]) -> Result<Vec<Value>, AllocError>
    ensures { IfOk result (λ v. map view v.items ≡ map entry_data entries.now) }
{
    let mut values = Vec::new(alloc);
    for entry in entries {
        serde_json::push(&mut values, entry_value(alloc, entry)?)?;
    }
    Ok(values)
}

fn read_value(alloc: Global, entries: &[Entry]) -> Result<Value, AllocError>
    ensures { IfOk result (λ v. view v ≡ read_data entries.now) }
{
    let values = Value::Array(entry_values(alloc, entries)?);
    json!(in alloc; {"ok": true, "value": values})
}

fn read_line(alloc: Global, entries: &[Entry]) -> Result<Text, Memory>
    ensures { IfOk result (λ line. line ≡ read_line entries.now) }
{
    let mut line = read_value(alloc, entries)?.to_vec(alloc)?;
    line.push(b'\n')?;
    Ok(Text::from_vec(line))
}

/// The line of an outcome, with its line feed. Each text in a reply has to be UTF-8. Only the entries that were read and
/// the replies that are not short need memory.
pub fn line_of(alloc: Global, outcome: &ScriptOutcome) -> Result<Line, Memory>
    requires { IsOutcomeText outcome.now }
    ensures line { IfOk result (λ line. bytes_of line ≡ line_of_outcome outcome.now) }
    ensures memory { OnErr result (NeedsMemory outcome.now) }
{
    match outcome {
        ScriptOutcome::Done => Ok(Line::Short(Fixed::of_parts("{\"ok\":true}\n", "", ""))),
        ScriptOutcome::Value(number) => Ok(Line::Short(Fixed::numbered(
            "{\"ok\":true,\"value\":",
            *number,
            "}\n",
        ))),
        ScriptOutcome::NoJob => Ok(Line::Short(Fixed::of_parts(
            "{\"ok\":true,\"value\":null}\n",
            "",
            "",
        ))),
        ScriptOutcome::Read(entries) => Ok(Line::Made(read_line(alloc, entries.as_slice())?)),
        ScriptOutcome::No => Ok(Line::Short(Fixed::of_parts("{\"ok\":false}\n", "", ""))),
        ScriptOutcome::Reply(reply) => line_of_reply(alloc, reply),
    }
}
