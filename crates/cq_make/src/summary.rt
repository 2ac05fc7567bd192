ghost use Rattle.std.specs.Prelude.{◌≡◌, ◌≤◌, IfOk, OnOk, length};
ghost use Rattle.cq_make.specs.Summary as spec;
ghost use Rattle.cq_reply.specs.Added.{AddsValue};

use cq_base::{Measures, Memory, Text};
use cq_reply::{FileRow, write_flag, write_metrics, write_number};
use json::Writer;
use std::alloc::{AllocError, Global};

/// How many tokens the files have.
pub(crate) fn token_count(rows: &[FileRow]) -> u64
    requires { length rows.now ≤ 262144 }
    ensures { result ≡ spec.token_count rows.now }
{
    let mut total = 0u64;
    for row in rows {
        total += row.tokens as u64;
    }
    total
}

fn write_summary(
    out: &mut Writer,
    groups: u64,
    measures: &Measures,
    tokens: u64,
    version: u64,
) -> Result<(), AllocError>
    ensures { OnOk result
        (AddsValue (spec.summary_data groups measures.now tokens version) out.old out.new) }
{
    out.begin_object()?;
    write_number(out, "groups", groups)?;
    out.key("measures")?;
    write_metrics(out, measures)?;
    write_flag(out, "ok", true)?;
    write_number(out, "tokens", tokens)?;
    write_number(out, "version", version)?;
    out.end_object()
}

/// The line, with its line feed.
pub(crate) fn summary_line(
    alloc: Global,
    groups: u64,
    measures: &Measures,
    tokens: u64,
    version: u64,
) -> Result<Text, Memory>
    ensures { IfOk result (λ line. line ≡ spec.summary_line groups measures.now tokens version) }
{
    let mut out = Writer::new(Vec::with_capacity(alloc, 128)?);
    write_summary(&mut out, groups, measures, tokens, version)?;
    let mut line = out.into_inner();
    line.push(b'\n')?;
    Ok(Text::from_vec(line))
}
