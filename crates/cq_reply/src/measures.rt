ghost use Rattle.std.specs.Prelude.{OnOk, map};
ghost use Rattle.serde_json.specs.Data.{array};
ghost use Rattle.serde_json.specs.View.{items_of};
ghost use Rattle.cq_reply.specs.Added.{AddsValue};
ghost use Rattle.cq_reply.specs.Written.{count, measures_members, measures_data, failed_data, verdict_data};

use crate::member::{write_count, write_flag, write_number, write_string};
use cq_base::{Measures, Metric};
use cq_measures::Verdict;
use json::Writer;
use std::alloc::AllocError;

/// The measures, by SonarQube's metric keys.
pub fn write_metrics(out: &mut Writer, measures: &Measures) -> Result<(), AllocError>
    ensures { OnOk result (AddsValue (measures_members measures.now) out.old out.new) }
{
    out.begin_object()?;
    let metrics = Metric::all();
    for metric in metrics {
        write_number(out, metric.name(), measures.get(*metric))?;
    }
    out.end_object()
}

/// The measures of a part of a project at a version.
pub(crate) fn write_measures(
    out: &mut Writer,
    measures: &Measures,
    version: u64,
) -> Result<(), AllocError>
    ensures { OnOk result (AddsValue (measures_data measures.now version) out.old out.new) }
{
    out.begin_object()?;
    out.key("measures")?;
    write_metrics(out, measures)?;
    write_flag(out, "ok", true)?;
    write_number(out, "version", version)?;
    out.end_object()
}

fn write_counts(out: &mut Writer, counts: &[u32]) -> Result<(), AllocError>
    ensures { OnOk result (AddsValue (array (items_of (map count counts.now))) out.old out.new) }
{
    out.begin_array()?;
    for count in counts {
        write_count(out, *count as u64)?;
    }
    out.end_array()
}

fn write_failed(
    out: &mut Writer,
    failed: &[u32],
    word: &str,
    version: u64,
) -> Result<(), AllocError>
    ensures { OnOk result (AddsValue (failed_data failed.now word.now version) out.old out.new) }
{
    out.begin_object()?;
    out.key("failed")?;
    write_counts(out, failed)?;
    write_flag(out, "ok", true)?;
    write_string(out, "verdict", word)?;
    write_number(out, "version", version)?;
    out.end_object()
}

/// What the project's gate says of its measures at a version.
pub(crate) fn write_verdict(
    out: &mut Writer,
    verdict: &Verdict,
    version: u64,
) -> Result<(), AllocError>
    ensures { OnOk result (AddsValue (verdict_data verdict.now version) out.old out.new) }
{
    match verdict {
        Verdict::Ok => write_failed(out, &[], "OK", version),
        Verdict::Error(failed) => write_failed(out, failed.as_slice(), "ERROR", version),
    }
}
