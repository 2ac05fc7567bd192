ghost use Rattle.std.specs.Prelude.{◌≡◌, ◌<◌, ◌^◌, length, map, slice_index_or, All, IfOk, OnOk};
ghost use Rattle.cq_base.specs.declared.token.Spelled.{Spelled};
ghost use Rattle.cq_tokform.specs.Spelling as spell;
ghost use Rattle.cq_tokform.specs.Sound.{HasSpelling};
ghost use Rattle.cq_tokform.specs.Writing.{AddsBytes};
ghost use Rattle.cq_tokfile.specs.Snapshot as spec;

use crate::lengths::{body_length, seen_at};
use crate::snapshot::Snapshot;
use cq_base::{Memory, Settings, Steps, Token};
use cq_projects::{Held, ProjectFiles};
use cq_tokens::Tokens;
use cq_tokform::{
    put_conditions, put_front, put_functions, put_head_of, put_mark, put_token, put_u32, put_u64,
};
use cq_work::Work;
use std::alloc::Global;
use std::sync::ledger::Ledger;

/// What a snapshot is written as.
#[derive(Debug, Drop)]
pub enum Encoded {
    /// Its token file.
    Bytes(Vec<u8>),
    /// Nothing: its body would have more than 268,435,456 bytes.
    TooLarge,
}

// Writes a token with its place.
fn put_token_at<L: Ledger>(
    out: &mut Vec<u8>,
    spans: &[Token],
    tokens: &Tokens<L>,
    i: u32,
    steps: &mut Steps<L>,
) -> Result<(), Memory>
    requires within { i < length tokens.now }
    requires same { length spans.now ≡ length tokens.now }
    requires short { All (λ n. length n.text < 2 ^ 32) tokens.now }
    ensures { OnOk result ((d : Spelled) → AddsBytes
        (spell.token (slice_index_or (spec.spelled_of spans.now tokens.now) i d))
        out.old out.new) }
{
    let seen = seen_at(tokens, i, steps);
    put_token(out, spans[i as usize], seen.text)?;
    Ok(())
}

// Writes how many tokens there are, and each of them with its place.
fn put_spelled<L: Ledger>(
    out: &mut Vec<u8>,
    spans: &[Token],
    tokens: &Tokens<L>,
    steps: &mut Steps<L>,
) -> Result<(), Memory>
    requires same { length spans.now ≡ length tokens.now }
    requires short { All (λ n. length n.text < 2 ^ 32) tokens.now }
    ensures { OnOk result (AddsBytes
        (spell.counted spell.token (spec.spelled_of spans.now tokens.now)) out.old out.new) }
{
    put_u32(out, tokens.len())?;
    for i in 0..tokens.len() {
        put_token_at(out, spans, tokens, i, steps)?;
    }
    Ok(())
}

// Writes a file with its work.
fn put_held<L: Ledger>(
    out: &mut Vec<u8>,
    held: &Held<Work<L>>,
    steps: &mut Steps<L>,
) -> Result<(), Memory>
    requires spelled { HasSpelling (spec.record_of held.now) }
    requires parts { spec.HasTokenForEachPlace held.now }
    ensures { OnOk result (AddsBytes (spell.file (spec.record_of held.now)) out.old out.new) }
{
    let work = &held.work;
    put_front(
        out,
        &held.path,
        held.change,
        held.lang,
        work.state,
        work.counts,
    )?;
    put_spelled(out, work.spans.as_slice(), &work.tokens, steps)?;
    put_functions(out, work.functions.as_slice())?;
    Ok(())
}

// Writes how many files there are, and each of them with its work.
fn put_all<L: Ledger>(
    out: &mut Vec<u8>,
    files: &ProjectFiles<Work<L>>,
    steps: &mut Steps<L>,
) -> Result<(), Memory>
    requires spelled { All (λ f. HasSpelling (spec.record_of f)) files.now }
    requires parts { All spec.HasTokenForEachPlace files.now }
    ensures { OnOk result (AddsBytes
        (spell.counted spell.file (map spec.record_of files.now)) out.old out.new) }
{
    put_u32(out, files.len())?;
    for i in 0..files.len() {
        put_held(out, files.at(i), steps)?;
    }
    Ok(())
}

// Writes the body of a snapshot.
fn put_body<L: Ledger>(
    out: &mut Vec<u8>,
    settings: &Settings,
    snapshot: &Snapshot<L>,
    steps: &mut Steps<L>,
) -> Result<(), Memory>
    requires { spec.IsSoundSnapshot settings.now snapshot.now }
    ensures { OnOk result
        (AddsBytes (spell.body settings.now (spec.contents_of snapshot.now)) out.old out.new) }
{
    put_head_of(out, settings, snapshot.version, &snapshot.project)?;
    put_conditions(out, snapshot.conditions.as_slice())?;
    put_all(out, &snapshot.files, steps)?;
    Ok(())
}

/// The token file of a snapshot under these settings, or that its body would be too large, which is decided before a byte
/// is written. It costs two reads of each token, and memory only for the file.
pub fn encode<L: Ledger>(
    alloc: Global,
    settings: &Settings,
    snapshot: &Snapshot<L>,
    steps: &mut Steps<L>,
) -> Result<Encoded, Memory>
    requires { spec.IsSoundSnapshot settings.now snapshot.now }
    ensures { IfOk result (λ encoded. spec.Encodes settings.now snapshot.now encoded) }
{
    let len = body_length(snapshot, steps);
    if len > 268_435_456 {
        return Ok(Encoded::TooLarge);
    }
    let mut out = Vec::with_capacity(alloc, len as usize + 16)?;
    put_mark(&mut out)?;
    put_u64(&mut out, len)?;
    put_body(&mut out, settings, snapshot, steps)?;
    Ok(Encoded::Bytes(out))
}
