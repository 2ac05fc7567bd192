ghost use Rattle.std.specs.Prelude.{◌≡◌, ◌≤◌, ◌&&◌, Some, IfOk, IfErr, IfSome, true, not, codes, length, None, is_some};
ghost use Rattle.std.specs.Str.{IsUtf8};
ghost use Rattle.serde_json.specs.View.{view};
ghost use Rattle.cq_request.specs.Members as members;
ghost use Rattle.cq_base.specs.Changes.{IsSoundChange};
ghost use Rattle.cq_base.specs.Refusals.{IsSoundRefusal};
ghost use Rattle.cq_base.specs.Tables.{lang_named};
ghost use Rattle.cq_request.specs.Sound.{IsSound, IsSoundQuery, IsSoundError};
ghost use Rattle.cq_request.specs.Reading as spec;
ghost use Rattle.cq_request.specs.Spelled.{spelled};
ghost use Rattle.cq_request.specs.Reading.{UnlessMemory, IsNoJson, value_says, line_says};
ghost use Rattle.cq_names.specs.Names as names;
ghost use Rattle.cq_request.specs.Text as text;

use crate::condition::conditions_in;
use crate::gist::line_gist;
use crate::member::{flag_at, list_at, number_at, taken_text, text_at};
use crate::request::{Kind, Query, ReadError, Request};
use crate::row::{Op, fault_of, op_of};
use crate::text::is_short;
use cq_base::{Change, Conditions, Lang, Memory, Refusal, Settings, Text};
use cq_names::is_path_text;
use serde_json::Value;
use std::alloc::Global;

fn lang_passes(value: &Value) -> bool
    ensures { result ≡ spec.text_passes
        (λ name. is_some (lang_named name)) (codes "lang") (view value.now) }
{
    match text_at(value, "lang") {
        Some(name) => Lang::named(name).is_some(),
        None => true,
    }
}

fn path_passes(value: &Value) -> bool
    ensures { result ≡ spec.text_passes names.is_path_text (codes "path") (view value.now) }
{
    match text_at(value, "path") {
        Some(path) => is_path_text(path),
        None => true,
    }
}

fn text_passes(value: &Value) -> bool
    ensures { result ≡ spec.text_passes text.is_short (codes "text") (view value.now) }
{
    match text_at(value, "text") {
        Some(text) => is_short(text),
        None => true,
    }
}

fn min_passes(settings: &Settings, value: &Value) -> bool
    ensures { result ≡ spec.min_passes settings.now.chunk (view value.now) }
{
    match number_at(value, "min") {
        Some(min) => settings.chunk as u64 <= min && min <= 100_000,
        None => true,
    }
}

fn has_path(value: &Value) -> bool
    ensures { result ≡ is_some (members.text_at (codes "path") (view value.now)) }
{
    match text_at(value, "path") {
        Some(_) => true,
        None => false,
    }
}

// Whether a scope is a path, and no path is given beside it.
fn is_lone_path(scope: &str, value: &Value) -> bool
    ensures { result ≡ (names.is_path_text scope.now
        && not (is_some (members.text_at (codes "path") (view value.now)))) }
{
    is_path_text(scope) && !has_path(value)
}

fn scope_passes(value: &Value) -> bool
    ensures { result ≡ spec.scope_passes (view value.now) }
{
    match text_at(value, "scope") {
        Some(scope) => is_lone_path(scope, value),
        None => true,
    }
}

fn value_refused(settings: &Settings, value: &Value) -> Option<Refusal>
    ensures refused { result ≡ spec.value_refused settings.now.chunk (view value.now) }
    ensures named { IfSome result IsSoundRefusal }
{
    if !lang_passes(value) {
        return Some(Refusal::Lang);
    }
    if !path_passes(value) {
        return Some(Refusal::Path);
    }
    if !text_passes(value) {
        return Some(Refusal::TooMuchText);
    }
    if !min_passes(settings, value) {
        return Some(Refusal::Min);
    }
    if !scope_passes(value) {
        return Some(Refusal::Scope);
    }
    None
}

fn why_refused(
    alloc: Global,
    settings: &Settings,
    op: Op,
    value: &Value,
) -> Result<Option<Refusal>, Memory>
    ensures refused { IfOk result
        (λ r. r ≡ spec.why_refused settings.now.chunk op (view value.now)) }
    ensures named { IfOk result (λ r. IfSome r IsSoundRefusal) }
{
    match fault_of(op, value) {
        Some(name) => {
            let name = Text::from_bytes(alloc, name.as_bytes())?;
            Ok(Some(Refusal::Field(name)))
        }
        None => Ok(value_refused(settings, value)),
    }
}

fn text_or(alloc: Global, value: &Value, key: &str) -> Result<Text, Memory>
    ensures text { IfOk result (λ t. t ≡ spec.text_or key.now (view value.now)) }
    ensures utf8 { IfOk result IsUtf8 }
{
    match text_at(value, key) {
        Some(text) => Text::from_bytes(alloc, text.as_bytes()),
        None => Ok(Text::from_vec(Vec::new(alloc))),
    }
}

fn copied_at(alloc: Global, value: &Value, key: &str) -> Result<Option<Text>, Memory>
    ensures text { IfOk result (λ t. t ≡ members.text_at key.now (view value.now)) }
    ensures utf8 { IfOk result (λ t. IfSome t IsUtf8) }
{
    match text_at(value, key) {
        Some(text) => Ok(Some(Text::from_bytes(alloc, text.as_bytes())?)),
        None => Ok(None),
    }
}

fn lang_or(value: &Value) -> Lang
    ensures { result ≡ spec.lang_or (view value.now) }
{
    match text_at(value, "lang") {
        Some(name) => Lang::named(name).unwrap_or(Lang::Any),
        None => Lang::Any,
    }
}

fn conditions_or(alloc: Global, value: &Value) -> Result<Conditions, Memory>
    ensures { IfOk result (λ c. c ≡ spec.conditions_or (view value.now)) }
{
    match list_at(value, "conditions") {
        Some(values) => conditions_in(alloc, values),
        None => Ok(Conditions::from_vec(Vec::new(alloc))),
    }
}

fn min_or(settings: &Settings, value: &Value) -> u32
    requires passes { spec.min_passes settings.now.chunk (view value.now) ≡ true }
    ensures min { result ≡ spec.min_or settings.now.chunk (view value.now) }
    ensures window { settings.now.chunk ≤ result }
{
    match number_at(value, "min") {
        Some(min) => min as u32,
        None => settings.chunk.max(100),
    }
}

fn query_of(alloc: Global, settings: &Settings, kind: Kind, value: &Value) -> Result<Query, Memory>
    requires accepted { spec.why_refused settings.now.chunk (spec.op_asking kind) (view value.now)
        ≡ None }
    ensures query { IfOk result (λ q. q ≡ spec.query_of settings.now.chunk kind (view value.now)) }
    ensures sound { IfOk result (IsSoundQuery settings.now.chunk) }
{
    let path = copied_at(alloc, value, "path")?;
    let scope = copied_at(alloc, value, "scope")?;
    Ok(Query {
        kind,
        project: text_or(alloc, value, "project")?,
        path,
        min: min_or(settings, value),
        at: number_at(value, "at").unwrap_or(0),
        finish: flag_at(value, "finish").unwrap_or(true),
        scope,
        since: number_at(value, "since").unwrap_or(0),
    })
}

fn put_of(alloc: Global, value: Value) -> Result<Change, Memory>
    requires passes { spec.text_passes text.is_short (codes "text") (view value) ≡ true }
    ensures change { IfOk result (λ c. c ≡ spec.put_of (view value)) }
    ensures sound { IfOk result IsSoundChange }
{
    let project = text_or(alloc, &value, "project")?;
    let path = text_or(alloc, &value, "path")?;
    let lang = lang_or(&value);
    Ok(Change::Put {
        project,
        path,
        lang,
        text: taken_text(alloc, value),
    })
}

fn drop_of(alloc: Global, value: &Value) -> Result<Change, Memory>
    ensures change { IfOk result (λ c. c ≡ spec.drop_of (view value.now)) }
    ensures sound { IfOk result IsSoundChange }
{
    Ok(Change::Drop {
        project: text_or(alloc, value, "project")?,
        path: text_or(alloc, value, "path")?,
    })
}

fn gate_of(alloc: Global, value: &Value) -> Result<Change, Memory>
    requires few { length (spec.conditions_or (view value.now)) ≤ 32 }
    ensures change { IfOk result (λ c. c ≡ spec.gate_of (view value.now)) }
    ensures sound { IfOk result IsSoundChange }
{
    Ok(Change::Gate {
        project: text_or(alloc, value, "project")?,
        conditions: conditions_or(alloc, value)?,
    })
}

fn request_of(alloc: Global, settings: &Settings, op: Op, value: Value) -> Result<Request, Memory>
    requires accepted { spec.why_refused settings.now.chunk op (view value) ≡ None }
    ensures request { IfOk result (λ r. r ≡ spec.request_of settings.now.chunk op (view value)) }
    ensures sound { IfOk result (IsSound settings.now.chunk) }
{
    match op {
        Op::Put => Ok(Request::Change(put_of(alloc, value)?)),
        Op::Drop => Ok(Request::Change(drop_of(alloc, &value)?)),
        Op::Gate => Ok(Request::Change(gate_of(alloc, &value)?)),
        Op::Files => Ok(Request::Query(query_of(alloc, settings, Kind::Files, &value)?)),
        Op::Groups => Ok(Request::Query(query_of(alloc, settings, Kind::Groups, &value)?)),
        Op::Measures => Ok(Request::Query(query_of(alloc, settings, Kind::Measures, &value)?)),
        Op::Verdict => Ok(Request::Query(query_of(alloc, settings, Kind::Verdict, &value)?)),
        Op::Functions => Ok(Request::Query(query_of(alloc, settings, Kind::Functions, &value)?)),
        Op::State => Ok(Request::State),
    }
}

/// The request that a value is, or why it is refused. `Json` comes exactly if it is not an object; the other refusals
/// come in the order of the enum. The value's text is moved into the request.
pub fn read_value(alloc: Global, settings: &Settings, value: Value) -> Result<Request, ReadError>
    ensures says { UnlessMemory result (value_says settings.now.chunk (view value)) }
    ensures sound { IfOk result (IsSound settings.now.chunk) }
    ensures named { IfErr result IsSoundError }
{
    if !value.is_object() {
        return Err(ReadError::Refused(Refusal::Json));
    }
    let Some(op) = op_of(&value) else {
        return Err(ReadError::Refused(Refusal::Op));
    };
    match why_refused(alloc, settings, op, &value)? {
        Some(refusal) => Err(ReadError::Refused(refusal)),
        None => Ok(request_of(alloc, settings, op, value)?),
    }
}

/// The value that a line spells. `Json` comes exactly if `serde_json` gives none for a cause other than memory.
pub fn parsed(alloc: Global, line: &[u8]) -> Result<Value, ReadError>
    ensures spelled { IfOk result (λ v. spelled line.now ≡ Some (view v)) }
    ensures refused { IfErr result (IsNoJson line.now) }
{
    match Value::from_slice(alloc, line) {
        Ok(value) => Ok(value),
        Err(error) => {
            if error.is_memory() {
                return Err(ReadError::Memory);
            }
            Err(ReadError::Refused(Refusal::Json))
        }
    }
}

/// The request that a line spells, or why it is refused: `Json` exactly if `serde_json` gives no value for it, or one
/// that is not an object.
pub fn read_request(alloc: Global, settings: &Settings, line: &[u8]) -> Result<Request, ReadError>
    ensures says { UnlessMemory result (line_says settings.now.chunk line.now) }
    ensures sound { IfOk result (IsSound settings.now.chunk) }
    ensures named { IfErr result IsSoundError }
{
    match line_gist(alloc, line) {
        Ok(value) => read_value(alloc, settings, value),
        Err(error) => Err(error),
    }
}
