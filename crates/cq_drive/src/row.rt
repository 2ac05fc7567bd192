ghost use Rattle.std.specs.Prelude.{◌≡◌, ◌<◌, IfSome, option_copied};
ghost use Rattle.serde_json.specs.View.{view};
ghost use Rattle.cq_drive.specs.Rows as rows;

use cq_base::Settings;
use cq_request::{Op, Ruled, fault_in, op_of, text_at};
use serde_json::Value;

/// How many callers there are.
pub(crate) const CALLERS: u32 = 16;

/// What a line can tell to do.
#[derive(Clone, Copy, Debug, PartialEq, Eq)]
pub(crate) enum StepKind {
    Accept,
    Ask,
    Took,
    Back,
    Done,
    Apply,
    Publish,
    Open,
    Read,
    Reply,
    Shut,
    Floor,
    Sweep,
}

/// The fields that steps have.
#[derive(Clone, Copy, Debug, PartialEq, Eq)]
pub(crate) enum Field {
    By,
    Change,
    /// One of so many shards.
    Shard(u32),
    Version,
    Key,
    /// A request that brings a change.
    ChangeRequest,
    /// A request that asks a query.
    QueryRequest,
}

fn kind_named(word: &str) -> Option<StepKind>
    ensures { result ≡ rows.kind_named word.now }
{
    match word {
        "accept" => Some(StepKind::Accept),
        "ask" => Some(StepKind::Ask),
        "took" => Some(StepKind::Took),
        "back" => Some(StepKind::Back),
        "done" => Some(StepKind::Done),
        "apply" => Some(StepKind::Apply),
        "publish" => Some(StepKind::Publish),
        "open" => Some(StepKind::Open),
        "read" => Some(StepKind::Read),
        "reply" => Some(StepKind::Reply),
        "shut" => Some(StepKind::Shut),
        "floor" => Some(StepKind::Floor),
        "sweep" => Some(StepKind::Sweep),
        _ => None,
    }
}

/// What an object says to do, if it names a step.
pub(crate) fn kind_of(value: &Value) -> Option<StepKind>
    ensures { result ≡ rows.kind_of (view value.now) }
{
    kind_named(text_at(value, "step")?)
}

/// The whole number that a value is, if it is below a bound.
pub(crate) fn below(value: &Value, bound: u32) -> Option<u32>
    ensures number { result ≡ rows.below bound (view value.now) }
    ensures less { IfSome result (λ n. n < bound) }
{
    let number = value.as_u64()?;
    if number < bound as u64 {
        Some(number as u32)
    } else {
        None
    }
}

fn is_change(op: Op) -> bool
    ensures { result ≡ rows.is_change op }
{
    matches!(op, Op::Put | Op::Drop | Op::Gate)
}

fn is_query(op: Op) -> bool
    ensures { result ≡ rows.is_query op }
{
    matches!(
        op,
        Op::Files | Op::Groups | Op::Measures | Op::Verdict | Op::Functions
    )
}

fn is_change_request(value: &Value) -> bool
    ensures { result ≡ rows.is_change_request (view value.now) }
{
    match op_of(value) {
        Some(op) => is_change(op),
        None => false,
    }
}

fn is_query_request(value: &Value) -> bool
    ensures { result ≡ rows.is_query_request (view value.now) }
{
    match op_of(value) {
        Some(op) => is_query(op),
        None => false,
    }
}

impl Ruled for Field {
    ghost rule = { rows.rule_of };

    fn key(&self) -> &'static str {
        match *self {
            Field::By => "by",
            Field::Change => "change",
            Field::Shard(_) => "shard",
            Field::Version => "version",
            Field::Key => "key",
            Field::ChangeRequest => "request",
            Field::QueryRequest => "request",
        }
    }

    fn is_needed(&self) -> bool {
        true
    }

    fn is_of_form(&self, value: &Value) -> bool {
        match *self {
            Field::By => below(value, CALLERS).is_some(),
            Field::Change => value.is_u64(),
            Field::Shard(shards) => below(value, shards).is_some(),
            Field::Version => value.is_u64(),
            Field::Key => value.is_u64(),
            Field::ChangeRequest => is_change_request(value),
            Field::QueryRequest => is_query_request(value),
        }
    }
}

/// The member for which an object that says this is refused, if there is one.
pub(crate) fn fault_of<'v>(settings: &Settings, kind: StepKind, value: &'v Value) -> Option<&'v str>
    ensures { option_copied result ≡ rows.fault_of settings.now.shards kind (view value.now) }
{
    let shard = Field::Shard(settings.shards);
    match kind {
        StepKind::Accept => fault_in("step", &[Field::By, Field::ChangeRequest], value),
        StepKind::Ask => fault_in("step", &[Field::By], value),
        StepKind::Took => fault_in("step", &[Field::By], value),
        StepKind::Back => fault_in("step", &[Field::By, Field::Change], value),
        StepKind::Done => fault_in("step", &[Field::By, Field::Change], value),
        StepKind::Apply => fault_in("step", &[shard], value),
        StepKind::Publish => fault_in("step", &[Field::Version], value),
        StepKind::Open => fault_in("step", &[Field::By], value),
        StepKind::Read => fault_in("step", &[Field::By, shard, Field::Key], value),
        StepKind::Reply => fault_in("step", &[Field::By, Field::QueryRequest], value),
        StepKind::Shut => fault_in("step", &[Field::By], value),
        StepKind::Floor => fault_in("step", &[Field::Version], value),
        StepKind::Sweep => fault_in("step", &[shard], value),
    }
}
