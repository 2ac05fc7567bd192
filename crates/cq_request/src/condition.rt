ghost use Rattle.std.specs.Prelude.{◌≡◌, IfOk, map};
ghost use Rattle.std.specs.List.{filter_map};
ghost use Rattle.serde_json.specs.View.{view};
ghost use Rattle.cq_request.specs.Conditions as conditions;

use crate::member::{member_count, number_at, text_at};
use cq_base::{Compare, Condition, Conditions, Memory, Metric};
use serde_json::Value;
use std::alloc::Global;

/// The condition that a value is, if it is one.
pub(crate) fn condition_of(value: &Value) -> Option<Condition>
    ensures { result ≡ conditions.condition_of (view value.now) }
{
    if member_count(value) != 3 {
        return None;
    }
    let metric = Metric::named(text_at(value, "metric")?)?;
    let op = Compare::named(text_at(value, "op")?)?;
    let error = number_at(value, "error")?;
    Some(Condition { metric, op, error })
}

fn are_all_conditions(values: &[Value]) -> bool
    ensures { result ≡ conditions.are_conditions (map view values.now) }
{
    if values.len() > 32 {
        return false;
    }
    for value in values {
        if condition_of(value).is_none() {
            return false;
        }
    }
    true
}

/// Whether a value is a list of at most 32 conditions.
pub(crate) fn is_condition_list(value: &Value) -> bool
    ensures { result ≡ conditions.is_condition_list (view value.now) }
{
    match value.as_array() {
        Some(values) => are_all_conditions(values),
        None => false,
    }
}

/// The conditions that the values are, in their order.
pub(crate) fn conditions_in(alloc: Global, values: &[Value]) -> Result<Conditions, Memory>
    ensures { IfOk result (λ c. c ≡ filter_map (λ v. conditions.condition_of (view v)) values.now) }
{
    let mut found = Vec::new(alloc);
    for value in values {
        if let Some(condition) = condition_of(value) {
            found.push(condition)?;
        }
    }
    Ok(Conditions::from_vec(found))
}
