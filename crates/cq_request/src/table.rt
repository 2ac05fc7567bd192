ghost use Rattle.std.specs.Prelude.{◌≡◌, map, option_copied};
ghost use Rattle.std.specs.List.{list_any};
ghost use Rattle.std.specs.Str.{bytes_eq};
ghost use Rattle.serde_json.specs.View.{view};
ghost use Rattle.serde_json.specs.Find.{get};
ghost use Rattle.cq_request.specs.Tables.{Rule};
ghost use Rattle.cq_request.specs.Tables as spec;

use serde_json::Value;

/// A field of a table.
pub trait Ruled {
    // what it asks of an object
    ghost rule: { Self → Rule };

    fn key(&self) -> &'static str
        ensures { result.now ≡ (rule self.now).key };

    /// Whether it has to be there.
    fn is_needed(&self) -> bool
        ensures { result ≡ (rule self.now).is_needed };

    fn is_of_form(&self, value: &Value) -> bool
        ensures { result ≡ (rule self.now).is_of_form (view value.now) };
}

fn is_good<F: Ruled>(field: &F, value: &Value) -> bool
    ensures { result
        ≡ spec.is_good (F.rule field.now) (get (F.rule field.now).key (view value.now)) }
{
    match value.get(field.key()) {
        Some(member) => field.is_of_form(member),
        None => !field.is_needed(),
    }
}

fn bad_field<F: Ruled>(row: &[F], value: &Value) -> Option<&'static str>
    ensures { option_copied result ≡ spec.bad_field (map F.rule row.now) (view value.now) }
{
    for field in row {
        if !is_good(field, value) {
            return Some(field.key());
        }
    }
    None
}

fn has_field<F: Ruled>(row: &[F], key: &str) -> bool
    ensures { result ≡ list_any (λ r. bytes_eq key.now r.key) (map F.rule row.now) }
{
    for field in row {
        if key == field.key() {
            return true;
        }
    }
    false
}

fn is_of_row<F: Ruled>(head: &str, row: &[F], key: &str) -> bool
    ensures { result ≡ spec.is_of_row head.now (map F.rule row.now) key.now }
{
    key == head || has_field(row, key)
}

// The members are in the order of their keys, so that the first is the least.
fn other_key<'v, F: Ruled>(head: &str, row: &[F], value: &'v Value) -> Option<&'v str>
    ensures { option_copied result ≡ spec.other_key head.now (map F.rule row.now) (view value.now) }
{
    let members = value.as_object()?;
    for name in members.keys() {
        if !is_of_row(head, row, name.as_str()) {
            return Some(name.as_str());
        }
    }
    None
}

/// The member for which an object is refused that is to have the fields of a row: the first field that is missing or
/// not of its form, or else the least key by bytes that is neither `head` nor in the row.
pub fn fault_in<'v, F: Ruled>(head: &str, row: &[F], value: &'v Value) -> Option<&'v str>
    ensures { option_copied result ≡ spec.fault_in head.now (map F.rule row.now) (view value.now) }
{
    match bad_field(row, value) {
        Some(name) => Some(name),
        None => other_key(head, row, value),
    }
}
