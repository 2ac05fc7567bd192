//! The numbers of a line.

ghost use Rattle.std.specs.Prelude.{◌≡◌, ◌==◌, ◌<◌, length, slice_index, true, Some, None, is_some, option_map, IfOk, IfErr, IfSome, IsTrue};
ghost use Rattle.std.specs.Float.{binary64, float_is_finite};
ghost use Rattle.fast_float.specs.Text.{nearest, scan};
ghost use Rattle.json.specs.Print.{IsNumber};
ghost use Rattle.serde_json.specs.Data.{number, unsigned};
ghost use Rattle.serde_json.specs.Read.{number_of};
ghost use Rattle.serde_json.specs.View.{view};
ghost use Rattle.cq_request.specs.Valued.{IsJsonFor};

use crate::request::ReadError;
use cq_base::Refusal;
use fast_float::Numeral;
use serde_json::Value;
use std::alloc::Global;

/// The value that a number spells. `Json` comes exactly if it is too large to have one.
pub(crate) fn number_value(alloc: Global, text: &str) -> Result<Value, ReadError>
    requires numeral { IsNumber text.now }
    ensures value { IfOk result (λ v. option_map number (number_of text.now) ≡ Some (view v)) }
    ensures refused { IfErr result (IsJsonFor (number_of text.now ≡ None)) }
{
    match integer_in(text) {
        Some(integer) => Ok(Value::from(integer)),
        None => parsed_number(alloc, text),
    }
}

/// The same for any number, by a parser of its own: it takes more memory and time than an integer does.
pub(crate) fn parsed_number(alloc: Global, text: &str) -> Result<Value, ReadError>
    requires numeral { IsNumber text.now }
    ensures value { IfOk result (λ v. option_map number (number_of text.now) ≡ Some (view v)) }
    ensures refused { IfErr result (IsJsonFor (number_of text.now ≡ None)) }
{
    match Value::from_str(alloc, text) {
        Ok(value) => Ok(value),
        Err(error) => {
            if error.is_memory() {
                return Err(ReadError::Memory);
            }
            Err(ReadError::Refused(Refusal::Json))
        }
    }
}

// The integer that a number is, if it has no sign and fits 64 bits.
fn integer_in(text: &str) -> Option<u64>
    ensures { IfSome result (λ n. number_of text.now ≡ Some (unsigned n)) }
{
    let bytes = text.as_bytes();
    if is_negative(bytes) {
        return None;
    }
    Numeral::scan(bytes).to_u64()
}

/// Whether the float nearest to a number is finite, so that it has a value.
pub(crate) fn is_finite(number: &str) -> bool
    ensures { IsTrue result → is_some (number_of number.now) ≡ true }
{
    let bytes = number.as_bytes();
    if is_negative(bytes) {
        return is_finite_numeral(true, &bytes[1..]);
    }
    is_finite_numeral(false, bytes)
}

fn is_negative(bytes: &[u8]) -> bool
    ensures value { result ≡ (slice_index bytes.now 0 == 45) }
    ensures first { IsTrue result → 0 < length bytes.now }
{
    match bytes.first() {
        Some(first) => *first == b'-',
        None => false,
    }
}

fn is_finite_numeral(is_negative: bool, digits: &[u8]) -> bool
    ensures { result ≡ float_is_finite (nearest binary64 is_negative (scan digits.now)) }
{
    Numeral::scan(digits)
        .to_float::<f64>(is_negative)
        .is_finite()
}
