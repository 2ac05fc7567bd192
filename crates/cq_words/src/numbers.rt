ghost use Rattle.std.specs.Prelude.{◌≡◌, true, ◌≤◌, fold, is_some, option_map, IfSome};
ghost use Rattle.std.specs.List.{list_all};
ghost use Rattle.cq_words.specs.Numbers as spec;
ghost use Rattle.cq_words.specs.Table as table;

use crate::table::{Param, range_of};
use cq_names::is_project;

fn are_digits(bytes: &[u8]) -> bool
    ensures { result ≡ list_all spec.is_digit bytes.now }
{
    bytes.iter().all(|b| *b >= b'0' && *b <= b'9')
}

fn is_numeral(bytes: &[u8]) -> bool
    ensures { result ≡ spec.is_numeral bytes.now }
{
    !bytes.is_empty() && bytes.len() <= 19 && are_digits(bytes)
}

fn capped_value(bytes: &[u8]) -> u64
    ensures { result ≡ fold spec.with_capped_digit 0 bytes.now }
{
    bytes.iter().fold(0u64, |n, b| {
        n.saturating_mul(10)
            .saturating_add(b.saturating_sub(b'0') as u64)
    })
}

fn value_of(bytes: &[u8]) -> u64
    requires { spec.is_numeral bytes.now ≡ true }
    ensures { result ≡ spec.decimal bytes.now }
{
    capped_value(bytes)
}

fn number_of(bytes: &[u8]) -> Option<u64>
    ensures { result ≡ spec.number_of bytes.now }
{
    if is_numeral(bytes) {
        Some(value_of(bytes))
    } else {
        None
    }
}

/// The number of 1 to 19 digits, if it is in its range.
pub(crate) fn number_within(low: u64, high: u64, bytes: &[u8]) -> Option<u64>
    ensures value { result ≡ spec.number_within low high bytes.now }
    ensures within { IfSome result (λ n. n ≤ high) }
    ensures above { IfSome result (λ n. low ≤ n) }
{
    let number = number_of(bytes)?;
    if number >= low && number <= high {
        Some(number)
    } else {
        None
    }
}

// Whether the number of bytes is in the range.
fn is_count_within(low: u64, high: u64, bytes: &[u8]) -> bool
    ensures { result ≡ is_some (table.text_within low high bytes.now) }
{
    let count = bytes.len() as u64;
    count >= low && count <= high
}

/// Whether the bytes are a valid text: the name of a project, or no more than an address may have.
pub(crate) fn is_taken(param: Param, bytes: &[u8]) -> bool
    ensures { result ≡ is_some (table.text_taken param bytes.now) }
{
    match param {
        Param::Project => is_project(bytes),
        _ => {
            let range = range_of(param);
            is_count_within(range.low, range.high, bytes)
        }
    }
}

/// The text itself, if it is valid.
pub(crate) fn text_taken<'a>(param: Param, text: &'a str) -> Option<&'a str>
    ensures { option_map (λ t. t.now) result ≡ table.text_taken param text.entry.now }
{
    if is_taken(param, text.as_bytes()) {
        Some(text)
    } else {
        None
    }
}
