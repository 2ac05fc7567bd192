ghost use Rattle.std.specs.Prelude.{◌≡◌, ◌≤◌, ◌<◌, ◌^◌, IfSome, length};
ghost use Rattle.cq_lex_java.specs.Escapes.{marks_of, hex_value, four_digits, escape_at, scalar, joined, pair_of, step_at, IsStepWithin, IsEscapeLong};

use cq_munch::Unit;

/// What a backslash begins.
#[derive(Clone, Copy, Debug, PartialEq, Eq)]
enum Escape {
    /// No Unicode escape is begun.
    None,
    /// One is begun, and lacks its four digits.
    Bad,
    /// A UTF-16 code unit, and how many units spell it.
    Code(u32, usize),
}

/// What a backslash is read as.
#[derive(Clone, Copy, Debug, PartialEq, Eq)]
pub(crate) enum Step {
    /// Itself.
    Plain,
    /// A fault.
    Fault,
    /// This character, which this many units spell.
    One(char, usize),
}

// How many u are at the front.
fn marks_of(units: &[Unit]) -> usize
    ensures marks { result ≡ marks_of units.now }
    ensures within { result ≤ length units.now }
{
    let mut marks = 0;
    for unit in units {
        if unit.ch != 'u' {
            return marks;
        }
        marks += 1;
    }
    marks
}

fn hex_value(ch: char) -> Option<u32>
    ensures value { result ≡ hex_value ch }
    ensures below { IfSome result (λ n. n < 16) }
{
    ch.to_digit(16)
}

// The number that four hexadecimal digits at the front write.
fn four_digits(units: &[Unit]) -> Option<u32>
    ensures { result ≡ four_digits units.now }
{
    match units {
        [a, b, c, d, ..] => {
            let a = hex_value(a.ch)?;
            let b = hex_value(b.ch)?;
            let c = hex_value(c.ch)?;
            let d = hex_value(d.ch)?;
            Some(((a * 16 + b) * 16 + c) * 16 + d)
        }
        _ => None,
    }
}

fn escape_at(units: &[Unit]) -> Escape
    ensures escape { result ≡ escape_at units.now }
    ensures within { IsEscapeLong (length units.now) result }
{
    match units {
        [first, rest @ ..] => {
            if first.ch != '\\' {
                return Escape::None;
            }
            let marks = marks_of(rest);
            if marks == 0 {
                return Escape::None;
            }
            match four_digits(&rest[marks..]) {
                None => Escape::Bad,
                Some(code) => Escape::Code(code, marks + 5),
            }
        }
        [] => Escape::None,
    }
}

fn scalar(code: u32) -> Option<char>
    ensures { result ≡ scalar code }
{
    char::from_u32(code)
}

// The character that a high and a low surrogate write together.
fn joined(high: u32, low: u32) -> Option<char>
    requires { low < 2 ^ 16 }
    ensures { result ≡ joined high low }
{
    if high >= 0xD800 && high < 0xDC00 && low >= 0xDC00 && low < 0xE000 {
        scalar(0x10000 + (high - 0xD800) * 0x400 + (low - 0xDC00))
    } else {
        None
    }
}

// The character of a high surrogate that this many units spell, and of the low one after it.
fn pair_at(high: u32, len: usize, rest: &[Unit]) -> Step
    requires { len < 2 ^ 63 }
    ensures { result ≡ pair_of high len (escape_at rest.now) }
{
    match escape_at(rest) {
        Escape::Code(low, more) => match joined(high, low) {
            Some(ch) => Step::One(ch, len + more),
            None => Step::Plain,
        },
        Escape::None | Escape::Bad => Step::Plain,
    }
}

/// What the backslash at the front is read as, if an even number of backslashes comes before it.
pub(crate) fn step_at(units: &[Unit]) -> Step
    ensures step { result ≡ step_at units.now }
    ensures within { IsStepWithin (length units.now) result }
{
    match escape_at(units) {
        Escape::None => Step::Plain,
        Escape::Bad => Step::Fault,
        Escape::Code(code, len) => match scalar(code) {
            Some(ch) => Step::One(ch, len),
            None => pair_at(code, len, &units[len..]),
        },
    }
}
