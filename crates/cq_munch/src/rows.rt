ghost use Rattle.std.specs.Prelude.{◌≡◌, ◌<◌, ◌^◌, IfSome};
ghost use Rattle.cq_munch.specs.Table.{better, found_of};

use crate::element::{Found, Spell};

/// The longer of two elements.
pub fn better(a: Option<Found>, b: Option<Found>) -> Option<Found>
    ensures { result ≡ better a b }
{
    match (a, b) {
        (Some(x), Some(y)) => { if x.units < y.units { Some(y) } else { Some(x) } }
        (Some(x), None) => Some(x),
        (None, y) => y,
    }
}

/// The element of a row.
pub fn found_of(spell: Spell, mode: u64, len: Option<usize>) -> Option<Found>
    requires { IfSome len (λ n. n < 2 ^ 32) }
    ensures { result ≡ found_of spell mode len }
{
    match len {
        Some(n) => Some(Found {
            spell,
            units: n as u32,
            mode,
        }),
        None => None,
    }
}
