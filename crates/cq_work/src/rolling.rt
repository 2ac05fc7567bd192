ghost use Rattle.std.specs.Prelude.{◌≡◌, ◌+◌, ◌*◌, ◌^◌, ◌%◌};
ghost use Rattle.cq_work.specs.Keys as spec;

use crate::code::{FACTOR, folded};
use crate::plain::lowest_bits;
use cq_base::Settings;

/// What the first code of a window weighs in the key of the next: the factor once for each code of a window.
pub(crate) fn weight(settings: &Settings) -> u64
    ensures { result ≡ spec.weight settings.now }
{
    FACTOR.wrapping_pow(settings.chunk)
}

// A key with one code more, less what the code that goes out weighs.
fn exchanged(key: u64, weight: u64, outgoing: u64, incoming: u64) -> u64
    ensures { (weight * (outgoing + 1) + result) % 2 ^ 64 ≡ spec.folded key incoming }
{
    folded(key, incoming).wrapping_sub(outgoing.wrapping_add(1).wrapping_mul(weight))
}

/// The key of the next window, of the key before, the code that leaves in front, and the code that comes in at the end.
pub(crate) fn rolled(
    settings: &Settings,
    weight: u64,
    key: u64,
    outgoing: u64,
    incoming: u64,
) -> u64
    requires { weight ≡ spec.weight settings.now }
    ensures { spec.Rolls settings.now outgoing incoming key result }
{
    let exchanged = exchanged(key, weight, outgoing, incoming);
    lowest_bits(exchanged, settings.key_bits)
}
