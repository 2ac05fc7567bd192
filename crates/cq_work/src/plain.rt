ghost use Rattle.std.specs.Prelude.{◌≡◌, fold};
ghost use Rattle.cq_work.specs.Keys as spec;

use crate::code::folded;
use cq_base::Settings;

fn codes_folded(codes: &[u64]) -> u64
    ensures { result ≡ fold spec.folded 0 codes.now }
{
    codes.iter().fold(0, |key, code| folded(key, *code))
}

/// As many bits of a key as are kept.
pub(crate) fn lowest_bits(key: u64, bits: u32) -> u64
    ensures { result ≡ spec.lowest key bits }
{
    if bits >= 64 {
        return key;
    }
    key % (1u64 << bits)
}

/// The key of some codes; of those of a window's tokens it is the window's key. It takes no memory.
pub fn plain_key(settings: &Settings, codes: &[u64]) -> u64
    ensures { result ≡ spec.key_of settings.now codes.now }
{
    lowest_bits(codes_folded(codes), settings.key_bits)
}
