ghost use Rattle.std.specs.Prelude.{◌≡◌, fold, map, IfOk};
ghost use Rattle.cq_work.specs.Keys as spec;

use cq_base::{Memory, Norm};
use std::alloc::Global;

pub(crate) const FACTOR: u64 = 6_364_136_223_846_793_005;

/// A key with one code more.
pub(crate) fn folded(key: u64, code: u64) -> u64
    ensures { result ≡ spec.folded key code }
{
    key.wrapping_mul(FACTOR).wrapping_add(code).wrapping_add(1)
}

fn bytes_folded(start: u64, bytes: &[u8]) -> u64
    ensures { result ≡ fold spec.folded start bytes.now }
{
    bytes.iter().fold(start, |key, b| folded(key, *b as u64))
}

fn code_of(norm: &Norm) -> u64
    ensures { result ≡ spec.code_of norm.now }
{
    let lang = folded(0, norm.lang.code() as u64);
    bytes_folded(folded(lang, norm.class.code() as u64), norm.text.as_bytes())
}

/// The code of each token.
pub(crate) fn codes_of(alloc: Global, norms: &[Norm]) -> Result<Vec<u64>, Memory>
    ensures { IfOk result (λ v. v.items ≡ map spec.code_of norms.now) }
{
    Ok(norms.iter().map(code_of).collect(alloc)?)
}
