ghost use Rattle.std.specs.Prelude.{◌<◌, ◌≤◌, ◌+◌, ◌↔◌, length, IfOk, IsTrue, Contains};
ghost use Rattle.std.specs.List.Sorted.{IsNonDecreasing};
ghost use Rattle.cq_tokens.specs.Parts.{tokens_in, keys_in};
ghost use Rattle.cq_groups.specs.Listing.{IsKey, IsKeyIn, IsRepeatedKey, AreAllRising, AreSoMany, GoesOn, times_in};

use cq_base::Memory;
use cq_tokens::{Corpus, Files};
use std::alloc::Global;

/// The different ones of the keys, in order.
fn different(keys: Vec<u64>) -> Vec<u64>
    ensures { AreAllRising (Contains keys.items) result.items }
{
    let mut keys = keys;
    keys.sort_unstable();
    keys.dedup();
    keys
}

/// Whether there is a key at the place, equal to the one before it.
fn goes_on(keys: &[u64], at: usize) -> bool
    ensures { IsTrue result ↔ GoesOn keys.now at }
{
    0 < at && at < keys.len() && keys[at - 1] == keys[at]
}

/// Of keys in order, those that are there more than once, each once, and how many are there once.
fn parted(alloc: Global, keys: &[u64]) -> Result<(Vec<u64>, u64), Memory>
    requires { IsNonDecreasing keys.now }
    ensures repeated { IfOk result
        (λ found. AreAllRising (λ k. 2 ≤ times_in keys.now k) found.0.items) }
    ensures number { IfOk result
        (λ found. AreSoMany (Contains keys.now) (length found.0.items + found.1)) }
{
    let mut repeated = Vec::new(alloc);
    let mut lone = 0;
    for at in 0..keys.len() {
        if !goes_on(keys, at) {
            if goes_on(keys, at + 1) {
                repeated.push(keys[at])?;
            } else {
                lone += 1;
            }
        }
    }
    Ok((repeated, lone))
}

/// The keys that windows at two places have, in order, and how many keys only one window has. It costs a sort of all keys.
pub(crate) fn parted_keys<F: Files>(
    alloc: Global,
    corpus: &Corpus<'_, F>,
) -> Result<(Vec<u64>, u64), Memory>
    ensures repeated { IfOk result
        (λ found. AreAllRising (IsRepeatedKey (keys_in corpus.now)) found.0.items) }
    ensures number { IfOk result
        (λ found. AreSoMany (IsKey (keys_in corpus.now)) (length found.0.items + found.1)) }
{
    let mut keys = Vec::new(alloc);
    for file in 0..corpus.len() {
        keys.extend_from_slice(corpus.keys(file))?;
    }
    keys.sort_unstable();
    parted(alloc, &keys)
}

/// The different keys of a file's windows, in order.
pub(crate) fn file_keys<F: Files>(
    alloc: Global,
    corpus: &Corpus<'_, F>,
    file: u32,
) -> Result<Vec<u64>, Memory>
    requires { file < length (tokens_in corpus.now.files) }
    ensures { IfOk result (λ keys. AreAllRising (IsKeyIn (keys_in corpus.now) file) keys.items) }
{
    let keys = Vec::from_slice(alloc, corpus.keys(file))?;
    Ok(different(keys))
}
