ghost use Rattle.std.specs.Prelude.{◌≡◌, ◌≤◌, ◌<◌, ◌^◌, length, IfOk};

use crate::scans::token;
use cq_base::{Keys, Memory, Norm, Settings};
use cq_work::{Keyer, plain_key};
use std::alloc::Global;
use std::sync::Arc;
use std::sync::atomic::AtomicU64;
use std::sync::atomic::Ordering::SeqCst;

const SETTINGS: Settings = Settings {
    chunk: 2,
    shards: 1,
    key_bits: 8,
    ignore_ids: false,
    ignore_lits: false,
    change_limit: 262_144,
    text_limit: 33_554_432,
    byte_limit: 65_536,
};

// As many tokens, each a letter; the letters begin again after 77.
fn tokens(alloc: Global, count: usize) -> Result<Vec<Norm>, Memory>
    ensures { IfOk result (λ v. length v.items ≡ count) }
{
    let mut norms = Vec::new(alloc);
    for at in 0..count {
        let letter = b'a' + (at % 7 + at % 11) as u8;
        norms.push(token(alloc, letter)?)?;
    }
    Ok(norms)
}

// The keys of these tokens, and how often the closure was called for them.
fn keys_and_calls(alloc: Global, settings: &Settings, norms: &[Norm]) -> Result<(Keys, u64), Memory>
    requires few { length norms.now < 2 ^ 32 }
    requires some { 1 ≤ settings.now.chunk }
{
    let of = *settings;
    let calls = Arc::new(alloc, AtomicU64::new(0))?;
    let counted = Arc::try_clone(&calls)?;
    let key = Box::new(alloc, move |codes: &[u64]| {
        counted.fetch_add(1, SeqCst);
        plain_key(&of, codes)
    })?;
    let keyer = Keyer::new(settings, key);
    let keys = keyer.keys(alloc, norms)?;
    Ok((keys, calls.load(SeqCst)))
}

// How many keys so many tokens have, and how often the closure was called for them.
fn outcome(alloc: Global, count: usize) -> Result<(usize, u64), Memory>
    requires few { count < 2 ^ 32 }
{
    let norms = tokens(alloc, count)?;
    let (keys, calls) = keys_and_calls(alloc, &SETTINGS, &norms)?;
    Ok((keys.as_slice().len(), calls))
}

#[test]
fn the_closure_is_called_for_the_first_window_alone(rt: HostRuntime) -> Result<(), Memory> {
    assert_eq!(rt; outcome(rt.alloc(), 1_000)?, (999, 1));
    assert_eq!(rt; outcome(rt.alloc(), 1)?, (0, 0));
    Ok(())
}
