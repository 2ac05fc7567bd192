ghost use Rattle.std.specs.Prelude.{◌≡◌, ◌≤◌, ◌<◌, ◌^◌, length, IfOk};
ghost use Rattle.std.specs.Option.{ForSome};
ghost use Rattle.cq_work.specs.Keys as spec;

use crate::code::codes_of;
use crate::plain::plain_key;
use crate::rolling::{rolled, weight};
use cq_base::{Keys, Memory, Norm, Settings};
use std::alloc::Global;

type Key = Box<dyn Fn(&[u64]) -> u64 + Send + Sync>;

// A closure beside the facts that it may always be called and answers each window's key.
#[derive(Drop)]
struct Folder {
    settings: Settings,
    key: Box<dyn Fn(&[u64]) -> u64 + Send + Sync>,
    ghost callable: { Key.IsAlwaysCallable key },
    ghost exact: { spec.GivesKeys (Key.post key) settings },
}

impl Folder {
    fn key(&self, codes: &[u64]) -> u64
        ensures { length codes.now ≡ self.now.settings.chunk
            → result ≡ spec.key_of self.now.settings codes.now }
    {
        (self.key)(codes)
    }
}

/// Gives the keys of a file's windows: that of the first by `plain_key`, or by a closure that answers the same, and each
/// other from the key before.
#[derive(Drop)]
pub struct Keyer {
    pub settings: Settings,
    folder: Option<Folder>,
    ghost same: { ForSome folder (λ f. f.settings ≡ settings) },
}

impl Keyer {
    /// A keyer by `plain_key`. It takes no memory.
    pub fn plain(settings: &Settings) -> Keyer
        ensures { result.settings ≡ settings.now }
    {
        Keyer {
            settings: *settings,
            folder: None,
        }
    }

    /// A keyer by a closure that may be called on any list, and answers the key of each list of `chunk` codes.
    pub fn new(settings: &Settings, key: Box<dyn Fn(&[u64]) -> u64 + Send + Sync>) -> Keyer
        requires callable { Key.IsAlwaysCallable key }
        requires exact { spec.GivesKeys (Key.post key) settings.now }
        ensures { result.settings ≡ settings.now }
    {
        let folder = Folder {
            settings: *settings,
            key,
        };
        Keyer {
            settings: *settings,
            folder: Some(folder),
        }
    }

    fn key(&self, codes: &[u64]) -> u64
        ensures { length codes.now ≡ self.now.settings.chunk
            → result ≡ spec.key_of self.now.settings codes.now }
    {
        match &self.folder {
            Some(folder) => folder.key(codes),
            None => plain_key(&self.settings, codes),
        }
    }

    fn chunk(&self) -> usize
        ensures { result ≡ self.now.settings.chunk }
    {
        self.settings.chunk as usize
    }

    // The keys of the windows. Those after the first are rolled on, and no codes are folded for them.
    fn keys_of(&self, alloc: Global, codes: &[u64]) -> Result<Vec<u64>, Memory>
        requires some { 1 ≤ self.now.settings.chunk }
        ensures { IfOk result (λ v. v.items ≡ spec.keys_of self.now.settings codes.now) }
    {
        let chunk = self.chunk();
        if codes.len() < chunk {
            return Ok(Vec::new(alloc));
        }
        let more = codes.len() - chunk;
        let mut keys = Vec::with_capacity(alloc, more + 1)?;
        let mut key = self.key(&codes[..chunk]);
        keys.push(key)?;
        let weight = weight(&self.settings);
        'windows: for at in 0..more {
            key = rolled(&self.settings, weight, key, codes[at], codes[at + chunk]);
            keys.push(key)?;
        }
        Ok(keys)
    }

    /// The keys of all windows of a file's tokens, in order. A closure is called once, or not at all if there are fewer
    /// tokens than a window has.
    pub fn keys(&self, alloc: Global, norms: &[Norm]) -> Result<Keys, Memory>
        requires few { length norms.now < 2 ^ 32 }
        requires some { 1 ≤ self.now.settings.chunk }
        ensures { IfOk result (λ k. k ≡ spec.window_keys self.now.settings norms.now) }
    {
        let codes = codes_of(alloc, norms)?;
        Ok(Keys::from_vec(self.keys_of(alloc, &codes)?))
    }
}
