ghost use Rattle.std.specs.Prelude.{◌≡◌, ◌<◌, ◌^◌, List, ℕ, length, option_copied, option_map};
ghost use Rattle.std.specs.Arc.{arc_value};
ghost use Rattle.cq_base.specs.declared.settings.Settings.{Settings};
ghost use Rattle.cq_base.specs.declared.lang.Lang.{Lang};

use std::alloc::Global;
use std::sync::Arc;

/// What a work shows to the index.
pub trait Indexed: Drop {
    /// The keys that this work has.
    ghost keys_in: { Self → List ℕ };

    /// It is the work of this text.
    ghost IsWorkOf: { Settings → Lang → List ℕ → Self → Type 0 };

    /// The keys of its windows by place.
    fn keys(&self) -> &[u64]
        ensures { result.now ≡ keys_in self.now };

    /// The settings, the language and the text determine the keys of a work.
    ghost determined: { (settings : Settings) (lang : Lang) (text : List ℕ) (work other : Self) → IsWorkOf settings lang text work → IsWorkOf settings lang text other → keys_in work ≡ keys_in other };

    /// The work of a text has fewer than 2^32 keys.
    ghost few: { (settings : Settings) (lang : Lang) (text : List ℕ) (work : Self) → IsWorkOf settings lang text work → length (keys_in work) < 2 ^ 32 };
}

/// The work that is owned, lent.
pub fn lent<W>(work: &Option<Arc<W, Global>>) -> Option<&W>
    ensures { option_copied result ≡ option_map arc_value work.now }
{
    match work {
        Some(work) => Some(work),
        None => None,
    }
}
