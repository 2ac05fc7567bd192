ghost use Rattle.std.specs.Prelude.{◌≡◌, ℕ, List, ◌-◌, IfOk};
ghost use Rattle.cq_clones.specs.Windows.{IsBucket};
ghost use Rattle.cq_groups.specs.Listing.{Rises};

use cq_base::{Entry, Memory};
use std::alloc::Global;

/// What answers, for a list of files, the entries with a key.
pub trait Buckets {
    // the changes of the files that it is for, and the keys of each
    ghost file_changes: { Self → List ℕ };

    ghost file_keys: { Self → List (List ℕ) };

    // how many questions were counted
    ghost asked: { Self → ℕ };

    // it may be asked
    ghost ready: { Self → Type 0 };

    // it may have moved from one state to another
    ghost moved: { Self → Self → Type 0 };

    /// All entries of the files with the key, by change and then place.
    fn bucket(&mut self, alloc: Global, key: u64) -> Result<Vec<Entry>, Memory>
        requires { ready self.old }
        ensures bucket { IfOk result
            (λ bucket. IsBucket (file_changes self.old) (file_keys self.old) key bucket.items) }
        ensures same_changes { file_changes self.new ≡ file_changes self.old }
        ensures same_keys { file_keys self.new ≡ file_keys self.old }
        ensures asked { Rises (asked self.old) (asked self.new) 1 }
        ensures ready { ready self.new }
        ensures moved { moved self.old self.new };

    /// Counts so many questions as asked, for whoever knows the answers without asking. Nothing else changes.
    fn pass_over(&mut self, keys: u64)
        requires { ready self.old }
        ensures same_changes { file_changes self.new ≡ file_changes self.old }
        ensures same_keys { file_keys self.new ≡ file_keys self.old }
        ensures asked { Rises (asked self.old) (asked self.new) keys }
        ensures ready { ready self.new }
        ensures moved { moved self.old self.new };

    ghost unmoved: { (b : Self) → moved b b };

    ghost moved_on: { (b c d : Self) → moved b c → moved c d → moved b d };
}
