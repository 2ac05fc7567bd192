ghost use Rattle.std.specs.Prelude.{◌≡◌, ◌^◌, ◌<◌, ℕ, List, length, slice_get, Some};
ghost use Rattle.cq_base.specs.declared.norm.Norm.{Norm};
ghost use Rattle.cq_clones.specs.Groups.{file_at};

use crate::Tokens;
use std::sync::ledger::Ledger;

/// Files in their order, and what a listing takes of each: its tokens, the keys of its windows, and the number of the
/// change that put it. They are lent where they lie. A call is to cost no more than a look into a list.
pub trait Files {
    // each read of a token is a step of it
    type Reads: Ledger;

    // of each file, in order
    ghost tokens: { Self → List (List Norm) };

    ghost keys: { Self → List (List ℕ) };

    ghost changes: { Self → List ℕ };

    /// How many there are.
    fn len(&self) -> u32
        ensures tokens { result ≡ length (tokens self.now) }
        ensures keys { result ≡ length (keys self.now) }
        ensures changes { result ≡ length (changes self.now) };

    /// The tokens of a file.
    fn tokens(&self, file: u32) -> &Tokens<Self::Reads>
        requires { file < length (tokens self.now) }
        ensures { result.now ≡ file_at (tokens self.now) file };

    /// The keys of a file's windows, in order.
    fn keys(&self, file: u32) -> &[u64]
        requires { file < length (tokens self.now) }
        ensures keys { result.now ≡ file_at (keys self.now) file }
        ensures few { length result.now < 2 ^ 32 };

    /// The number of the change that put a file.
    fn change(&self, file: u32) -> u64
        requires { file < length (tokens self.now) }
        ensures { slice_get (changes self.now) file ≡ Some result };

    ghost sizes: { (files : Self) → length (keys files) ≡ length (changes files) };
}
