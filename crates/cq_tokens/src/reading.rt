ghost use Rattle.std.specs.Prelude.{◌≡◌, ◌≢◌, ◌+◌, ◌^◌, ◌<◌, ◌≤◌, length, slice_get, option_map, Some, IsSome, AllPairs};
ghost use Rattle.cq_clones.specs.Groups.{file_at, token_behind, token_before};
ghost use Rattle.cq_clones.specs.Windows.{AreKeyed};
ghost use Rattle.cq_tokens.specs.Packed.{norm_in};
ghost use Rattle.cq_tokens.specs.Parts.{tokens_in, changes_in, keys_in};

use crate::corpus::{Corpus, FileList};
use crate::files::Files;
use crate::seen::Seen;
use cq_base::{Place, Steps};

impl<'a, F: Files> FileList<'a, F> {
    /// These files.
    pub fn new(items: &'a F) -> FileList<'a, F>
        ensures { tokens_in result ≡ F.tokens items.now }
    {
        FileList {
            items,
            len: items.len(),
        }
    }

    /// How many there are.
    pub fn len(&self) -> u32
        ensures { result ≡ length (tokens_in self.now) }
    {
        self.len
    }

    /// How many tokens a file has.
    pub fn file_len(&self, file: u32) -> u32
        requires { file < length (tokens_in self.now) }
        ensures { result ≡ length (file_at (tokens_in self.now) file) }
    {
        self.items.tokens(file).len()
    }

    /// The token `n` after a place, if there is one. It is a step at most.
    pub fn token_behind(&self, p: Place, n: u32, steps: &mut Steps<F::Reads>) -> Option<Seen<'a>>
        requires { p.file < length (tokens_in self.now) }
        ensures token { option_map norm_in result ≡ token_behind (tokens_in self.now) p n }
        ensures fits { IsSome (token_behind (tokens_in self.now) p n) → p.at + n + 1 < 2 ^ 32 }
        ensures step { steps.new ≤ steps.old + 1 }
    {
        let tokens = self.items.tokens(p.file);
        let left = tokens.len().saturating_sub(p.at);
        if n >= left {
            return None;
        }
        tokens.at(p.at + n, steps)
    }

    /// The token before a place, if there is one. It is a step at most.
    pub fn token_before(&self, p: Place, steps: &mut Steps<F::Reads>) -> Option<Seen<'a>>
        requires { p.file < length (tokens_in self.now) }
        ensures token { option_map norm_in result ≡ token_before (tokens_in self.now) p }
        ensures step { steps.new ≤ steps.old + 1 }
    {
        let at = p.at.checked_sub(1)?;
        self.items.tokens(p.file).at(at, steps)
    }
}

impl<'a, F: Files> Corpus<'a, F> {
    /// The corpus of these files, which are lent.
    pub fn new(chunk: u32, files: &'a F) -> Corpus<'a, F>
        requires some { 1 ≤ chunk }
        requires apart { AllPairs (λ a b. a ≢ b) (F.changes files.now) }
        requires keyed { AreKeyed chunk (F.tokens files.now) (F.keys files.now) }
        ensures tokens { tokens_in result.files ≡ F.tokens files.now }
        ensures changes { changes_in result ≡ F.changes files.now }
        ensures keys { keys_in result ≡ F.keys files.now }
        ensures chunk { result.chunk ≡ chunk }
    {
        Corpus {
            files: FileList {
                items: files,
                len: files.len(),
            },
            chunk,
        }
    }

    /// How many files there are.
    pub fn len(&self) -> u32
        ensures tokens { result ≡ length (tokens_in self.now.files) }
        ensures changes { result ≡ length (changes_in self.now) }
        ensures keys { result ≡ length (keys_in self.now) }
    {
        self.files.items.len()
    }

    /// The number of the change that put a file.
    pub fn change(&self, file: u32) -> u64
        requires { file < length (tokens_in self.now.files) }
        ensures { slice_get (changes_in self.now) file ≡ Some result }
    {
        self.files.items.change(file)
    }

    /// The keys of a file's windows, in order.
    pub fn keys(&self, file: u32) -> &'a [u64]
        requires { file < length (tokens_in self.now.files) }
        ensures keys { result.now ≡ file_at (keys_in self.now) file }
        ensures few { length result.now < 2 ^ 32 }
    {
        self.files.items.keys(file)
    }
}
