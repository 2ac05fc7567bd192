ghost use Rattle.std.specs.Prelude.{◌≡◌, ◌^◌, ◌<◌, length};
ghost use Rattle.cq_tokens.specs.Corpus.{corpus_of, changes_of, keys_of};
ghost use Rattle.cq_tokens.specs.Sizes.{as_many};

use crate::Tokens;
use crate::files::Files;
use cq_base::Keys;
use std::alloc::Global;
use std::sync::Arc;
use std::sync::ledger::Ledger;

/// A file with what a listing takes of it.
#[derive(Drop)]
pub struct FileTokens<L: Ledger> {
    pub change: u64,
    pub tokens: Arc<Tokens<L>, Global>,
    pub keys: Arc<Keys, Global>,
}

/// The files of a list, fewer than 2^32.
#[derive(Drop)]
pub struct PlainFiles<'a, L: Ledger> {
    pub items: &'a [FileTokens<L>],

    ghost few: { length items.now < 2 ^ 32 },
}

impl<'a, L: Ledger> PlainFiles<'a, L> {
    pub fn new(items: &'a [FileTokens<L>]) -> PlainFiles<'a, L>
        requires { length items.now < 2 ^ 32 }
        ensures { result.items.now ≡ items.now }
    {
        PlainFiles { items }
    }
}

impl<'a, L: Ledger> Files for PlainFiles<'a, L> {
    type Reads = L;

    ghost tokens = { λ files. corpus_of files.items.now };

    ghost keys = { λ files. keys_of files.items.now };

    ghost changes = { λ files. changes_of files.items.now };

    fn len(&self) -> u32 {
        self.items.len() as u32
    }

    fn tokens(&self, file: u32) -> &Tokens<L> {
        &self.items[file as usize].tokens
    }

    fn keys(&self, file: u32) -> &[u64] {
        self.items[file as usize].keys.as_slice()
    }

    fn change(&self, file: u32) -> u64 {
        self.items[file as usize].change
    }

    ghost sizes = { λ files. as_many files.items.now };
}
