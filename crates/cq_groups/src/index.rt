ghost use Rattle.std.specs.Prelude.{◌≡◌};
ghost use Rattle.cq_order.specs.Spots.{AreSpots};
ghost use Rattle.cq_tokens.specs.Parts.{changes_in};

use cq_order::Spots;
use cq_tokens::{Corpus, Files};

/// A corpus with the spots of its changes. Both are lent, and nothing is made for it.
#[derive(Drop)]
pub struct Index<'a, F: Files> {
    pub corpus: Corpus<'a, F>,
    pub(crate) spots: &'a Spots,

    ghost spots_are: { AreSpots (changes_in corpus) spots.now },
}

impl<'a, F: Files> Index<'a, F> {
    /// The index of a corpus, of which these are the spots.
    pub fn new(corpus: Corpus<'a, F>, spots: &'a Spots) -> Index<'a, F>
        requires { AreSpots (changes_in corpus) spots.now }
        ensures { result.corpus ≡ corpus.entry }
    {
        Index { corpus, spots }
    }
}
