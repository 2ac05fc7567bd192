ghost use Rattle.std.specs.Prelude.{◌≡◌, []};
ghost use Rattle.std.specs.Arc.{arc_value};

use crate::listing::Listing;
use std::alloc::Global;
use std::marker::Model;
use std::sync::Arc;

/// Where numbers stand: those of a listing, or a list of their own.
#[derive(Drop)]
pub enum Source<W> {
    Shared(Arc<Listing<W>, Global>),
    Own(Vec<u64>),
}

/// The numbers of the puts that a floor keeps, ascending. If they are those of a listing, this is an owner of it.
#[derive(Drop)]
pub struct Keep<W> {
    source: Source<W>,
}

impl<W> Model for Keep<W> {
    ghost use Rattle.std.specs.Prelude.{ℕ, List};
    ghost use Rattle.cq_board.specs.Keeps.{numbers_in};

    ghost Value = { List ℕ };

    ghost view = { λ k. numbers_in k.source };
}

impl<W> Keep<W> {
    /// No numbers. It takes no memory.
    pub fn new(alloc: Global) -> Keep<W>
        ensures { result ≡ [] }
    {
        Keep {
            source: Source::Own(Vec::new(alloc)),
        }
    }

    /// The live numbers of a listing.
    pub(crate) fn shared(listing: Arc<Listing<W>, Global>) -> Keep<W>
        ensures { result ≡ (arc_value listing).live }
    {
        Keep {
            source: Source::Shared(listing),
        }
    }

    /// The numbers of a list.
    pub(crate) fn own(numbers: Vec<u64>) -> Keep<W>
        ensures { result ≡ numbers.items }
    {
        Keep {
            source: Source::Own(numbers),
        }
    }

    /// The numbers, which are lent.
    pub fn numbers(&self) -> &[u64]
        ensures { result.now ≡ self.now }
    {
        match &self.source {
            Source::Shared(listing) => listing.live(),
            Source::Own(numbers) => numbers.as_slice(),
        }
    }
}
