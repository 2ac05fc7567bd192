ghost use Rattle.std.specs.Prelude.{◌≡◌};

use std::marker::Model;

/// Positions in a list of conditions, which contracts see as a list.
#[derive(Debug, Drop)]
pub struct Positions {
    items: Vec<u32>,
}

impl Model for Positions {
    ghost use Rattle.std.specs.Prelude.{List, ℕ};

    ghost Value = { List ℕ };

    ghost view = { λ p. p.items.items };
}

impl Positions {
    /// The positions of this list, which is not copied.
    pub fn from_vec(items: Vec<u32>) -> Positions
        ensures { result ≡ items.items }
    {
        Positions { items }
    }

    /// All of them, in order.
    pub fn as_slice(&self) -> &[u32]
        ensures { result.now ≡ self.now }
    {
        self.items.as_slice()
    }
}

/// What a gate says of some measures.
#[derive(Debug, Drop)]
pub enum Verdict {
    /// No condition is met.
    Ok,
    /// The conditions at these positions are met; there is one at least.
    Error(Positions),
}
