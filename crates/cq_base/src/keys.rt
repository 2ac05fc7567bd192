ghost use Rattle.std.specs.Prelude.{◌≡◌, ◌^◌, ◌<◌, length, vec_len};

use std::marker::Model;

/// The keys of a file's windows, in the order of the windows, fewer than 2^32.
#[derive(Drop)]
pub struct Keys {
    items: Vec<u64>,
}

impl Model for Keys {
    ghost use Rattle.std.specs.Prelude.{List, ℕ, ◌<◌, ◌^◌, vec_len};

    ghost Value = { List ℕ };

    ghost view = { λ k. k.items.items };

    ghost invariant = { λ k. vec_len k.items < 2 ^ 32 };
}

impl Keys {
    /// The keys of this list, which is not copied.
    pub fn from_vec(items: Vec<u64>) -> Keys
        requires { vec_len items < 2 ^ 32 }
        ensures { result ≡ items.items }
    {
        Keys { items }
    }

    /// All of them, in order.
    pub fn as_slice(&self) -> &[u64]
        ensures keys { result.now ≡ self.now }
        ensures few { length result.now < 2 ^ 32 }
    {
        self.items.as_slice()
    }
}
