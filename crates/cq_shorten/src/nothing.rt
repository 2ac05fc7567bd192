use cq_shard::Indexed;

/// A work that is never made: what shortens a log reads no text.
#[derive(Clone, Copy, Debug, PartialEq, Eq)]
pub struct Unworked;

impl Indexed for Unworked {
    ghost use Rattle.std.specs.Prelude.{[], refl};
    ghost use Rattle.cq_shorten.specs.Keeping.{NeverMade};

    ghost keys_in = { λ _. [] };

    ghost IsWorkOf = { NeverMade };

    fn keys(&self) -> &[u64] {
        &[]
    }

    ghost determined = { λ settings lang text work other is also. refl };

    ghost few = { λ settings lang text work never. absurd never };
}
