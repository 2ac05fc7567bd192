ghost use Rattle.std.specs.Prelude.{◌≡◌, ◌≤◌, ◌↔◌, ◌+◌, ◌^◌, ◌<◌, length, slice_get, option_map, IsNone, IfOk};
ghost use Rattle.cq_tokens.specs.Packed.{norm_in, spelling_bytes};

use crate::packed::{Packed, pack, seen_at};
use crate::seen::Seen;
use cq_base::{Memory, Norm, Steps};
use std::alloc::Global;
use std::marker::{Model, PhantomData};
use std::sync::ledger::Ledger;

/// The tokens of a file, fewer than 2^32. Their texts are stored one after the other, with 8 bytes a token beside
/// them. Their reads are steps of the ledger `L`.
#[derive(Drop)]
pub struct Tokens<L: Ledger> {
    packed: Packed,
    marker: PhantomData<L>,
}

impl<L: Ledger> Model for Tokens<L> {
    ghost use Rattle.std.specs.Prelude.{List, ◌<◌, ◌^◌, vec_len, length};
    ghost use Rattle.cq_base.specs.declared.norm.Norm.{Norm};
    ghost use Rattle.cq_tokens.specs.Packed.{norms_from, AreEnds};

    ghost Value = { List Norm };

    ghost view = { λ t. norms_from 0 t.packed.marks.items t.packed.bytes.items };

    ghost invariant = { λ t. (vec_len t.packed.marks < 2 ^ 32) × AreEnds 0 t.packed.marks.items (length t.packed.bytes.items) };
}

impl<L: Ledger> Tokens<L> {
    /// These tokens, whose texts are copied.
    pub fn new(alloc: Global, norms: &[Norm]) -> Result<Tokens<L>, Memory>
        requires few { length norms.now < 2 ^ 32 }
        requires short { spelling_bytes norms.now < 2 ^ 32 }
        ensures { IfOk result (λ t. t ≡ norms.now) }
    {
        let packed = pack(alloc, norms)?;
        Ok(Tokens {
            packed,
            marker: PhantomData,
        })
    }

    /// How many tokens there are.
    pub fn len(&self) -> u32
        ensures { result ≡ length self.now }
    {
        self.packed.marks.len() as u32
    }

    /// The token at `i`, from 0, and None exactly if there is none. It is one step.
    pub fn at(&self, i: u32, steps: &mut Steps<L>) -> Option<Seen<'_>>
        ensures token { option_map norm_in result ≡ slice_get self.now i }
        ensures none { IsNone result ↔ (length self.now ≤ i) }
        ensures step { steps.new ≡ steps.old + 1 }
    {
        steps.tick();
        seen_at(&self.packed.marks, &self.packed.bytes, i as usize)
    }
}
