ghost use Rattle.std.specs.Prelude.{◌≡◌, ℕ, List, length, true, false, is_some, IfOk, IfSome};
ghost use Rattle.std.specs.Arc.{arc_value};
ghost use Rattle.cq_kept.specs.Texts.{given};

use crate::original::Original;
use cq_base::{Memory, Text};
use std::alloc::Global;
use std::marker::Model;
use std::sync::Arc;

/// The text of a put. It is given up when the work of the put is made. From then on only its length is kept, and only clauses
/// see what it was.
#[derive(Drop)]
pub struct PutText {
    whole: Option<Arc<Text, Global>>,
    len: u64,
    original: Original,
}

impl Model for PutText {
    ghost use Rattle.std.specs.Prelude.{is_some};
    ghost use Rattle.cq_kept.specs.Texts.{Given, given, IsTextOf};

    ghost Value = { Given };

    ghost view = { λ t. given t.original.bytes (is_some t.whole) };

    ghost invariant = { λ t. IsTextOf t.original.bytes t.len t.whole };
}

impl PutText {
    /// A text that is there.
    pub(crate) fn new(alloc: Global, text: Text) -> Result<PutText, Memory>
        ensures { IfOk result (λ t. t ≡ given text true) }
    {
        let len = text.as_bytes().len() as u64;
        let original = Original::of_text(&text);
        let whole = Arc::new(alloc, text)?;
        Ok(PutText {
            whole: Some(whole),
            len,
            original,
        })
    }

    /// How many bytes it has, or had before it was given up.
    pub(crate) fn len(&self) -> u64
        ensures { result ≡ length self.now.text }
    {
        self.len
    }

    /// The text, unless it was given up.
    pub fn whole(&self) -> Option<&Arc<Text, Global>>
        ensures there { is_some result ≡ self.now.is_there }
        ensures text { IfSome result (λ t. arc_value t.now ≡ self.now.text) }
    {
        self.whole.as_ref()
    }

    /// Gives the text up. Whoever shares it still has it.
    pub(crate) fn give_up(&mut self)
        ensures { self.new ≡ given self.old.text false }
    {
        self.whole = None;
    }

    /// The same text, shared.
    pub(crate) fn shared(&self) -> Result<PutText, Memory>
        ensures { IfOk result (λ t. t ≡ self.now) }
    {
        Ok(PutText {
            whole: shared_if_there(&self.whole)?,
            len: self.len,
            original: self.original.again(),
        })
    }
}

// The same text, shared, if it is there.
fn shared_if_there(whole: &Option<Arc<Text, Global>>) -> Result<Option<Arc<Text, Global>>, Memory>
    ensures there { IfOk result (λ same. is_some same ≡ is_some whole.now) }
    ensures text { IfOk result (λ same. (bytes : List ℕ)
        → IfSome whole.now (λ t. arc_value t ≡ bytes) → IfSome same (λ t. arc_value t ≡ bytes)) }
{
    match whole {
        Some(text) => Ok(Some(Arc::try_clone(text)?)),
        None => Ok(None),
    }
}
