ghost use Rattle.std.specs.Prelude.{◌≡◌, ◌↔◌, IsTrue};
ghost use Rattle.cq_tokens.specs.Packed.{norm_in};

use cq_base::{Class, Lang};

/// A token as it lies among the others of its file. Its text is lent.
#[derive(Clone, Copy, PartialEq, Eq, PartialOrd, Ord)]
pub struct Seen<'a> {
    pub lang: Lang,
    pub class: Class,
    pub text: &'a [u8],
}

impl Seen<'_> {
    /// Whether both are the same token. It costs a comparison of the two texts.
    pub fn is_same(&self, other: &Seen<'_>) -> bool
        ensures { IsTrue result ↔ (norm_in self.now ≡ norm_in other.now) }
    {
        self.lang == other.lang && self.class == other.class && self.text == other.text
    }
}
