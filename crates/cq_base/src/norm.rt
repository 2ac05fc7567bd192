ghost use Rattle.std.specs.Prelude.{◌≡◌, IsTrue, ◌↔◌};

use crate::{Class, Lang, Text};

/// A token as it is compared: two are the same if their language, class and text are.
#[derive(Debug, Drop)]
pub struct Norm {
    pub lang: Lang,
    pub class: Class,
    pub text: Text,
}

impl Norm {
    /// Whether both are the same token. It costs a comparison of the two texts.
    pub fn is_same(&self, other: &Norm) -> bool
        ensures { IsTrue result ↔ (self.now ≡ other.now) }
    {
        self.lang == other.lang && self.class == other.class && self.text.is_same(&other.text)
    }
}
