ghost use Rattle.std.specs.Prelude.{◌≡◌, ◌≢◌, ◌≤◌, length, AllPairs};
ghost use Rattle.cq_clones.specs.Windows.{AreKeyed};

use crate::files::Files;

/// Files that are read together. They are lent.
#[derive(Drop)]
pub struct FileList<'a, F: Files> {
    pub(crate) items: &'a F,
    pub(crate) len: u32,

    ghost all: { len ≡ length (F.tokens items.now) },
}

/// Files that are listed by their windows, with what is always asked of them: each was put by a change of its own, and
/// each has the keys of its windows of `chunk` tokens, equal keys for equal windows.
#[derive(Drop)]
pub struct Corpus<'a, F: Files> {
    pub files: FileList<'a, F>,
    /// Tokens of a window.
    pub chunk: u32,

    ghost some: { 1 ≤ chunk },
    ghost apart: { AllPairs (λ a b. a ≢ b) (F.changes files.items.now) },
    ghost keyed: { AreKeyed chunk (F.tokens files.items.now) (F.keys files.items.now) },
}
