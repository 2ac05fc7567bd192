use cq_base::Class;

/// What an element is.
#[derive(Clone, Copy, Debug, PartialEq, Eq)]
pub enum Spell {
    Blank,
    Comment,
    Token(Class),
}

/// An element at a place: how many units it has, and the mode after it. A mode is any number, so that its bits may be a stack.
#[derive(Clone, Copy, Debug, PartialEq, Eq)]
pub struct Found {
    pub spell: Spell,
    pub units: u32,
    pub mode: u64,
}
