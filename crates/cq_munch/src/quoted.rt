/// What is around a quoted text.
#[derive(Clone, Copy, Debug, PartialEq, Eq)]
pub enum Quote {
    /// Double quotes, which may be empty.
    Double,
    /// Single quotes, which may not.
    Single,
}
