/// What a turn came to.
#[derive(Clone, Copy, Debug, PartialEq, Eq)]
pub enum Turn {
    /// Every accepted change was done or taken.
    Idle,
    /// The work of the change with this number was done.
    Worked(u64),
    /// Another had done the work of the change with this number by then.
    Late(u64),
    /// There was no memory for the work of the change with this number.
    GaveBack(u64),
    /// There was no memory to take a change.
    Memory,
}
