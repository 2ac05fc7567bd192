/// What a caller did to the board, but for accepting a change.
#[derive(Clone, Copy, Drop)]
pub(crate) enum Deed {
    Nothing,
    Ask,
    Took(u64),
    Back(u64),
    Done(u64),
    Publish(u64),
    Open(u64),
    Shut,
    Floor(u64),
}
