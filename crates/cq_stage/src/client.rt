use crate::stage::Until;

/// What a client sends: some lines, and then others, each after what it waits for.
#[derive(Clone, Copy, Debug, PartialEq, Eq)]
pub struct Client {
    pub until: Until,
    pub sends: &'static str,
    pub then_until: Until,
    pub then_sends: &'static str,
    /// It sends the later lines again until what it was told ends with this.
    pub until_told: &'static str,
    /// Which calls of its source and of its sink fail, from 1, with 0 for none.
    pub failing_read: u64,
    pub failing_write: u64,
}

impl Client {
    /// One that sends at once, and nothing after that, and whose calls don't fail.
    pub const fn new(sends: &'static str) -> Client {
        Client {
            until: Until::Now,
            sends,
            then_until: Until::Now,
            then_sends: "",
            until_told: "",
            failing_read: 0,
            failing_write: 0,
        }
    }
}
