/// Where a test may hold a session or a worker until it has seen another. Its calls change nothing that a contract
/// speaks of.
pub trait Gate {
    /// Called after each accepted change, with its number.
    fn after_accept(&self, change: u64);

    /// Called before the work of each change.
    fn before_work(&self, change: u64);

    /// Called each time a shard was brought up, with no cell held.
    fn after_shard(&self, shard: u32);

    /// Called after each opened view, with its version.
    fn after_open(&self, version: u64);
}

/// The gate of the program, which holds nobody.
#[derive(Clone, Copy, Debug, PartialEq, Eq)]
pub struct OpenGate;

impl Gate for OpenGate {
    fn after_accept(&self, _change: u64) {}

    fn before_work(&self, _change: u64) {}

    fn after_shard(&self, _shard: u32) {}

    fn after_open(&self, _version: u64) {}
}
