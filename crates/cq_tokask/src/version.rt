use cq_base::Settings;
use cq_tokfile::Snapshot;
use std::sync::ledger::Ledger;

/// A kept version, with the settings of its token file.
#[derive(Drop)]
pub(crate) struct KeptVersion<'a, L: Ledger> {
    pub settings: &'a Settings,
    pub snapshot: &'a Snapshot<L>,
}
