use cq_base::{Counters, Settings};
use cq_shared::Shared;
use cq_work::Work;
use std::alloc::Global;
use std::sync::ledger::Ledger;

/// What connections are served over: the settings, the hub, who keeps the line of each change, the counters of what sessions
/// read, and the gate to which each step is reported.
#[derive(Drop)]
pub struct Floor<'a, L: Ledger, R, P, G> {
    pub alloc: Global,
    pub settings: &'a Settings,
    pub counters: &'a Counters<L>,
    pub hub: &'a Shared<Work<L>, R>,
    pub keeper: &'a P,
    pub gate: &'a G,
}
