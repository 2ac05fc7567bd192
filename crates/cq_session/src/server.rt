use cq_work::Keyer;
use std::alloc::Global;

/// What sessions and workers share: the runtime they run on, the hub of the changes, the keyer of their works, who keeps the
/// line of each change, and the gate to which each step is reported. The servers of several threads may have one hub.
#[derive(Drop)]
pub struct Server<'a, R, H, P, G> {
    pub rt: &'a R,
    pub alloc: Global,
    pub keyer: &'a Keyer,
    pub hub: &'a H,
    pub keeper: &'a P,
    pub gate: &'a G,
}
