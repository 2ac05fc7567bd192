use std::alloc::Global;

/// What a command runs on: the runtime, memory, and the gate to which each step is reported.
#[derive(Drop)]
pub(crate) struct Host<'a, Q, G> {
    pub rt: &'a Q,
    pub alloc: Global,
    pub gate: &'a G,
}
