use cq_work::Keyer;
use std::alloc::Global;

/// What a script is run with: the runtime, memory, and the keyer of works.
#[derive(Drop)]
pub struct Driver<'a, R> {
    pub rt: &'a R,
    pub alloc: Global,
    pub keyer: &'a Keyer,
}
