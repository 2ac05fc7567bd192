use cq_io::Gate;
use std::sync::{Condvar, Mutex, Wait};

#[derive(Drop)]
struct Rings {
    count: u64,
    is_over: bool,
}

/// A bell on which workers sleep. Whoever heard how often it had rung sleeps until it rings again, or until the end.
///
/// It rings after each accepted change, and wakes one sleeper, which is enough for that change. A worker first asks how
/// often the bell has rung, then looks for a change, and sleeps only if it found none. If the bell rang after it asked, it
/// does not fall asleep. If the bell rang before, the worker looked after the ring, so what it left was taken already. And
/// whoever is woken takes changes until none is left. A worker that was refused memory gives its change back and sleeps
/// too. What it left waits for the next ring, or for a query that finishes works.
#[derive(Drop)]
pub struct Bell {
    rings: Mutex<Rings>,
    rung: Condvar,
}

impl Bell {
    pub fn new() -> Bell {
        Bell {
            rings: Mutex::new(Rings {
                count: 0,
                is_over: false,
            }),
            rung: Condvar::new(),
        }
    }

    /// It rings, and one of those who sleep wakes.
    pub fn ring<Q: Wait>(&self, rt: &Q) {
        let mut rings = self.rings.lock(rt);
        rings.count = rings.count.wrapping_add(1);
        drop(rings);
        self.rung.notify_one();
    }

    /// Nobody sleeps from now on.
    pub fn end<Q: Wait>(&self, rt: &Q) {
        let mut rings = self.rings.lock(rt);
        rings.is_over = true;
        drop(rings);
        self.rung.notify_all();
    }

    /// How often it has rung, up to a multiple of 2^64; none at the end.
    pub fn heard<Q: Wait>(&self, rt: &Q) -> Option<u64> {
        let rings = self.rings.lock(rt);
        if rings.is_over {
            None
        } else {
            Some(rings.count)
        }
    }

    /// Waits until it has rung otherwise than so often, or until the end.
    pub fn sleep<Q: Wait>(&self, rt: &Q, heard: u64) {
        let rings = self.rung.wait_while(rt, self.rings.lock(rt), |rings| {
            rings.count == heard && !rings.is_over
        });
        drop(rings);
    }
}

/// A gate that rings the bell after each accepted change, and else does what another does.
#[derive(Drop)]
pub struct RingingGate<'a, G, Q> {
    pub gate: &'a G,
    pub bell: &'a Bell,
    pub rt: &'a Q,
}

impl<'a, G: Gate, Q: Wait> Gate for RingingGate<'a, G, Q> {
    fn after_accept(&self, change: u64) {
        self.gate.after_accept(change);
        self.bell.ring(self.rt);
    }

    fn before_work(&self, change: u64) {
        self.gate.before_work(change);
    }

    fn after_shard(&self, shard: u32) {
        self.gate.after_shard(shard);
    }

    fn after_open(&self, version: u64) {
        self.gate.after_open(version);
    }
}
