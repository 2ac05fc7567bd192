ghost use Rattle.std.specs.Prelude.{◌≡◌, ◌⊎◌, ◌<◌, ◌≤◌, [], ◌∷◌, ◌++◌, option_to_list, IsTrue, IfOk};
ghost use Rattle.std.specs.VecDeque.{deque_len, deque_capacity};

use cq_base::Memory;
use std::alloc::Global;
use std::collections::VecDeque;
use std::sync::{Condvar, Mutex, Wait};

// What waits, and whether that is all. There are no more than there are places, which are reserved.
#[derive(Drop)]
struct Waiting<C> {
    connections: VecDeque<C>,
    places: usize,
    is_over: bool,
    ghost within: { deque_len connections ≤ places },
    ghost reserved: { places ≤ deque_capacity connections },
}

impl<C> Waiting<C> {
    fn new(alloc: Global, places: usize) -> Result<Waiting<C>, Memory>
        ensures none { IfOk result (λ waiting. waiting.connections.items ≡ []) }
        ensures places { IfOk result (λ waiting. waiting.places ≡ places) }
    {
        Ok(Waiting {
            connections: VecDeque::with_capacity(alloc, places)?,
            places,
            is_over: false,
        })
    }

    fn is_full(&self) -> bool
        ensures { IsTrue result ⊎ (deque_len self.now.connections < self.now.places) }
    {
        self.connections.len() == self.places
    }

    // Nothing waits, and more may come.
    fn is_idle(&self) -> bool {
        self.connections.is_empty() && !self.is_over
    }

    // Takes a place, and no memory.
    fn push(&mut self, connection: C)
        requires { deque_len self.old.connections < self.old.places }
        ensures last { self.new.connections.items ≡ self.old.connections.items ++ connection ∷ [] }
        ensures places { self.new.places ≡ self.old.places }
        ensures over { self.new.is_over ≡ self.old.is_over }
    {
        self.connections.push_back_reserved(connection);
    }

    // Frees a place.
    fn pop(&mut self) -> Option<C>
        ensures first { self.old.connections.items
            ≡ option_to_list result ++ self.new.connections.items }
        ensures places { self.new.places ≡ self.old.places }
        ensures over { self.new.is_over ≡ self.old.is_over }
    {
        self.connections.pop_front()
    }
}

/// A queue from one thread to others, first in, first out, with a number of places. It takes its memory when it is made.
#[derive(Drop)]
pub(crate) struct Queue<C> {
    waiting: Mutex<Waiting<C>>,
    came: Condvar,
    freed: Condvar,
}

impl<C> Queue<C> {
    pub(crate) fn new(alloc: Global, places: u32) -> Result<Queue<C>, Memory> {
        Ok(Queue {
            waiting: Mutex::new(Waiting::new(alloc, places as usize)?),
            came: Condvar::new(),
            freed: Condvar::new(),
        })
    }

    /// Waits until a place is free.
    pub(crate) fn wait_for_place<Q: Wait>(&self, rt: &Q) {
        let waiting = self
            .freed
            .wait_while(rt, self.waiting.lock(rt), |waiting| waiting.is_full());
        drop(waiting);
    }

    /// Takes a place, and waits for one if none is free.
    pub(crate) fn push<Q: Wait>(&self, rt: &Q, connection: C) {
        let mut waiting = self
            .freed
            .wait_while(rt, self.waiting.lock(rt), |waiting| waiting.is_full());
        waiting.push(connection);
        drop(waiting);
        self.came.notify_one();
    }

    /// The first one, for which it waits; none if nothing is left and the queue was closed.
    pub(crate) fn pop<Q: Wait>(&self, rt: &Q) -> Option<C> {
        let mut waiting = self
            .came
            .wait_while(rt, self.waiting.lock(rt), |waiting| waiting.is_idle());
        let first = waiting.pop();
        drop(waiting);
        self.freed.notify_one();
        first
    }

    /// No more will come.
    pub(crate) fn close<Q: Wait>(&self, rt: &Q) {
        let mut waiting = self.waiting.lock(rt);
        waiting.is_over = true;
        drop(waiting);
        self.came.notify_all();
    }

    /// What still waits.
    pub(crate) fn into_waiting(self) -> VecDeque<C> {
        let Queue {
            waiting,
            came: _,
            freed: _,
        } = self;
        let Waiting {
            connections,
            places: _,
            is_over: _,
        } = waiting.into_inner();
        connections
    }
}
