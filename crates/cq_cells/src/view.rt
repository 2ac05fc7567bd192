// What the table keeps for each pass, as plain data. No value of these types is made.
use std::collections::LinkedList;

pub enum Hand<I, E> {
    Free,
    // The cell, its value as it was taken, and the event that was noted since.
    Has(u64, I, Option<E>),
}

pub struct View<I, E, K> {
    // What the cells were made with. It is not reported by a pass that was joined into another.
    pub about: Option<K>,
    // Its caller's number, and then those of the callers that were joined into it. Joined into another, it has none.
    pub callers: LinkedList<u64>,
    pub seen: LinkedList<E>,
    pub hand: Hand<I, E>,
    // Cells, each with a count that it has reached.
    pub known: LinkedList<(u64, u64)>,
    // The next number of a caller, and how many may still be made. 0 in each pass but the first.
    pub next: u64,
    pub room: u64,
    // What a pass had seen that was joined into this one, and its numbers, until the two are compared.
    pub beside: LinkedList<E>,
    pub joined: LinkedList<u64>,
}
