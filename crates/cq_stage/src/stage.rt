use crate::client::Client;
use crate::log::Log;
use cq_base::Memory;
use std::alloc::Global;
use std::sync::atomic::{AtomicBool, AtomicU64, Ordering};
use std::sync::{Mutex, Wait};
use std::thread;
use std::time::{Clock, Duration};

// Half a minute at most, for what takes less than a second.
const TURNS: u32 = 30_000;

// How often a client asks again at most: it rests twice as long each time, and half a minute together.
const ROUNDS: u32 = 15;

const ROOM: usize = 4_096;

// More bytes than the name of a call has.
const SHOWN: usize = 16;

/// What somebody waits for.
#[derive(Clone, Copy, Debug, PartialEq, Eq)]
pub enum Until {
    Now,
    /// More than so many bytes, the second number, were written to a client, the first one, from 0.
    Told(usize, usize),
    /// What a client was told, by its number from 0, ends as it waits for.
    Answered(usize),
    /// So many views were opened.
    Opened(u64),
    /// The works of so many changes were begun.
    Begun(u64),
    /// The work of this change was begun twice.
    Twice(u64),
    /// A commit is between two shards.
    Committing,
}

/// Who waits.
#[derive(Clone, Copy, Debug, PartialEq, Eq)]
pub enum Who {
    /// The client with this number, from 0.
    Client(usize),
    /// Who is about to make the work of the change with this number.
    Worker(u64),
    /// Who commits.
    Committer,
    /// Who opens a view.
    Viewer,
}

/// Who waited in vain, and for what.
#[derive(Clone, Copy, Debug, PartialEq, Eq)]
pub struct Late {
    pub who: Who,
    pub until: Until,
}

#[derive(Drop)]
struct Notes {
    // How often the work of each change was begun, by their numbers.
    begun: [u64; 9],
    late: Option<Late>,
}

/// What the clients and the gate of a trial share.
#[derive(Drop)]
pub struct Stage<'a, R> {
    pub log: Log<'a, R>,
    opened: AtomicU64,
    is_committing: AtomicBool,
    notes: Mutex<Notes>,
    rt: &'a R,
}

impl<'a, R: Wait + Clock> Stage<'a, R> {
    /// Before so many clients.
    pub fn new(rt: &'a R, alloc: Global, clients: usize) -> Result<Stage<'a, R>, Memory> {
        Ok(Stage {
            log: Log::new(rt, alloc, clients, ROOM)?,
            opened: AtomicU64::new(0),
            is_committing: AtomicBool::new(false),
            notes: Mutex::new(Notes {
                begun: [0; 9],
                late: None,
            }),
            rt,
        })
    }

    fn has_come(&self, until: Until) -> bool {
        match until {
            Until::Now => true,
            Until::Told(client, bytes) => self.log.count(client) > bytes,
            Until::Answered(_client) => false,
            Until::Opened(views) => self.opened() >= views,
            Until::Begun(works) => self.begun() >= works,
            Until::Twice(change) => self.begun_of(change) >= 2,
            Until::Committing => self.is_committing.load(Ordering::SeqCst),
        }
    }

    /// Waits for it, for so many turns at most. Of those who wait in vain the first is noted.
    pub fn wait(&self, who: Who, until: Until) {
        for _turn in 0..TURNS {
            if self.has_come(until) {
                return;
            }
            thread::sleep(self.rt, Duration::from_millis(1));
        }
        self.give_up(who, until);
    }

    /// Whether a client is to ask again, once more than so often: not if what it was told ends with this, nor if it has asked
    /// too often.
    pub fn is_asked_again(&self, client: usize, rounds: u32, told: &str) -> bool {
        if told.is_empty() || self.log.is_told_at_last(client, told.as_bytes()) {
            return false;
        }
        if rounds > ROUNDS {
            self.give_up(Who::Client(client), Until::Answered(client));
            return false;
        }
        let rest = 1u64.checked_shl(rounds).unwrap_or(1);
        thread::sleep(self.rt, Duration::from_millis(rest));
        true
    }

    fn give_up(&self, who: Who, until: Until) {
        let mut notes = self.notes.lock(self.rt);
        if notes.late.is_none() {
            notes.late = Some(Late { who, until });
        }
    }

    /// The first one who waited in vain.
    pub fn late(&self) -> Option<Late> {
        let notes = self.notes.lock(self.rt);
        notes.late
    }

    /// The work of a change was begun, of which the number is at most 8. It says how often it was.
    pub fn begin(&self, change: u64) -> u64 {
        let mut notes = self.notes.lock(self.rt);
        match notes.begun.get_mut(change as usize) {
            Some(begun) => {
                *begun = begun.saturating_add(1);
                *begun
            }
            None => 0,
        }
    }

    fn begun_of(&self, change: u64) -> u64 {
        let notes = self.notes.lock(self.rt);
        notes.begun.get(change as usize).copied().unwrap_or(0)
    }

    /// Of how many changes the work was begun.
    pub fn begun(&self) -> u64 {
        let notes = self.notes.lock(self.rt);
        notes.begun.iter().filter(|begun| **begun > 0).count() as u64
    }

    /// One more view was opened. It says how many were.
    pub fn open(&self) -> u64 {
        self.opened.fetch_add(1, Ordering::SeqCst).saturating_add(1)
    }

    pub fn opened(&self) -> u64 {
        self.opened.load(Ordering::SeqCst)
    }

    /// Writes a call of the gate into the log of the first client, as a line: its name, and the last digit of its number.
    pub fn show(&self, call: &str, number: u64) {
        let digit = b'0' + (number % 10) as u8;
        self.log.append(0, call.as_bytes(), SHOWN);
        self.log.append(0, &[b' ', digit, b'\n'], SHOWN);
    }

    /// A commit has come between two shards. It says whether that is the first time.
    pub fn commit(&self) -> bool {
        !self.is_committing.swap(true, Ordering::SeqCst)
    }

    // Whether a client was told its replies and no more; one that asks again, its replies and at last what it waits for.
    fn is_told(&self, number: usize, client: &Client, replies: &str) -> bool {
        if client.until_told.is_empty() {
            return self.log.is_told(number, replies.as_bytes());
        }
        self.log.is_told_at_first(number, replies.as_bytes())
            && self
                .log
                .is_told_at_last(number, client.until_told.as_bytes())
    }

    /// The first client who was told otherwise than it was to be, from 0.
    pub fn told_otherwise(&self, clients: &[Client], replies: &[&str]) -> Option<usize> {
        for (number, (client, replies)) in clients.iter().zip(replies.iter()).enumerate() {
            if !self.is_told(number, client, replies) {
                return Some(number);
            }
        }
        None
    }
}
