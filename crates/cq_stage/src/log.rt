ghost use Rattle.std.specs.Prelude.{◌≡◌, ◌≤◌, ◌++◌, [], length, take, vec_len, IfOk};
ghost use Rattle.std.specs.Vec.{vec_capacity};

use cq_base::Memory;
use std::alloc::Global;
use std::sync::{Mutex, Wait};

// What was written to a connection, within a room that was reserved.
#[derive(Drop)]
struct Page {
    bytes: Vec<u8>,
    room: usize,
    ghost within: { vec_len bytes ≤ room },
    ghost reserved: { room ≤ vec_capacity bytes },
}

impl Page {
    fn new(alloc: Global, room: usize) -> Result<Page, Memory>
        ensures empty { IfOk result (λ page. page.bytes.items ≡ []) }
        ensures room { IfOk result (λ page. page.room ≡ room) }
    {
        Ok(Page {
            bytes: Vec::with_capacity(alloc, room)?,
            room,
        })
    }

    // Takes a front part, of at most so many bytes, and no memory.
    fn append(&mut self, piece: &[u8], greatest: usize) -> usize
        ensures part { result ≤ length piece.now }
        ensures bytes { self.new.bytes.items ≡ self.old.bytes.items ++ take result piece.now }
        ensures room { self.new.room ≡ self.old.room }
    {
        let left = self.room - self.bytes.len();
        let count = left.min(greatest).min(piece.len());
        self.bytes.extend_from_slice(&piece[..count]).unwrap();
        count
    }
}

/// What was written to each connection, under a lock: a list of bytes for each, with a room that is reserved when the log is
/// made.
#[derive(Drop)]
pub struct Log<'a, R> {
    pages: Mutex<Vec<Page>>,
    rt: &'a R,
}

impl<'a, R: Wait> Log<'a, R> {
    /// Lists for so many connections, with room for so many bytes each.
    pub fn new(
        rt: &'a R,
        alloc: Global,
        connections: usize,
        room: usize,
    ) -> Result<Log<'a, R>, Memory> {
        let mut pages = Vec::new(alloc);
        for _connection in 0..connections {
            pages.push(Page::new(alloc, room)?)?;
        }
        Ok(Log {
            pages: Mutex::new(pages),
            rt,
        })
    }

    // Writes a front part to the connection with this number, of at most so many bytes, as far as there is room, and says how
    // many bytes that is.
    pub(crate) fn append(&self, number: usize, piece: &[u8], greatest: usize) -> usize
        ensures { result ≤ length piece.now }
    {
        let mut pages = self.pages.lock(self.rt);
        match pages.get_mut(number) {
            Some(page) => page.append(piece, greatest),
            None => 0,
        }
    }

    /// How many bytes were written to the connection with this number, from 0.
    pub fn count(&self, number: usize) -> usize {
        let pages = self.pages.lock(self.rt);
        match pages.get(number) {
            Some(page) => page.bytes.len(),
            None => 0,
        }
    }

    /// Whether these bytes and no others were written to the connection with this number, from 0.
    pub fn is_told(&self, number: usize, bytes: &[u8]) -> bool {
        let pages = self.pages.lock(self.rt);
        match pages.get(number) {
            Some(page) => page.bytes.as_slice() == bytes,
            None => false,
        }
    }

    /// Whether what was written to the connection with this number, from 0, begins with these bytes.
    pub fn is_told_at_first(&self, number: usize, bytes: &[u8]) -> bool {
        let pages = self.pages.lock(self.rt);
        match pages.get(number) {
            Some(page) => page.bytes.starts_with(bytes),
            None => false,
        }
    }

    /// Whether it ends with these bytes.
    pub fn is_told_at_last(&self, number: usize, bytes: &[u8]) -> bool {
        let pages = self.pages.lock(self.rt);
        match pages.get(number) {
            Some(page) => page.bytes.ends_with(bytes),
            None => false,
        }
    }
}
