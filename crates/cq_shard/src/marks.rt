ghost use Rattle.std.specs.Prelude.{◌≡◌, ℕ, ◌<◌, length, IfOk};
ghost use Rattle.std.specs.Bool.{OnFalse};
ghost use Rattle.cq_shard.specs.Marks.{word_of, bit_of, IsMarked, HasWords, AreMarks};

use cq_base::{Entry, Memory};
use std::alloc::Global;

// About for how many entries there is a word of 64 bits.
const ENTRIES: usize = 8;

/// Which keys some entries may have, by a word of 64 bits for four to eight of them if they are many: if a key's bit is
/// not set, no entry has it.
#[derive(Drop)]
pub(crate) struct Marks {
    pub words: Vec<u64>,
    pub shift: u32,
    pub mask: u64,
}

impl Marks {
    /// Those of these entries. It looks at each of them. If they come by key, it writes word by word.
    pub fn of(alloc: Global, rows: &[Entry]) -> Result<Marks, Memory>
        ensures { IfOk result (AreMarks rows.now) }
    {
        let count = (rows.len() / ENTRIES).next_power_of_two().max(1);
        let mut marks = Marks {
            words: Vec::from_elem(alloc, 0u64, count)?,
            shift: (count.leading_zeros() + 1).min(63),
            mask: count as u64 - 1,
        };
        for row in rows {
            marks.set(row.key);
        }
        Ok(marks)
    }

    /// Whether an entry may have the key. It looks at one word.
    pub fn may_have(&self, key: u64) -> bool
        requires { HasWords self.now }
        ensures { OnFalse result (IsMarked self.now key → ⊥) }
    {
        let word = self.words[self.word(key)];
        (word >> bit(key)) & 1 == 1
    }

    // Sets the key's bit.
    fn set(&mut self, key: u64)
        requires { HasWords self.old }
        ensures words { HasWords self.new }
        ensures set { IsMarked self.new key }
        ensures kept { (other : ℕ) → IsMarked self.old other → IsMarked self.new other }
    {
        let at = self.word(key);
        self.words[at] |= 1u64 << bit(key);
    }

    // Which word has the key's bit. The upper bits of a key decide it.
    fn word(&self, key: u64) -> usize
        requires { HasWords self.now }
        ensures word { result ≡ word_of self.now key }
        ensures within { result < length self.now.words.items }
    {
        ((key >> self.shift) & self.mask) as usize
    }
}

// Which bit of its word is the key's. It is decided by bits that decide neither the word nor the shard.
fn bit(key: u64) -> u32
    ensures bit { result ≡ bit_of key }
    ensures within { result < 64 }
{
    ((key >> 8) % 64) as u32
}
