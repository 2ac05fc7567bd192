ghost use Rattle.std.specs.Prelude.{◌≡◌, ◌+◌, ◌≤◌, ◌++◌, decimal, length};
ghost use Rattle.cq_reply.specs.Lines.{bytes_of};

use arrayvec::ArrayString;
use cq_base::Text;
use itoa::Buffer;
use std::marker::Model;

/// A line of at most 96 bytes, which takes no memory. Contracts see it as the list of its bytes.
#[derive(Drop)]
pub struct Fixed {
    text: ArrayString<96>,
}

impl Model for Fixed {
    ghost use Rattle.std.specs.Prelude.{List, ℕ};

    ghost Value = { List ℕ };

    ghost view = { λ f. f.text.bytes };
}

impl Fixed {
    /// Three parts, one after the other.
    pub fn of_parts(front: &str, middle: &str, back: &str) -> Fixed
        requires { length front.now + length middle.now + length back.now ≤ 96 }
        ensures { result ≡ front.now ++ middle.now ++ back.now }
    {
        let mut text = ArrayString::new();
        text.push_str(front);
        text.push_str(middle);
        text.push_str(back);
        Fixed { text }
    }

    /// A number between two parts.
    pub fn numbered(front: &str, number: u64, back: &str) -> Fixed
        requires { length front.now + length back.now ≤ 76 }
        ensures { result ≡ front.now ++ decimal number ++ back.now }
    {
        let mut buffer = Buffer::new();
        Fixed::of_parts(front, buffer.format(number), back)
    }

    /// Its bytes, which are lent.
    pub fn as_bytes(&self) -> &[u8]
        ensures bytes { result.now ≡ self.now }
        ensures few { length result.now ≤ 96 }
    {
        self.text.as_str().as_bytes()
    }
}

/// A line that was made in memory, or without it.
#[derive(Drop)]
pub enum Line {
    Made(Text),
    Short(Fixed),
}

impl Line {
    /// Its bytes, which are lent.
    pub fn as_bytes(&self) -> &[u8]
        ensures { result.now ≡ bytes_of self.now }
    {
        match self {
            Line::Made(text) => text.as_bytes(),
            Line::Short(text) => text.as_bytes(),
        }
    }
}
