ghost use Rattle.std.specs.Prelude.{◌≡◌, ◌≤◌, ◌==◌, length, count_by};
ghost use Rattle.cq_base.specs.Lines.{line_feed, line_at, is_open, lines_of};

use crate::Text;

fn line_feeds(bytes: &[u8]) -> usize
    ensures count { result ≡ count_by (λ b. b == line_feed) bytes.now }
    ensures within { result ≤ length bytes.now }
{
    bytes.iter().filter(|b| **b == b'\n').count()
}

// Whether there are bytes after the last line feed.
fn is_open(bytes: &[u8]) -> bool
    ensures { result ≡ is_open bytes.now }
{
    match bytes.last() {
        Some(b) => *b != b'\n',
        None => false,
    }
}

/// The line, from 1, that byte `at` of the text is on. It walks the bytes before it.
pub fn line_of(text: &Text, at: u32) -> u32
    requires short { length text.now ≤ 1048576 }
    requires within { at ≤ length text.now }
    ensures { result ≡ line_at text.now at }
{
    let before = &text.as_bytes()[..at as usize];
    1 + line_feeds(before) as u32
}

/// How many lines the text has. It walks the text.
pub fn line_count(text: &Text) -> u32
    requires { length text.now ≤ 1048576 }
    ensures { result ≡ lines_of text.now }
{
    let bytes = text.as_bytes();
    let feeds = line_feeds(bytes) as u32;
    if is_open(bytes) { feeds + 1 } else { feeds }
}
