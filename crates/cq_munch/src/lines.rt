ghost use Rattle.std.specs.Prelude.{◌≡◌, ◌≤◌, length};
ghost use Rattle.cq_base.specs.Lines.{line_at};
ghost use Rattle.cq_munch.specs.Feeds.{IsCounted, IsFeed};

use cq_base::Text;
use memchr::memchr;

/// A line feed of a text, or the text's end, and the line it is on.
#[derive(Clone, Copy, Debug, PartialEq, Eq)]
pub(crate) struct Feed {
    pub(crate) at: u32,
    pub(crate) line: u32,
}

// The first line feed from a byte on, or the text's end.
fn feed_from(text: &Text, from: u32) -> u32
    requires short { length text.now ≤ 1048576 }
    requires within { from ≤ length text.now }
    ensures { IsFeed text.now from result }
{
    let bytes = text.as_bytes();
    match memchr(b'\n', &bytes[from as usize..]) {
        Some(len) => from + len as u32,
        None => bytes.len() as u32,
    }
}

/// The first line feed of a text.
pub(crate) fn first_feed(text: &Text) -> Feed
    requires { length text.now ≤ 1048576 }
    ensures { IsCounted text.now 0 result }
{
    let at = feed_from(text, 0);
    Feed { at, line: 1 }
}

/// The first line feed from a later byte on. Its line is that of the byte, too. Lines are counted from the line feed that was
/// the first one before.
pub(crate) fn feed_further(text: &Text, from: u32, feed: Feed, to: u32) -> Feed
    requires short { length text.now ≤ 1048576 }
    requires counted { IsCounted text.now from feed }
    requires ordered { from ≤ to }
    requires within { to ≤ length text.now }
    ensures counted { IsCounted text.now to result }
    ensures line { result.line ≡ line_at text.now to }
{
    let mut from = from;
    let mut at = feed.at;
    let mut line = feed.line;
    while at < to {
        from = at + 1;
        let next = feed_from(text, from);
        line += 1;
        at = next;
    }
    Feed { at, line }
}
