ghost use Rattle.std.specs.Prelude.{◌≡◌};
ghost use Rattle.cq_munch.specs.LineEnds.{ends_line};

/// Which characters end a line.
#[derive(Clone, Copy, Debug, PartialEq, Eq)]
pub enum LineEnds {
    /// A line feed.
    Feed,
    /// A carriage return, or a line feed.
    ReturnOrFeed,
    /// One of these, or a line or paragraph separator (U+2028, U+2029).
    Separator,
}

pub(crate) fn ends_line(ends: LineEnds, ch: char) -> bool
    ensures { result ≡ ends_line ends ch }
{
    match ends {
        LineEnds::Feed => ch == '\n',
        LineEnds::ReturnOrFeed => ch == '\r' || ch == '\n',
        LineEnds::Separator => { ch == '\r' || ch == '\n' || ch == '\u{2028}' || ch == '\u{2029}' }
    }
}
