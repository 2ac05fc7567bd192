ghost use Rattle.cq_munch.specs.Characters.{characters};
ghost use Rattle.cq_munch.specs.Longest.{LongestAt};
ghost use Rattle.cq_lex_c.specs.HeaderNames.{HeaderNamesAreEnclosed};
ghost use Rattle.cq_lex_c.specs.Headers.{IsHeader, header_rest};

use cq_munch::{Machine, Unit, longest_spelling};

/// How far a header name has come.
#[derive(Clone, Copy, Debug, PartialEq, Eq)]
enum Header {
    Before,
    /// What closes it, and whether there is a character before that.
    Opened(char, bool),
    Closed,
}

impl Machine for Header {
    ghost rest = { header_rest };

    fn step(self, ch: char) -> Option<Self> {
        match self {
            Header::Before => match ch {
                '<' => Some(Header::Opened('>', false)),
                '"' => Some(Header::Opened('"', false)),
                _ => None,
            },
            Header::Opened(close, some) => if ch == close {
                if some { Some(Header::Closed) } else { None }
            } else {
                if ch == '\n' {
                    None
                } else {
                    Some(Header::Opened(close, true))
                }
            },
            Header::Closed => None,
        }
    }

    fn accepts(self) -> bool {
        matches!(self, Header::Closed)
    }
}

/// The header name at the front.
pub(crate) fn longest_header(units: &[Unit]) -> Option<usize>
    ensures { LongestAt IsHeader (characters units.now) result }
{
    longest_spelling(Header::Before, units)
}

/// A header name is one or more characters in angle brackets or in double quotes, none of them a line feed or what closes it.
pub fn header_names_are_enclosed()
    ensures { HeaderNamesAreEnclosed }
{}
