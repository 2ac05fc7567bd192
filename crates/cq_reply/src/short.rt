ghost use Rattle.std.specs.Prelude.{◌≡◌};
ghost use Rattle.cq_reply.specs.Written.{line_of, reply_of};

use crate::line::Fixed;

/// The replies that need no memory.
#[derive(Clone, Copy, Debug, PartialEq, Eq)]
pub enum Short {
    /// A change was accepted, with its number.
    Change(u64),
    /// This change is not done yet.
    Pending(u64),
    /// The line is too long.
    Long,
    /// Memory was refused.
    Memory,
}

/// The line of a reply, without memory, with its line feed.
pub fn fixed(short: Short) -> Fixed
    ensures { result ≡ line_of (reply_of short) }
{
    match short {
        Short::Change(number) => Fixed::numbered("{\"change\":", number, ",\"ok\":true}\n"),
        Short::Pending(number) => Fixed::numbered(
            "{\"code\":12,\"error\":\"pending\",\"number\":",
            number,
            ",\"ok\":false}\n",
        ),
        Short::Long => Fixed::of_parts("{\"code\":13,\"error\":\"long\",\"ok\":false}\n", "", ""),
        Short::Memory => {
            Fixed::of_parts("{\"code\":14,\"error\":\"memory\",\"ok\":false}\n", "", "")
        }
    }
}
