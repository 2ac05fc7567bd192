ghost use Rattle.std.specs.Prelude.{◌<◌, ◌≡◌, false, IsUtf8};
ghost use Rattle.cq_munch.specs.Backslashes.{follows};
ghost use Rattle.cq_munch.specs.Lexed.{units_of};

use cq_base::Text;
use memchr::memmem;

/// Whether this character of ASCII comes directly after a backslash anywhere in a text. It is one search of the bytes.
pub fn follows_backslash(text: &Text, ch: u8) -> bool
    requires utf8 { IsUtf8 text.now }
    requires ascii { ch < 128 }
    ensures { result ≡ follows ch false (units_of text.now) }
{
    let pair = [b'\\', ch];
    match memmem::find(text.as_bytes(), &pair) {
        Some(_) => true,
        None => false,
    }
}
