ghost use Rattle.std.specs.Prelude.{◌≡◌};
ghost use Rattle.std.specs.List.{list_all};
ghost use Rattle.cq_names.specs.Names as names;

use memchr::memchr;
use std::str;

fn is_part(part: &[u8]) -> bool
    ensures { result ≡ names.is_part part.now }
{
    match part {
        [] => false,
        [a] => *a != b'.',
        [a, b] => !(*a == b'.' && *b == b'.'),
        _ => true,
    }
}

fn are_path_bytes(bytes: &[u8]) -> bool
    ensures { result ≡ list_all names.is_path_byte bytes.now }
{
    bytes.iter().all(|b| *b >= 32 && *b != 127)
}

fn are_parts(bytes: &[u8]) -> bool
    ensures { result ≡ list_all names.is_part (names.parts bytes.now) }
{
    let mut rest = bytes;
    'parts: while let Some(at) = memchr(b'/', rest) {
        let (part, after) = rest.split_at(at);
        if !is_part(part) {
            return false;
        }
        rest = &after[1..];
    }
    is_part(rest)
}

/// Whether a text is the path of a file: 1 to 512 bytes without control characters of ASCII, in parts that are joined by
/// `/`, none of which is empty, `.` or `..`.
pub fn is_path_text(text: &str) -> bool
    ensures { result ≡ names.is_path_text text.now }
{
    let bytes = text.as_bytes();
    !bytes.is_empty() && bytes.len() <= 512 && are_path_bytes(bytes) && are_parts(bytes)
}

/// Whether bytes are the path of a file: such a text in UTF-8.
pub fn is_path(bytes: &[u8]) -> bool
    ensures { result ≡ names.is_path bytes.now }
{
    match str::from_utf8(bytes) {
        Ok(text) => is_path_text(text),
        Err(_) => false,
    }
}
