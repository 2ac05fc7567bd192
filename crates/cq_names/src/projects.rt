ghost use Rattle.std.specs.Prelude.{◌≡◌};
ghost use Rattle.std.specs.List.{list_all};
ghost use Rattle.cq_names.specs.Names as names;

fn is_name_byte(b: u8) -> bool
    ensures { result ≡ names.is_name_byte b }
{
    matches!(b, b'A'..=b'Z' | b'a'..=b'z' | b'0'..=b'9' | b'.' | b'_' | b'-')
}

fn are_name_bytes(bytes: &[u8]) -> bool
    ensures { result ≡ list_all names.is_name_byte bytes.now }
{
    bytes.iter().all(|b| is_name_byte(*b))
}

/// Whether the bytes name a project: 1 to 64 letters, digits, `.`, `_` and `-` of ASCII.
pub fn is_project(bytes: &[u8]) -> bool
    ensures { result ≡ names.is_project bytes.now }
{
    !bytes.is_empty() && bytes.len() <= 64 && are_name_bytes(bytes)
}
