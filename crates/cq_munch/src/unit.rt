/// A character of a translated text, with the bytes of the source that it comes from: `start` and `len` in bytes.
#[derive(Clone, Copy, Debug, PartialEq, Eq)]
pub struct Unit {
    pub ch: char,
    pub start: u32,
    pub len: u32,
}
