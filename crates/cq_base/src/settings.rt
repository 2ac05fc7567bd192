ghost use Rattle.std.specs.Prelude.{◌≡◌, ◌↔◌, IsNone};
ghost use Rattle.cq_base.specs.Settings.{first_out_of_range, IsInRange};

/// What a server is started with.
#[derive(Clone, Copy, Debug, PartialEq, Eq)]
pub struct Settings {
    /// Tokens of a window, 1 to 1,000.
    pub chunk: u32,
    /// Shards of the index, 1 to 64.
    pub shards: u32,
    /// Bits that a key keeps, 0 to 64.
    pub key_bits: u32,
    /// Whether all identifiers are one token.
    pub ignore_ids: bool,
    /// Whether all literals are one token.
    pub ignore_lits: bool,
    /// The most changes that are kept at once, 1 to 262,144.
    pub change_limit: u64,
    /// The most bytes of all kept texts, 1 to 67,108,864.
    pub text_limit: u64,
    /// The most bytes that a session reads, 1 to 2^60.
    pub byte_limit: u64,
}

/// A field of the settings. The two flags are never out of range.
#[derive(Clone, Copy, Debug, PartialEq, Eq)]
pub enum Field {
    Chunk,
    Shards,
    KeyBits,
    IgnoreIds,
    IgnoreLits,
    ChangeLimit,
    TextLimit,
    ByteLimit,
}

impl Settings {
    /// The first field that is out of its range, in the order of the struct; None if all are in range.
    pub fn check(&self) -> Option<Field>
        ensures first { result ≡ first_out_of_range self.now }
        ensures in_range { IsNone result ↔ IsInRange self.now }
    {
        if self.chunk < 1 || self.chunk > 1_000 {
            return Some(Field::Chunk);
        }
        if self.shards < 1 || self.shards > 64 {
            return Some(Field::Shards);
        }
        if self.key_bits > 64 {
            return Some(Field::KeyBits);
        }
        if self.change_limit < 1 || self.change_limit > 262_144 {
            return Some(Field::ChangeLimit);
        }
        if self.text_limit < 1 || self.text_limit > 67_108_864 {
            return Some(Field::TextLimit);
        }
        if self.byte_limit < 1 || self.byte_limit > 1_152_921_504_606_846_976 {
            return Some(Field::ByteLimit);
        }
        None
    }
}
