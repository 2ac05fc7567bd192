ghost use Rattle.std.specs.Prelude.{◌≡◌, option_copied};
ghost use Rattle.cq_base.specs.Refusals.{refusal_code, refusal_word, refusal_name, refusal_count};

use crate::Text;

/// Why a line is refused: the first of these that applies. The last four depend on what the server has accepted.
#[derive(Debug, Drop)]
pub enum Refusal {
    /// It is not a JSON object.
    Json,
    /// Its `op` is missing, or is that of no request.
    Op,
    /// This member is missing or malformed, or does not belong to the request.
    Field(Text),
    /// The language is unknown.
    Lang,
    /// The path is not valid.
    Path,
    /// The text has more than 1,048,576 bytes.
    TooMuchText,
    /// The least length is out of range.
    Min,
    /// The scope is not a path, or is given beside a path.
    Scope,
    /// The version that is asked for is greater than this number of accepted changes.
    Future(u64),
    /// There is no file to drop.
    Absent,
    /// The limit on kept changes is reached, or 2^60 changes were accepted.
    FullChanges,
    /// The text and all kept texts together have more bytes than the limit allows.
    FullText,
}

impl Refusal {
    /// Its number in replies.
    pub fn code(&self) -> u64
        ensures { result ≡ refusal_code self.now }
    {
        match self {
            Refusal::Json => 1,
            Refusal::Op => 2,
            Refusal::Field(_) => 3,
            Refusal::Lang => 4,
            Refusal::Path => 5,
            Refusal::TooMuchText => 6,
            Refusal::Min => 7,
            Refusal::Scope => 15,
            Refusal::Future(_) => 8,
            Refusal::Absent => 9,
            Refusal::FullChanges => 10,
            Refusal::FullText => 11,
        }
    }

    /// Its word in replies.
    pub fn word(&self) -> &'static str
        ensures { result.now ≡ refusal_word self.now }
    {
        match self {
            Refusal::Json => "json",
            Refusal::Op => "op",
            Refusal::Field(_) => "field",
            Refusal::Lang => "lang",
            Refusal::Path => "path",
            Refusal::TooMuchText => "text",
            Refusal::Min => "min",
            Refusal::Scope => "scope",
            Refusal::Future(_) => "future",
            Refusal::Absent => "absent",
            Refusal::FullChanges => "full-changes",
            Refusal::FullText => "full-text",
        }
    }

    /// The member that it names, if it names one.
    pub fn name(&self) -> Option<&Text>
        ensures { option_copied result ≡ refusal_name self.now }
    {
        match self {
            Refusal::Field(name) => Some(name),
            _ => None,
        }
    }

    /// The count that it reports, if it reports one.
    pub fn count(&self) -> Option<u64>
        ensures { result ≡ refusal_count self.now }
    {
        match self {
            Refusal::Future(count) => Some(*count),
            _ => None,
        }
    }
}
