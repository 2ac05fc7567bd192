ghost use Rattle.std.specs.Prelude.{◌≡◌};

use cq_base::Entry;
use cq_reply::Reply;
use std::marker::Model;

/// Entries, which contracts see as a list.
#[derive(Drop)]
pub struct Entries {
    rows: Vec<Entry>,
}

impl Model for Entries {
    ghost use Rattle.std.specs.Prelude.{List};
    ghost use Rattle.cq_base.specs.declared.entry.Entry.{Entry};

    ghost Value = { List Entry };

    ghost view = { λ e. e.rows.items };
}

impl Entries {
    pub fn from_vec(rows: Vec<Entry>) -> Entries
        ensures { result ≡ rows.items }
    {
        Entries { rows }
    }

    pub fn as_slice(&self) -> &[Entry]
        ensures { result.now ≡ self.now }
    {
        self.rows.as_slice()
    }
}

/// What a line of a script comes to.
#[derive(Drop)]
pub enum ScriptOutcome {
    /// The step is done.
    Done,
    /// It is done, and this is the number that it gave.
    Value(u64),
    /// Nothing is free to take.
    NoJob,
    /// The entries that were read.
    Read(Entries),
    /// The step is not allowed.
    No,
    /// The reply to the line, or to the request that is in it.
    Reply(Reply),
}
