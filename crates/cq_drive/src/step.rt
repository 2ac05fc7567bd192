use cq_base::Change;
use cq_request::Query;

/// What a line of a script says to do. Callers are 0 to 15.
#[derive(Debug, Drop)]
pub enum ScriptStep {
    /// A change is brought.
    Accept { by: u32, change: Change },
    /// How many changes were accepted.
    Ask { by: u32 },
    /// A change is taken whose work is to be made.
    Took { by: u32 },
    /// A taken change is given back.
    Back { by: u32, change: u64 },
    /// A change's work is made.
    Done { by: u32, change: u64 },
    /// A shard applies its next change.
    Apply { shard: u32 },
    /// A version is published.
    Publish { version: u64 },
    /// The published version is opened.
    Open { by: u32 },
    /// The entries of a shard with a key are read at the opened version.
    Read { by: u32, shard: u32, key: u64 },
    /// A query is answered at the opened version.
    Reply { by: u32, query: Query },
    /// The opened version is shut.
    Shut { by: u32 },
    /// Versions below this one are given up.
    Floor { version: u64 },
    /// A shard is swept to the last floor.
    Sweep { shard: u32 },
}
