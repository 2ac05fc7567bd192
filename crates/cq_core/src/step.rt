use cq_base::Change;
use cq_board::Refused;
use std::alloc::Global;
use std::sync::Arc;

/// A step of a core. Callers and shards are numbered from 0, changes and versions from 1.
#[derive(Drop)]
pub enum Step<W> {
    /// The change is accepted, unless there is a cause against it.
    Accept {
        by: u32,
        change: Change,
    },
    /// The caller asks how many changes are accepted.
    Ask {
        by: u32,
    },
    /// The caller takes the first change that is neither done nor taken.
    Took {
        by: u32,
    },
    /// The caller gives back a change that it has taken and that is not done.
    Back {
        by: u32,
        change: u64,
    },
    /// A change that is accepted and not done is done, with the work of its text, whoever took it.
    Done {
        by: u32,
        change: u64,
        work: Arc<W, Global>,
    },
    /// The shard applies the next change, if all up to that one are done.
    Apply {
        shard: u32,
    },
    /// A version above the last published one is published, if all changes up to it are done, and applied by every shard.
    Publish {
        version: u64,
    },
    /// The caller, who has no view open, opens one of the last published version.
    Open {
        by: u32,
    },
    /// The caller lets its view go.
    Shut {
        by: u32,
    },
    /// Versions below this one are given up, if it is above the last floor and at most the last published version and
    /// each open view's.
    Floor {
        version: u64,
    },
    /// The shard is swept to the last floor: the entries of puts that a change of their file up to it replaced or dropped
    /// are taken out.
    Sweep {
        shard: u32,
    },
}

/// What a step came to.
#[derive(Clone, Copy, Debug, PartialEq, Eq)]
pub enum Outcome {
    /// It is done.
    Ok,
    /// It is done, and this is the number that it gave: of an acceptance the change's, of a question how many changes are
    /// accepted, of a taking the change, of an application the change, of an opening the version.
    Value(u64),
    /// Nothing is free to take, and nothing has changed.
    NoJob,
    /// The change is not accepted, and nothing has changed.
    Refused(Refused),
    /// The step is not allowed, and nothing has changed.
    No,
}
