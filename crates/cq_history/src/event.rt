use cq_base::Change;

/// What one activity does at one time. A caller is a session or a worker, by its number; a change is named by its
/// number, from 1, over all projects.
#[derive(Debug, Drop)]
pub enum Event {
    /// A change is accepted, with the next number.
    Accept { by: u32, change: Change },
    /// A caller asks how far the server has come.
    Ask { by: u32 },
    /// A caller takes the work of a change.
    Took { by: u32, number: u64 },
    /// It gives the work back, undone.
    Back { by: u32, number: u64 },
    /// The work of a change is done.
    Done { by: u32, number: u64 },
    /// A version is published.
    Publish { version: u64 },
    /// A caller opens a view of a version.
    Open { by: u32, version: u64 },
    /// It shuts its view.
    Shut { by: u32 },
    /// Versions below this one can no longer be asked for.
    Floor { version: u64 },
}
