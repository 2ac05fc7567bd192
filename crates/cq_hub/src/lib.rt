//! One server's state behind its calls: a hub, whose passes each stand for a history of events, and the plain hub, which
//! one caller has to itself. A call of a hub adds others' events and then its own to the history, and answers what is so
//! in between. So what is proved over any hub holds of the plain one and of one that many threads share.
//!
//! The plain hub holds a board and its shards, and a call costs what it costs there. To advance, one look at each key
//! of their works divides the entries of all further changes among the shards, each shard applies its part, and the
//! board publishes; if there are none, it rebuilds the listing if memory was refused while it was changed. So opening a
//! view costs only an owner. A bucket is read from one shard. To sweep, the board lists the puts that its floor keeps,
//! and each shard that was not swept up to there drops all others.
#![tactic(auto)]

mod applying;
mod hub;
mod solo;
mod sweeping;

pub use applying::{finished_works, shards_of};
pub use hub::Hub;
pub use solo::{Solo, SoloPass};
pub use sweeping::sweep_to;
