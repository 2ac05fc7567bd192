//! A worker beside a session: it takes accepted changes one by one, makes their works and publishes what is done, on a
//! pass of its own, and sleeps when there is nothing to do until a bell rings.
#![tactic(auto)]

mod answers;
mod bell;
mod taking;
mod working;

pub use answers::Turn;
pub use bell::{Bell, RingingGate};
pub use taking::turn;
pub use working::work;
