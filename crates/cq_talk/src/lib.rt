//! One caller's talk with a hub: which replies its lines have, over a history that grows, and what that comes to for a user
//! of a server, with workers beside it or without. There is no code here but laws, functions without a body whose clauses
//! say what holds of each talk, and a type that says why a change is not accepted or its line is not kept.
#![tactic(auto)]

mod laws;
mod unkept;

pub use laws::{
    alone_gives, alone_is_beside, beside_gives, talks_alone, talks_beside, talks_beside_workers,
};
pub use unkept::Unkept;
