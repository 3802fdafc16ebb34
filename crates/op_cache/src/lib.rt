//! A map of bounded size for results that are computed again and again: the entry whose use lies the longest ago makes
//! room for a new one.
#![tactic(auto)]

mod bounded;
mod laws;

pub use bounded::Bounded;
pub use laws::{entries_law, front_law, keep_law, turn_law};
