//! Whether a node of a table implies another, with the justification on the proof: the clause that v holds where u does
//! is live, unless it is true by itself. Implications that hold are kept in a cache, whose entries stay right as nodes and
//! clauses are added, and which is purged of those over nodes that aren't marked. It stands on `operations`, the hint
//! lists of `hint_chain` and the nodes of `node_table`.
#![tactic(auto)]

mod additions;
mod cache;
mod implication;

pub use cache::{ImplyCache, ImplyEntries};
pub use implication::implies;
