//! The conjunction of two nodes of a table, with its justification on the proof: the clause that w holds where u and v
//! do is live, unless it is true by itself. Each result is kept in a cache, whose entries stay right as nodes and
//! clauses are added, and which is purged of those over nodes that aren't marked. It stands on `operations`, the hint
//! lists of `hint_chain` and the nodes of `node_table`.
#![tactic(auto)]

mod additions;
mod cache;
mod conjoin;

pub use cache::{AndCache, AndEntries};
pub use conjoin::and;
