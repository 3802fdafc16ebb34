//! Sums of variables, modulo 2, as nodes of a table: the node of a sum, whose diagram has two nodes on each level of its variables but the
//! first (`parity_node`). It stands on the nodes of `node_table`, and adds no clause but those that define nodes.
#![tactic(auto)]

mod sums;

pub use sums::parity_node;
