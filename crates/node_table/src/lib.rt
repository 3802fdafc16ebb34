//! Nodes of reduced ordered binary decision diagrams, together with the proof that defines them. A table gives the node
//! of a level and two children: a known one, or a new one under an extension variable of its own, whose defining
//! clauses are then live. After each call that isn't a write fault the nodes are reduced and ordered, each is defined by
//! live clauses, and nodes and clauses that were there stay. Two nodes of equal value are the same node. A sweep gives back
//! the nodes that aren't marked, with their clauses. It stands on `clause_ledger` for the proof and on `hint_chain` for
//! clauses over nodes.
#![tactic(auto)]

mod define;
mod deletion;
mod diagram;
mod error;
mod index;
mod laws;
mod marks;
mod node;
mod numbers;
mod stored;
mod sweep;
mod table;

pub use diagram::Diagram;
pub use error::TableError;
pub use laws::{
    canonical_law, cofactor_law, growth_law, in_use_law, kept_law, lean_law, missing_law,
    opening_law, reach_law, steps_law, subfunction_law,
};
pub use marks::Marks;
pub use node::{Branch, Defs, Justification, Node, NodeKey};
pub use stored::Child;
pub use table::Table;
