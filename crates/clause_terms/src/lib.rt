//! Terms: diagrams with the live clauses that prove them. A clause of the formula becomes the node of its function,
//! whose unit clause is then live (`push_clause`). From a node the least assignment that makes it true is recovered, and
//! with a trail of quantified variables (`Trail`) the values of these (`recover`). Both stand on the nodes of `node_table`;
//! the hints of the unit are those of `hint_chain`.
#![tactic(auto)]

mod model;
mod order;
mod placed;
mod recovery;
mod step;
mod term;
mod trail;

pub use model::Model;
pub use recovery::recover;
pub use term::push_clause;
pub use trail::Trail;
