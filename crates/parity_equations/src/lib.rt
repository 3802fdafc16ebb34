//! The parity equations of a formula: sets of at most eight variables whose sum, modulo 2, the formula's clauses fix. They are found
//! exactly as they are defined (`equations`), each with the clauses that say so.
#![tactic(auto)]

mod denied;
mod equations;
mod index;
mod laws;
mod literals;

pub use equations::{Equation, Equations};
pub use laws::{clauses_law, independence_law, own_clauses_law};
