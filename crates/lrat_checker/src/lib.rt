//! The checker of LRAT proofs. `check` reads a proof text and answers the verdict of the rules on it. It is over a
//! `Judge`, which keeps the live clauses of a proof, and says of each step why it isn't good, or takes it. Its answers
//! are exactly those of the rules' definitions, for good steps and for bad ones; a bad step and a refusal of memory
//! change nothing. Stands on the chain of hints of lrat_rules, on lrat_text, whose reader gives the steps, and on proof_judging, whose loop
//! judges them.
#![tactic(auto)]

mod addition;
mod candidates;
mod chunk;
mod clause;
mod clauses;
mod counts;
mod holders;
mod judge;
mod laws;
mod live;
mod numbers;
mod propagation;
mod resolvents;
mod slot;
mod text;
mod uses;

pub use judge::Judge;
pub use laws::{check_law, cut_law};
pub use text::{check, or_adds_empty};
pub use uses::Uses;
