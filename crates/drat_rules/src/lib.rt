//! The rules of DRAT: when an addition is good, what a step leaves, the verdict on a list of steps, and their laws.
//! Layers above rely on the definitions in `specs/`, and on the laws that this crate's functions ensure.
//! (Wetzler, Heule, Hunt: DRAT-trim: Efficient Checking and Trimming Using Expressive Clausal Proofs, SAT 2014.)
#![tactic(auto)]

mod any_order;
mod deletions;
mod examples;
mod from_lrat;
mod laws;
mod soundness;

pub use any_order::any_order_law;
pub use deletions::Deletions;
pub use examples::{addition_example, any_order_example, deletion_example};
pub use from_lrat::from_lrat_law;
pub use laws::{drat_addition_law, propagation_law, quiet_law, same_clauses_law};
pub use soundness::drat_soundness_law;
