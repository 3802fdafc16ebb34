//! Runs of a plan behind parity reasoning: the formula's parity equations are added up first, on the same proof.
#![tactic(auto)]

mod behind;
mod run;
mod trial;

pub use run::run_with_parity;
pub use trial::try_with_parity;
