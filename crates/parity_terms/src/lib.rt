//! Parity reasoning: Gauss's elimination over the parity equations of a formula, each with a term on the formula's proof. Where the
//! equations are in conflict the proof gets the empty clause, unless the limit of nodes ends the elimination before.
#![tactic(auto)]

mod elimination;
mod equation_term;
mod merge;
mod order;
mod row;
mod steps;
mod sum;

pub use elimination::eliminate;
