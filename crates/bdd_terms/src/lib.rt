//! The terms of a formula on one proof, one by one: those of its clauses, their conjunctions, and weaker ones. A term is a node with the
//! unit clause that proves it. Stands on `clause_terms` for the terms of clauses, on `apply_and`, `quantify` and `imply` for the operations,
//! on `parity_nodes` for sums, and on `reclaim`.
#![tactic(auto)]

mod caches;
mod capacity;
mod counting;
mod error;
mod found;
mod handover;
mod held;
mod hinted;
mod parity;
mod reading;
mod retry;
mod runner;
mod sets;
mod term;
mod terms;
mod unit;
mod weaker;

pub use caches::Caches;
pub use counting::counting_law;
pub use error::RunError;
pub use found::{conjunction, input, weaken, weaken_all};
pub use handover::Handover;
pub use held::HeldTerm;
pub use reading::{CacheLookups, Lookups, Reading};
pub use retry::{RECLAIM_FROM, is_node_limit, is_tidy};
pub use runner::{Parts, Runner};
pub use sets::{falling_of, levels_of};
pub use term::{Term, nodes_of};
pub use terms::Terms;
pub use unit::{is_same, retire_unit};
