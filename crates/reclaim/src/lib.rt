//! Reclamation: nodes that no root reaches are given back with their clauses, and the caches forget what named them. It
//! stands on `node_table` for marks and sweeping, and on `operations` for the entries of caches.
#![tactic(auto)]

mod reclamation;

pub use reclamation::reclaim;
