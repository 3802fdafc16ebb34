//! Orders of the variables, found from the hypergraph of a formula's clauses, so that a formula needs no order of its own. Each call
//! promises that what it gives is an order of the formula's variables; any order is correct for the solver, so how good it is, is
//! measured and tested, not proved. No search reads past a bound that is known before it begins, and all memory is asked for by
//! variable, literal and clause, never by a pair of them. Stands on the formula of `cnf_base` and the orders of `schedule_plan`.
#![tactic(auto)]

mod breadth_first;
mod cardinality;
mod completed;
mod degree;
mod distances;
mod edges;
mod elements;
mod groups;
mod heap;
mod holdings;
mod hypergraph;
mod levels;
mod lists;
mod neighbours;
mod profile;
mod rows;
mod stamps;

pub use cardinality::by_cardinality;
pub use degree::by_degree;
pub use hypergraph::Hypergraph;
pub use levels::by_levels;
pub use profile::by_profile;
