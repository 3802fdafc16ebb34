//! Finds an order of the buckets and one of the diagrams, by trial runs of nine pairs of orders under limits that grow. What it
//! promises is that both are orders of the formula's variables, and that the plan is the bucket plan of the first; how good they
//! are is measured, not proved. It stands on `variable_order` for the orders, and on `term_runner` and `parity_runs` for the trials.
#![tactic(auto)]

mod candidates;
mod estimate;
mod find;
mod observer;
mod orders;
mod trial;

pub use candidates::Pair;
pub use find::{FoundPlan, find_plan};
pub use observer::{Attempt, NoObserver, Observer};
pub use orders::{Kind, Method};
