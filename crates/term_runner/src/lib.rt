//! Runs a plan over a formula: pushes its clauses as terms, conjoins them, quantifies variables from them, and ends with a
//! refutation on the proof, with an assignment that satisfies the formula, or at a limit. It stands on `bdd_terms` for the terms, on
//! `clause_terms` for the assignment, on `reclaim`, and on `reconstruction` for the terms of quantified variables.
#![tactic(auto)]

mod decide;
mod examples;
mod finish;
mod gauge;
mod moves;
mod open;
mod outcome;
mod reclamation;
mod runs;
mod stacked;
mod trial;
mod watch;

pub use clause_terms::{Model, Trail, push_clause, recover};
pub use examples::{whole_width_law, width_example};
pub use gauge::Gauge;
pub use outcome::{Outcome, Run};
pub use runs::{run, run_plan, run_plan_into};
pub use schedule_plan::Limits;
pub use trial::{Trial, TrialEnd, trial_of, try_plan};
pub use watch::Watch;
