//! Questions about one formula, each a cube of literals that are assumed together, over one diagram and on one proof. The formula's clauses
//! are conjoined once. A cube that no assignment satisfies beside them leaves the clause that forbids it on the proof; for another one the
//! least assignment is answered that satisfies both. No cube makes a node. Stands on `term_runner` for the terms and the proof, on
//! `cube_models` for the assignments and for the hints of refusals, and on `cube_text` for cubes.
#![tactic(auto)]

mod answer;
mod asking;
mod formula_term;
mod gauge;
mod refusal;
mod session;
mod steps;
mod values;
mod walk;

pub use answer::{Answer, Answers, Outcome};
pub use asking::{ask, ask_into};
pub use gauge::{Gauge, Reading};
pub use values::Values;
