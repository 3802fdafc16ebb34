//! The checker of DRAT proofs. `check_drat` reads a proof text and answers the verdict of the rules on it. It is over a
//! `DratJudge`, which keeps the clauses that stand, and says of each step why it isn't good, or takes it. Its answers are exactly
//! those of the rules' definitions, for good steps and for bad ones; a bad step and a refusal of memory change nothing.
//! Clauses have numbers; unit propagation is over two watched literals of each, and the literals that are false whatever is added are kept
//! from line to line. Each literal that is false has the clause that forced it, so that a good addition can be written as a line of an LRAT
//! proof: by a `NumberedJudge` and its `LineHints`.
//! Stands on the rules of drat_rules, on drat_text, whose reader gives the steps, and on proof_judging, whose loop judges them.
#![tactic(auto)]

mod addition;
mod blocked;
mod clause;
mod database;
mod false_list;
mod flags;
mod hints;
mod judge;
mod laws;
mod line;
mod literal_lists;
mod marks;
mod number_lists;
mod numbered;
mod numbers;
mod order;
mod pair;
mod propagation;
mod roots;
mod store;
mod text;
mod twins;
mod watches;

pub use hints::id_of;
pub use judge::DratJudge;
pub use laws::check_drat_law;
pub use line::LineHints;
pub use numbered::NumberedJudge;
pub use text::{check_drat, check_drat_by, or_adds_empty};
