//! The rules of LRAT: live clauses, hints and their chains, when an addition is good, and the verdict on a proof.
//! Layers above rely on the definitions in `specs/`, and on the laws that this crate's functions ensure.
//! (Cruz-Filipe, Heule, Hunt, Kaufmann, Schneider-Kamp: Efficient Certified RAT Verification, CADE 2017.)
#![tactic(auto)]

mod by_literal;
mod chain;
mod effect;
mod examples;
mod laws;
mod outcome;
mod soundness;
mod stamps;

pub use by_literal::ByLiteral;
pub use chain::Chain;
pub use effect::{effect_on, is_among};
pub use examples::{refutation_example, resolvent_example};
pub use laws::{
    conflict_law, definition_law, derivation_law, live_law, marks_law, refuted_law, start_law,
    steps_text_law, strict_addition_law,
};
pub use outcome::{Effect, Reason};
pub use soundness::{conservative_law, soundness_law};
