//! The law between the two formats: the DRAT proof that a verified LRAT proof becomes is verified too, over the same clauses.
//! It stands on the rules of both (lrat_rules, drat_rules), on the verdict of a text (lrat_checker), and on what the text
//! becomes (drat_proof).
#![tactic(auto)]

mod laws;

pub use laws::{drat_law, fresh_drat_law};
