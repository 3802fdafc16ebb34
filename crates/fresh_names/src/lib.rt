//! New names for the variables above the formula's, in a DRAT proof: each time that such a variable comes into use, it gets the next one.
//! So checkers that pass over deletions of unit clauses don't mix two definitions of one variable. A proof stays one.
//! Stands on the rules of drat_rules, and on drat_text.
#![tactic(auto)]

mod examples;
mod laws;
mod renaming;

pub use examples::fresh_example;
pub use laws::fresh_law;
pub use renaming::Renaming;
