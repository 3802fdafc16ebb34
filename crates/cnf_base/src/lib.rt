//! What the whole solver speaks of: literals and formulas with their truth, texts in lines and tokens, numbers in
//! texts, and the steps that the lines of a proof spell.
#![tactic(auto)]

mod examples;
mod formula;
mod laws;
mod list;
mod literal;
mod memory;
mod step;

pub use examples::{number_examples, proof_example, step_examples, token_examples};
pub use formula::{Cnf, CnfBuilder};
pub use laws::{front_of_line_law, number_laws, one_more_line_law, step_line_law, step_range_law};
pub use list::{Group, GroupList, Id, IdList, Items, LitList};
pub use literal::Lit;
pub use memory::OutOfMemory;
pub use step::Step;
