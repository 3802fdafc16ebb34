//! From an LRAT proof to a DRAT proof. `convert` reads an LRAT text, judges its steps in turn, and writes what each good one
//! becomes: an addition its clause, a deletion a line for each clause that it takes out; by new names for the variables above the
//! formula's where these are asked for (fresh_names).
#![tactic(auto)]

mod error;
mod line;
mod naming;
mod take;
mod text;

pub use error::ConvertError;
pub use text::convert;
