//! From a DRAT proof to an LRAT proof. Each step is judged, and a good one written as a line that every LRAT checker takes: an addition
//! with the hints that refute its clause, or with a group of hints for each candidate; a deletion with the number of the clause that goes.
//! Stands on the judge of drat_checker, which finds the hints, and on the rules of LRAT.
#![tactic(auto)]

mod start;
mod take;
mod text;

pub use text::convert;
