//! Trims LRAT proofs. `trim` reads and judges a proof text as `check` does; of a verified one it answers the steps that the
//! refutation needs: each addition with the hints that it needs, and deletions of what is kept. Stands on the judge of
//! lrat_checker, which tells how many hints each addition takes, and on lrat_write for the lines.
#![tactic(auto)]

mod bytes;
mod core_numbers;
mod cutting;
mod decimals;
mod digits;
mod laws;
mod line_buffer;
mod lines;
mod numbers;
mod packed;
mod place;
mod row;
mod sweep;
mod text;

pub use core_numbers::Core;
pub use laws::trim_law;
pub use lines::KeptSteps;
pub use text::{Trimmed, trim};
