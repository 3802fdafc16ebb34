//! Questions about a formula, as a text: cubes, each a list of literals that are assumed together. `read_cubes` gives the cubes of a
//! text, or why it is none, as `CubeText.antt` defines it; they are stored as a formula's clauses are. Stands on `text_scan` for the
//! tokens, and on `dimacs_reader` for what a number of a text adds.
#![tactic(auto)]

mod cubes;
mod error;
mod read;

pub use cubes::Cubes;
pub use error::{CubeError, CubeKind};
pub use read::{cube_text_law, read_cubes};
