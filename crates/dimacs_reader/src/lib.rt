//! Reads DIMACS CNF from a stream. `read_cnf` answers what the grammar says of the text in a mode, strict or lax, however
//! the reads are cut: the formula, the first refusal with its line, or that the text is too long; and it does so as soon as the bytes
//! taken decide it. It holds the formula alone. Stands on text_scan, cnf_base and host_io.
#![tactic(auto)]

mod body;
mod error;
mod header;
mod laws;
mod mode;

pub use error::{CnfError, CnfKind};
pub use header::read_cnf;
pub use laws::cnf_law;
pub use mode::Mode;
