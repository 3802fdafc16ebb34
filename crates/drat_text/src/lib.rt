//! The textual DRAT format. `write_drat` writes the lines of a proof, one at a time: exactly the bytes of `line_of_drat`, or a
//! front of them where a write fails. A line is collected on the stack, so that it costs no memory and mostly one write.
//! `DratReader` gives the steps that the lines of a text spell, in turn: it is lrat_text's reader with DRAT's form of lines.
//! Stands on lrat_text, text_scan, cnf_base and host_io.
#![tactic(auto)]

mod build;
mod laws;
mod line;
mod step;
mod writer;

pub use laws::{drat_line_law, drat_text_law};
pub use line::{DratLine, DratReader};
pub use step::DratStep;
pub use writer::write_drat;
