//! The steps of a textual LRAT proof from a stream: `StepReader::next` gives those that the lines of the text spell in
//! turn, however the reads are cut, up to the end or the first line that spells none. It holds one line.
//! Stands on text_scan, cnf_base and host_io.
#![tactic(auto)]

mod build;
mod draft;
mod error;
mod form;
mod laws;
mod lists;
mod numbers;
mod places;
mod reader;

pub use build::{MAX_LITERAL, first_zero, is_within, push_literal};
pub use draft::LratLine;
pub use error::StepError;
pub use form::LineForm;
pub use laws::{kept_numbers_law, line_law, long_text_law, whole_text_law};
pub use numbers::Numbers;
pub use reader::{LineReader, StepReader};
