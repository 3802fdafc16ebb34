//! The lines of a proof, written one at a time: exactly the bytes of `line_of_step`, or a front of them where a
//! write fails. Digits are made by `itoa`; a line is made on the stack, so that it costs no memory and mostly one write.
#![tactic(auto)]

mod backward;
mod line;
mod numbers;
mod step;

pub use line::{write_add, write_define, write_delete};
pub use step::write_step;
