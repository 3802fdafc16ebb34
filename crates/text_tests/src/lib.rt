//! Tests of the layers of texts, what is read and what is written: `cnf_base`, `text_scan`, `dimacs_reader`, `cube_text`, `lrat_text`,
//! `lrat_write`, `schedule_plan`. What no clause says and no run of the program shows: that no read follows once the answer is decided,
//! which numbers are read at once, that a line is one write, and the texts of errors. All else is shown by the cases of `tests/`.
#![tactic(auto)]

#[cfg(test)]
mod lines;
#[cfg(test)]
mod support;
#[cfg(test)]
mod texts;
