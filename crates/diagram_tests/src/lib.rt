//! Tests of the layers of diagrams, `node_table` and `term_runner`. What no run of the program shows: a table over a ledger that keeps its
//! clauses, an opened runner and a trial beside the run of the same plan, and the texts of errors that no answer prints. All else that no
//! clause says, lines of proofs above all, is shown by the cases of `tests/`.
#![tactic(auto)]

#[cfg(test)]
mod runs;
#[cfg(test)]
mod tables;
