//! Tests of the layers of proofs, `clause_ledger`, `proof_judging` and `drat_checker`. What no run of the program shows: a ledger that keeps
//! its clauses, the judge of DRAT steps beside a plain one, and the texts of errors that no answer prints. All else that no clause says is
//! shown by the cases of `tests/`.
#![tactic(auto)]

#[cfg(test)]
mod drat;
#[cfg(test)]
mod ledger;
#[cfg(test)]
mod plain_drat;
#[cfg(test)]
mod texts;
