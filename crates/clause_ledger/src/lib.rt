//! The live clauses together with the proof that brought them about. After each call that isn't a write fault the
//! sink's bytes spell good LRAT steps from the formula's clauses to exactly the live clauses, and the formula's
//! clauses stand under 1, 2, .. at all times. New clauses come under the next number, and clauses that were added may
//! be deleted. Each call's condition is proved by its caller and not tested.
#![tactic(auto)]

mod error;
mod history;
mod kept;
mod ledger;

pub use error::LedgerError;
pub use ledger::Ledger;
