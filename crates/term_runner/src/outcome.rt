// What a run of a plan comes to. A limit is an outcome, and what ends a run without one is a failure (`outcome_of`).
ghost use Rattle.std.specs.Prelude.{◌≡◌};
ghost use Rattle.term_runner.specs.Ends.{outcome_of};

use bdd_terms::RunError;
use clause_terms::Model;
use node_table::TableError;

/// What was found of a formula, or at which limit it was left undecided.
#[derive(Drop)]
pub enum Outcome {
    /// No assignment satisfies it, and the proof says so.
    Unsat,
    /// These values satisfy it.
    Sat(Model),
    /// The greatest number of nodes is in use.
    NodeLimit,
    /// Fewer than four clause numbers are left.
    IdLimit,
}

/// A finished run.
#[derive(Drop)]
pub struct Run {
    pub outcome: Outcome,
    /// The greatest clause number of the proof; that of the formula's last clause where the proof is empty.
    pub last_id: u64,
}

/// The outcome of the moves of a plan: they refute the formula (None), find a model, or come to a limit.
pub(crate) fn outcome_of(found: Result<Option<Model>, TableError>) -> Result<Outcome, RunError>
    ensures { result ≡ outcome_of found }
{
    match found {
        Ok(None) => Ok(Outcome::Unsat),
        Ok(Some(model)) => Ok(Outcome::Sat(model)),
        Err(TableError::NodeLimit) => Ok(Outcome::NodeLimit),
        Err(TableError::IdLimit) => Ok(Outcome::IdLimit),
        Err(TableError::OutOfMemory) => Err(RunError::OutOfMemory),
        Err(TableError::WriteFault) => Err(RunError::WriteFault),
    }
}
