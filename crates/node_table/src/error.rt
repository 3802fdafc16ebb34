// Why a node or a clause was not made.
use clause_ledger::LedgerError;
use cnf_base::OutOfMemory as NoMemory;
use thiserror::Error;

/// Why a call of a table failed. All but a failed write leave it unchanged.
#[derive(Clone, Copy, Debug, PartialEq, Eq, Error)]
pub enum TableError {
    /// The greatest number of nodes is in use.
    #[error("the nodes are used up")]
    NodeLimit,
    /// The greatest clause number allowed is used.
    #[error("the clause numbers are used up")]
    IdLimit,
    #[error("out of memory")]
    OutOfMemory,
    /// The proof could not be written. The table is out of step with it, and has no less than before.
    #[error("a write of the proof failed")]
    WriteFault,
}

impl From<NoMemory> for TableError {
    ghost use Rattle.std.specs.Prelude.{◌≡◌};
    ghost use Rattle.node_table.specs.declared.error.TableError.TheVariants.{OutOfMemory};

    ghost from_gives = { λ _ e. e ≡ OutOfMemory };

    fn from(_: NoMemory) -> Self {
        TableError::OutOfMemory
    }
}

impl From<LedgerError> for TableError {
    ghost use Rattle.std.specs.Prelude.{◌≡◌};
    ghost use Rattle.node_table.specs.Errors.{table_error};

    ghost from_gives = { λ ledger e. e ≡ table_error ledger };

    fn from(e: LedgerError) -> Self {
        match e {
            LedgerError::IdLimit => TableError::IdLimit,
            LedgerError::OutOfMemory => TableError::OutOfMemory,
            LedgerError::WriteFault => TableError::WriteFault,
        }
    }
}
