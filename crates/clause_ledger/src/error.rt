// Why a clause was not added.
ghost use Rattle.std.specs.Prelude.{◌≡◌};
ghost use Rattle.clause_ledger.specs.declared.error.LedgerError.TheVariants.{OutOfMemory as NoMemory, WriteFault};

use cnf_base::OutOfMemory;
use host_io::Failed;
use thiserror::Error;

/// Why a call of a ledger failed. The first two leave it unchanged.
#[derive(Clone, Copy, Debug, Error)]
pub enum LedgerError {
    /// The greatest clause number allowed is used.
    #[error("the clause numbers are used up")]
    IdLimit,
    #[error("out of memory")]
    OutOfMemory,
    /// The sink failed: what was written of the call is a front of its line.
    #[error("a write of the proof failed")]
    WriteFault,
}

impl From<OutOfMemory> for LedgerError {
    ghost from_gives = { λ _ e. e ≡ NoMemory };

    fn from(_: OutOfMemory) -> Self {
        LedgerError::OutOfMemory
    }
}

impl From<Failed> for LedgerError {
    ghost from_gives = { λ _ e. e ≡ WriteFault };

    fn from(_: Failed) -> Self {
        LedgerError::WriteFault
    }
}
