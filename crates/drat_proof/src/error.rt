// Why a conversion came to no verdict.
ghost use Rattle.std.specs.Prelude.{◌≡◌};
ghost use Rattle.drat_proof.specs.declared.error.ConvertError.TheVariants.{OutOfMemory as NoMemory};
ghost use Rattle.drat_proof.specs.Conversion.{convert_error};

use cnf_base::OutOfMemory;
use proof_judging::CheckError;
use thiserror::Error;

/// Why there is no verdict.
#[derive(Clone, Copy, Debug, Error)]
pub enum ConvertError {
    #[error("a read failed")]
    ReadFault,
    /// The text is longer than 4,000,000,000 bytes, and no line that ends among these is bad.
    #[error("the text is too long")]
    TooLong,
    #[error("out of memory")]
    OutOfMemory,
    #[error("a write failed")]
    WriteFault,
}

impl From<OutOfMemory> for ConvertError {
    ghost from_gives = { λ _ e. e ≡ NoMemory };

    fn from(_: OutOfMemory) -> ConvertError {
        ConvertError::OutOfMemory
    }
}

impl From<CheckError> for ConvertError {
    ghost from_gives = { λ error e. e ≡ convert_error error };

    fn from(error: CheckError) -> ConvertError {
        match error {
            CheckError::ReadFault => ConvertError::ReadFault,
            CheckError::TooLong => ConvertError::TooLong,
            CheckError::OutOfMemory => ConvertError::OutOfMemory,
        }
    }
}
