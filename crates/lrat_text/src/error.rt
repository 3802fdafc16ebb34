// Why there is no further step before the end.
ghost use Rattle.std.specs.Prelude.{◌≡◌};

use cnf_base::OutOfMemory;
use thiserror::Error;

/// Why there is no further step before the end. A reader gives it again from then on.
#[derive(Clone, Copy, Debug, Error)]
pub enum StepError {
    /// The line that spells no step.
    #[error("line {0} is no step of a proof")]
    Syntax(u64),
    #[error("a read failed")]
    ReadFault,
    #[error("the text is too long")]
    TooLong,
    #[error("out of memory")]
    OutOfMemory,
}

impl From<OutOfMemory> for StepError {
    ghost use Rattle.lrat_text.specs.declared.error.StepError.TheVariants.{OutOfMemory};

    ghost from_gives = { λ _ f. f ≡ OutOfMemory };

    fn from(_: OutOfMemory) -> StepError {
        StepError::OutOfMemory
    }
}
