// The answer for a proof, and why there may be none.
ghost use Rattle.std.specs.Prelude.{◌≡◌};
ghost use Rattle.proof_judging.specs.Verdict.{end_verdict, error_answer};

use cnf_base::OutOfMemory;
use lrat_rules::Reason;
use lrat_text::StepError;
use thiserror::Error;

/// What a proof is over a formula.
#[derive(Clone, Copy)]
pub enum Verdict {
    /// Each line is a good step, and some line adds the empty clause.
    Verified,
    /// The first bad line, or that of the end where no line adds the empty clause.
    Refused { line: u64, reason: Reason },
}

/// Why there is no verdict.
#[derive(Clone, Copy, Debug, Error)]
pub enum CheckError {
    #[error("a read failed")]
    ReadFault,
    /// The text is longer than 4,000,000,000 bytes, and no line that ends among these is bad.
    #[error("the text is too long")]
    TooLong,
    #[error("out of memory")]
    OutOfMemory,
}

impl From<OutOfMemory> for CheckError {
    ghost use Rattle.proof_judging.specs.declared.verdict.CheckError.TheVariants.{OutOfMemory};

    ghost from_gives = { λ _ f. f ≡ OutOfMemory };

    fn from(_: OutOfMemory) -> CheckError {
        CheckError::OutOfMemory
    }
}

/// The answer where the reader of the proof gives an error: a line that spells no step is refused; else there is no verdict.
pub fn answer_to(error: StepError) -> Result<Verdict, CheckError>
    ensures { result ≡ error_answer error }
{
    match error {
        StepError::Syntax(line) => Ok(Verdict::Refused {
            line,
            reason: Reason::Syntax,
        }),
        StepError::TooLong => Err(CheckError::TooLong),
        StepError::ReadFault => Err(CheckError::ReadFault),
        StepError::OutOfMemory => Err(CheckError::OutOfMemory),
    }
}

/// The verdict behind good steps, at the end of the proof, which stands on this line.
pub fn verdict_at_end(has_empty: bool, line: u64) -> Verdict
    ensures { result ≡ end_verdict has_empty line }
{
    if has_empty {
        Verdict::Verified
    } else {
        Verdict::Refused {
            line,
            reason: Reason::NoEmptyClause,
        }
    }
}
