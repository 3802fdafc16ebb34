// Why a text is no formula.
ghost use Rattle.std.specs.Prelude.{◌≡◌};
ghost use Rattle.dimacs_reader.specs.Answers.{number_of};

use cnf_base::OutOfMemory;
use text_scan::ScanError;
use thiserror::Error;

/// What is wrong with a text. The number of a kind is its place in this list.
#[derive(Clone, Copy, Debug)]
pub enum CnfKind {
    /// The first token isn't `p`, or there is none.
    NoHeader = 1,
    /// `cnf` or one of the two numbers is missing or none.
    BadHeader = 2,
    /// A token is no signed number.
    BadToken = 3,
    /// A literal's variable is above V.
    LiteralRange = 4,
    /// A number stands after the last clause.
    TooManyClauses = 5,
    /// The text ends before the last clause.
    ClauseMissing = 6,
    /// The text ends in a clause.
    NoEndingZero = 7,
    /// More than 1,000,000 variables, 10,000,000 clauses or 100,000,000 literals.
    Limit = 8,
}

impl CnfKind {
    pub fn number(self) -> u8
        ensures { result ≡ number_of self }
    {
        self as u8
    }
}

/// Why no formula was read. After any of them what was read is given up.
#[derive(Clone, Copy, Debug, Error)]
pub enum CnfError {
    /// What is wrong, and the line.
    #[error("line {1}: {0:?}")]
    Refused(CnfKind, u64),
    #[error("a read failed")]
    ReadFault,
    #[error("the text is too long")]
    TooLong,
    #[error("out of memory")]
    OutOfMemory,
}

impl From<ScanError> for CnfError {
    ghost use Rattle.dimacs_reader.specs.Answers.{error_of};

    ghost from_gives = { λ e f. f ≡ error_of e };

    fn from(e: ScanError) -> CnfError {
        match e {
            ScanError::ReadFault => CnfError::ReadFault,
            ScanError::TooLong => CnfError::TooLong,
        }
    }
}

impl From<OutOfMemory> for CnfError {
    ghost use Rattle.dimacs_reader.specs.declared.error.CnfError.TheVariants.{OutOfMemory};

    ghost from_gives = { λ _ f. f ≡ OutOfMemory };

    fn from(_: OutOfMemory) -> CnfError {
        CnfError::OutOfMemory
    }
}
