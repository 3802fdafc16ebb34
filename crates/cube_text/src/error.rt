// Why a text is no list of cubes.
ghost use Rattle.std.specs.Prelude.{◌≡◌};
ghost use Rattle.cube_text.specs.CubeReader.{number_of};

use cnf_base::OutOfMemory;
use text_scan::ScanError;
use thiserror::Error;

/// What is wrong with a text of cubes. The number of a kind is its place in this list.
#[derive(Clone, Copy, Debug)]
pub enum CubeKind {
    /// A token is no signed number.
    BadToken = 1,
    /// A literal's variable is above V.
    LiteralRange = 2,
    /// A literal's negation stands before it in its cube.
    BothSigns = 3,
    /// The text ends in a cube.
    NoEndingZero = 4,
    /// More than 1,000,000 cubes or 100,000,000 literals.
    Limit = 5,
}

impl CubeKind {
    pub fn number(self) -> u8
        ensures { result ≡ number_of self }
    {
        self as u8
    }
}

/// Why no cubes were read. After any of them what was read is given up.
#[derive(Clone, Copy, Debug, Error)]
pub enum CubeError {
    /// What is wrong, and the line.
    #[error("line {1}: {0:?}")]
    Refused(CubeKind, u64),
    #[error("a read failed")]
    ReadFault,
    #[error("the text is too long")]
    TooLong,
    #[error("out of memory")]
    OutOfMemory,
}

impl From<ScanError> for CubeError {
    ghost use Rattle.cube_text.specs.CubeReader.{error_of};

    ghost from_gives = { λ e f. f ≡ error_of e };

    fn from(e: ScanError) -> CubeError {
        match e {
            ScanError::ReadFault => CubeError::ReadFault,
            ScanError::TooLong => CubeError::TooLong,
        }
    }
}

impl From<OutOfMemory> for CubeError {
    ghost use Rattle.cube_text.specs.declared.error.CubeError.TheVariants.{OutOfMemory};

    ghost from_gives = { λ _ f. f ≡ OutOfMemory };

    fn from(_: OutOfMemory) -> CubeError {
        CubeError::OutOfMemory
    }
}
