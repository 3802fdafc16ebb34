// Why a text is no order.
ghost use Rattle.std.specs.Prelude.{◌≡◌};
ghost use Rattle.schedule_plan.specs.OrderReader.{number_of};

use cnf_base::OutOfMemory;
use text_scan::ScanError;
use thiserror::Error;

/// What is wrong with the text of an order. The number of a kind is its place in this list.
#[derive(Clone, Copy, Debug)]
pub enum OrderKind {
    /// A token is no plain number.
    BadNumber = 1,
    /// A number is no variable.
    Range = 2,
    /// A variable stands before already.
    Repeated = 3,
    /// The text ends before the last variable.
    Missing = 4,
}

impl OrderKind {
    pub fn number(self) -> u8
        ensures { result ≡ number_of self }
    {
        self as u8
    }
}

/// Why no order was read. After any of them what was read is given up.
#[derive(Clone, Copy, Debug, Error)]
pub enum OrderError {
    /// What is wrong, and the line.
    #[error("line {1}: {0:?}")]
    Refused(OrderKind, u64),
    #[error("a read failed")]
    ReadFault,
    #[error("the text is too long")]
    TooLong,
    #[error("out of memory")]
    OutOfMemory,
}

impl From<ScanError> for OrderError {
    ghost use Rattle.schedule_plan.specs.OrderReader.{error_of};

    ghost from_gives = { λ e f. f ≡ error_of e };

    fn from(e: ScanError) -> OrderError {
        match e {
            ScanError::ReadFault => OrderError::ReadFault,
            ScanError::TooLong => OrderError::TooLong,
        }
    }
}

impl From<OutOfMemory> for OrderError {
    ghost use Rattle.schedule_plan.specs.declared.order_error.OrderError.TheVariants.{OutOfMemory};

    ghost from_gives = { λ _ f. f ≡ OutOfMemory };

    fn from(_: OutOfMemory) -> OrderError {
        OrderError::OutOfMemory
    }
}
