// Why a text is no plan.
ghost use Rattle.std.specs.Prelude.{◌≡◌};
ghost use Rattle.schedule_plan.specs.ScheduleState.{number_of};

use cnf_base::OutOfMemory;
use std::alloc::AllocFailed;
use thiserror::Error;

/// What is wrong with a schedule. The number of a kind is its place in this list.
#[derive(Clone, Copy, Debug)]
pub enum PlanKind {
    /// A line is no command.
    Syntax = 1,
    /// A number is none of a clause.
    ClauseRange = 2,
    /// A clause was pushed before.
    ClauseTwice = 3,
    /// There are too few terms.
    StackShort = 4,
    /// A number is none of a variable.
    VariableRange = 5,
    /// Another stacked term or a clause to come holds a variable that is quantified.
    VariableInUse = 6,
    /// At the end some clause wasn't pushed.
    ClauseUnused = 7,
    /// At the end there is more than one term.
    TermsLeft = 8,
}

impl PlanKind {
    pub fn number(self) -> u8
        ensures { result ≡ number_of self }
    {
        self as u8
    }
}

/// Why no plan was read. After any of them what was read is given up.
#[derive(Clone, Copy, Debug, Error)]
pub enum PlanError {
    /// What is wrong, and the line.
    #[error("line {1}: {0:?}")]
    Refused(PlanKind, u64),
    #[error("a read failed")]
    ReadFault,
    #[error("the text is too long")]
    TooLong,
    #[error("out of memory")]
    OutOfMemory,
}

impl From<OutOfMemory> for PlanError {
    ghost use Rattle.std.specs.Prelude.{◌≡◌};
    ghost use Rattle.schedule_plan.specs.declared.schedule.error.PlanError.TheVariants.{OutOfMemory};

    ghost from_gives = { λ _ f. f ≡ OutOfMemory };

    fn from(_: OutOfMemory) -> PlanError {
        PlanError::OutOfMemory
    }
}

impl<T: Drop> From<AllocFailed<T>> for PlanError {
    ghost use Rattle.std.specs.Prelude.{◌≡◌};
    ghost use Rattle.schedule_plan.specs.declared.schedule.error.PlanError.TheVariants.{OutOfMemory};

    ghost from_gives = { λ _ f. f ≡ OutOfMemory };

    fn from(_: AllocFailed<T>) -> PlanError {
        PlanError::OutOfMemory
    }
}
