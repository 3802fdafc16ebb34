// How the program ends.
ghost use Rattle.std.specs.Prelude.{◌≡◌};
ghost use Rattle.solver_cli.specs.Ended.{ended_by};
ghost use Rattle.solver_cli.specs.ExitCode.{exit_code, status_of_buckets};

use bdd_terms::RunError;
use cube_text::{CubeError, CubeKind};
use dimacs_reader::{CnfError, CnfKind};
use drat_proof::ConvertError;
use host_io::{Failed, Role};
use lrat_rules::Reason;
use proof_judging::CheckError;
use schedule_plan::{OrderError, OrderKind, PlanError, PlanKind};
use std::io::ErrorKind;

/// Why a formula was left undecided, or cubes unanswered.
#[derive(Clone, Copy, Debug)]
pub enum Why {
    /// The diagrams reached the greatest number of nodes.
    NodeLimit,
    /// The proof reached the greatest clause number, or too few are left for a node's clauses.
    IdLimit,
}

/// How the program ends.
#[derive(Clone, Copy, Debug)]
pub enum Status {
    /// The formula has a satisfying assignment, which was printed.
    Sat,
    /// The formula has none, and the proof was written.
    Unsat,
    /// The formula was left undecided, or the cubes over it unanswered.
    Unknown(Why),
    /// Each cube was answered, and the answers were printed.
    Answered,
    /// The proof refutes the formula.
    Verified,
    /// It doesn't: the line that was refused, and why.
    NotVerified(u64, Reason),
    /// The text that was asked for was written.
    Done,
    /// The command line asks for help, or for the version, which was shown.
    Help,
    /// The command line is invalid.
    Usage,
    /// The formula's text is none; the line is where that shows.
    CnfRefused(CnfKind, u64),
    /// The order's text is none of the formula's variables.
    OrderRefused(OrderKind, u64),
    /// The text of the order that the buckets are formed by is none of the formula's variables.
    BucketsRefused(OrderKind, u64),
    /// The schedule's text is no plan for the formula.
    PlanRefused(PlanKind, u64),
    /// The text of the cubes is none over the formula's variables.
    CubeRefused(CubeKind, u64),
    /// The text of this role has more than 4,000,000,000 bytes.
    TooLong(Role),
    /// A file could not be opened or read.
    ReadFault,
    /// A file or standard output could not be written.
    WriteFault,
    OutOfMemory,
}

impl Status {
    /// The exit code: 10, 20 and 0 as at SAT competitions, 0 for answered cubes, a verified proof, a text that was made and for help too, 1
    /// for a proof that isn't, 2 for a refused text, 3 to 6 for what went wrong.
    pub fn code(self) -> u8
        ensures { result ≡ exit_code self }
    {
        match self {
            Status::Sat => 10,
            Status::Unsat => 20,
            Status::Unknown(_)
            | Status::Answered
            | Status::Verified
            | Status::Done
            | Status::Help => 0,
            Status::NotVerified(..) => 1,
            Status::CnfRefused(..)
            | Status::OrderRefused(..)
            | Status::BucketsRefused(..)
            | Status::PlanRefused(..)
            | Status::CubeRefused(..)
            | Status::TooLong(_) => 2,
            Status::ReadFault => 3,
            Status::WriteFault => 4,
            Status::OutOfMemory => 5,
            Status::Usage => 6,
        }
    }
}

/// How a run ends that had to write a text yet: so, or by a write fault.
pub(crate) fn ended_by(so: Status, written: Result<(), Failed>) -> Status
    ensures { result ≡ ended_by so written }
{
    match written {
        Ok(()) => so,
        Err(_) => Status::WriteFault,
    }
}

impl From<CnfError> for Status {
    ghost use Rattle.solver_cli.specs.ExitCode.{status_of_error};

    ghost from_gives = { λ e status. status ≡ status_of_error e };

    fn from(e: CnfError) -> Status {
        match e {
            CnfError::Refused(kind, line) => Status::CnfRefused(kind, line),
            CnfError::ReadFault => Status::ReadFault,
            CnfError::TooLong => Status::TooLong(Role::Cnf),
            CnfError::OutOfMemory => Status::OutOfMemory,
        }
    }
}

impl From<OrderError> for Status {
    ghost use Rattle.solver_cli.specs.ExitCode.{status_of_order};

    ghost from_gives = { λ e status. status ≡ status_of_order e };

    fn from(e: OrderError) -> Status {
        match e {
            OrderError::Refused(kind, line) => Status::OrderRefused(kind, line),
            OrderError::ReadFault => Status::ReadFault,
            OrderError::TooLong => Status::TooLong(Role::Order),
            OrderError::OutOfMemory => Status::OutOfMemory,
        }
    }
}

/// How the program ends for what reading the order of the buckets answers.
pub(crate) fn buckets_status(error: OrderError) -> Status
    ensures { result ≡ status_of_buckets error }
{
    match error {
        OrderError::Refused(kind, line) => Status::BucketsRefused(kind, line),
        OrderError::ReadFault => Status::ReadFault,
        OrderError::TooLong => Status::TooLong(Role::Buckets),
        OrderError::OutOfMemory => Status::OutOfMemory,
    }
}

impl From<PlanError> for Status {
    ghost use Rattle.solver_cli.specs.ExitCode.{status_of_plan};

    ghost from_gives = { λ e status. status ≡ status_of_plan e };

    fn from(e: PlanError) -> Status {
        match e {
            PlanError::Refused(kind, line) => Status::PlanRefused(kind, line),
            PlanError::ReadFault => Status::ReadFault,
            PlanError::TooLong => Status::TooLong(Role::Schedule),
            PlanError::OutOfMemory => Status::OutOfMemory,
        }
    }
}

impl From<CubeError> for Status {
    ghost use Rattle.solver_cli.specs.ExitCode.{status_of_cubes};

    ghost from_gives = { λ e status. status ≡ status_of_cubes e };

    fn from(e: CubeError) -> Status {
        match e {
            CubeError::Refused(kind, line) => Status::CubeRefused(kind, line),
            CubeError::ReadFault => Status::ReadFault,
            CubeError::TooLong => Status::TooLong(Role::Cubes),
            CubeError::OutOfMemory => Status::OutOfMemory,
        }
    }
}

impl From<CheckError> for Status {
    ghost use Rattle.solver_cli.specs.ExitCode.{status_of_check};

    ghost from_gives = { λ e status. status ≡ status_of_check e };

    fn from(e: CheckError) -> Status {
        match e {
            CheckError::ReadFault => Status::ReadFault,
            CheckError::TooLong => Status::TooLong(Role::ProofIn),
            CheckError::OutOfMemory => Status::OutOfMemory,
        }
    }
}

impl From<ConvertError> for Status {
    ghost use Rattle.solver_cli.specs.ExitCode.{status_of_convert};

    ghost from_gives = { λ e status. status ≡ status_of_convert e };

    fn from(e: ConvertError) -> Status {
        match e {
            ConvertError::ReadFault => Status::ReadFault,
            ConvertError::TooLong => Status::TooLong(Role::ProofIn),
            ConvertError::OutOfMemory => Status::OutOfMemory,
            ConvertError::WriteFault => Status::WriteFault,
        }
    }
}

impl From<RunError> for Status {
    ghost use Rattle.solver_cli.specs.ExitCode.{status_of_run};

    ghost from_gives = { λ e status. status ≡ status_of_run e };

    fn from(e: RunError) -> Status {
        match e {
            RunError::OutOfMemory => Status::OutOfMemory,
            RunError::WriteFault => Status::WriteFault,
        }
    }
}

impl From<cnf_base::OutOfMemory> for Status {
    ghost use Rattle.solver_cli.specs.declared.status.Status.TheVariants.{OutOfMemory};

    ghost from_gives = { λ _ status. status ≡ OutOfMemory };

    fn from(_: cnf_base::OutOfMemory) -> Status {
        Status::OutOfMemory
    }
}

impl From<ErrorKind> for Status {
    ghost use Rattle.solver_cli.specs.Start.{status_of_kind};

    ghost from_gives = { λ kind status. status ≡ status_of_kind kind };

    fn from(kind: ErrorKind) -> Status {
        match kind {
            ErrorKind::OutOfMemory => Status::OutOfMemory,
            _ => Status::Usage,
        }
    }
}
