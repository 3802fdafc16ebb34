// How a run ends that printed an outcome, and what a board's answer says of the board.
ghost use Rattle.std.specs.Prelude.{◌≡◌};
ghost use Rattle.solver_cli.specs.Answer.{status_of};

use crate::status::{Status, Why};
use term_runner::Outcome;

/// How large a board is that was decided: squares a side, variables and clauses.
#[derive(Clone, Copy)]
pub struct Shape {
    pub size: u32,
    pub vars: u32,
    pub clauses: usize,
}

/// The status of a run that printed this outcome.
pub fn status_of(outcome: &Outcome) -> Status
    ensures { result ≡ status_of outcome.now }
{
    match outcome {
        Outcome::Sat(_) => Status::Sat,
        Outcome::Unsat => Status::Unsat,
        Outcome::NodeLimit => Status::Unknown(Why::NodeLimit),
        Outcome::IdLimit => Status::Unknown(Why::IdLimit),
    }
}
