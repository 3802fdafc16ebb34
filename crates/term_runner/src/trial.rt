// A trial of a plan: a run that writes nothing, to see how far a plan comes within some limits.
ghost use Rattle.std.specs.Prelude.{◌≡◌, ◌≢◌, ◌≤◌, ℕ, List, Err, IfOk, length};
ghost use Rattle.cnf_base.specs.Formula.{Formula};
ghost use Rattle.schedule_plan.specs.declared.limits.Limits.{Limits as LimitsValue};
ghost use Rattle.schedule_plan.specs.declared.plan.Move.{Move};
ghost use Rattle.schedule_plan.specs.Limits.{AreLimits};
ghost use Rattle.schedule_plan.specs.Plan.{IsAdmissible};
ghost use Rattle.bdd_terms.specs.declared.error.RunError.TheVariants.{WriteFault};
ghost use Rattle.term_runner.specs.Ends.{HasLast, Says};
ghost use Rattle.term_runner.specs.Trial.{IsTrial, end_of};

use crate::outcome::{Outcome, Run};
use crate::runs::run_plan_into;
use crate::watch::Watch;
use bdd_terms::RunError;
use cnf_base::{Cnf, OutOfMemory};
use host_io::NoSink;
use schedule_plan::{Limits, Order, Plan};
use std::alloc::Global;

/// How a trial ended.
#[derive(Clone, Copy, Debug)]
pub enum TrialEnd {
    /// The formula is decided.
    Decided,
    /// The greatest number of nodes is in use.
    NodeLimit,
    /// Fewer than four clause numbers are left.
    IdLimit,
}

/// How far a trial came.
#[derive(Clone, Copy)]
pub struct Trial {
    pub end: TrialEnd,
    /// The greatest clause number that was given; that of the formula's last clause where none was.
    pub last_id: u64,
    /// The moves that were done. A move that refutes the formula isn't counted, nor is one at which a limit was reached.
    pub moves: usize,
    /// Those that were done when half of the numbers above the formula's were used.
    pub moves_at_half: usize,
}

/// Runs a plan over a formula without writing a proof, and tells how far it came. It keeps no memory.
pub fn try_plan(
    alloc: Global,
    formula: &Cnf,
    order: &Order,
    plan: &Plan,
    limits: Limits,
) -> Result<Trial, OutOfMemory>
    requires order { length order.now ≡ formula.now.vars }
    requires plan { IsAdmissible formula.now plan.now }
    requires limits { AreLimits limits }
    ensures { IfOk result (IsTrial formula.now order.now plan.now limits) }
{
    let mut watch = Watch::of_trial();
    let mut sink = NoSink;
    let found = run_plan_into(alloc, formula, order, plan, limits, &mut sink, &mut watch);
    trial_of(found, &watch)
}

/// What a trial tells, whose run ended so, and which was watched.
pub fn trial_of(found: Result<Run, RunError>, watch: &Watch<'_>) -> Result<Trial, OutOfMemory>
    requires no_fault { found ≢ Err WriteFault }
    ensures { (formula : Formula) (order : List ℕ) (moves : List Move) (limits : LimitsValue) → watch.now.moves ≤ length moves
        → IfOk found (λ run. Says formula order moves limits run.outcome) → IfOk found (HasLast formula limits)
        → IfOk result (IsTrial formula order moves limits) }
{
    match found {
        Ok(run) => Ok(Trial {
            end: end_of(&run.outcome),
            last_id: run.last_id,
            moves: watch.moves,
            moves_at_half: watch.moves_at_half,
        }),
        Err(RunError::OutOfMemory) => Err(OutOfMemory),
        Err(RunError::WriteFault) => unreachable!(),
    }
}

fn end_of(outcome: &Outcome) -> TrialEnd
    ensures { result ≡ end_of outcome.now }
{
    match outcome {
        Outcome::Unsat | Outcome::Sat(_) => TrialEnd::Decided,
        Outcome::NodeLimit => TrialEnd::NodeLimit,
        Outcome::IdLimit => TrialEnd::IdLimit,
    }
}
