// A trial of a plan behind the sums of the parity equations.
ghost use Rattle.std.specs.Prelude.{◌≡◌, length, IfOk};
ghost use Rattle.schedule_plan.specs.Limits.{AreLimits};
ghost use Rattle.schedule_plan.specs.Plan.{IsAdmissible};
ghost use Rattle.term_runner.specs.Trial.{IsTrial};

use crate::run::run_with_parity;
use cnf_base::{Cnf, OutOfMemory};
use host_io::NoSink;
use schedule_plan::{Limits, Order, Plan};
use std::alloc::Global;
use term_runner::{Trial, Watch, trial_of};

/// As `try_plan`, and adds up the formula's parity equations first.
pub fn try_with_parity(
    alloc: Global,
    formula: &Cnf,
    order: &Order,
    plan: &Plan,
    limits: Limits,
) -> Result<Trial, OutOfMemory>
    requires order { length order.now ≡ formula.now.vars }
    requires plan { IsAdmissible formula.now plan.now }
    requires limits { AreLimits limits }
    ensures { IfOk result (IsTrial formula.now order.now plan.now limits) }
{
    let mut watch = Watch::of_trial();
    let mut sink = NoSink;
    let found = run_with_parity(alloc, formula, order, plan, limits, &mut sink, &mut watch);
    trial_of(found, &watch)
}
