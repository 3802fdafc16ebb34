// A run of a plan behind parity reasoning, from the formula to the flushed proof.
ghost use Rattle.std.specs.Prelude.{◌≡◌, ◌≤◌, [], length, IfOk, IsTrue};
ghost use Rattle.schedule_plan.specs.Limits.{AreLimits};
ghost use Rattle.schedule_plan.specs.Plan.{IsAdmissible};
ghost use Rattle.term_runner.specs.Ends.{HasLast};
ghost use Rattle.parity_runs.specs.Ends.{EndsWithParity};

use crate::behind::go_on;
use bdd_terms::{Parts, RunError, Runner};
use cnf_base::Cnf;
use host_io::Sink;
use lrat_rules::{derivation_law, marks_law, start_law};
use node_table::in_use_law;
use parity_equations::Equations;
use parity_terms::eliminate;
use schedule_plan::{Limits, Order, Plan};
use std::alloc::Global;
use term_runner::{Run, Watch, run_plan_into};

/// Adds up the formula's parity equations, and then runs a plan, with its proof behind theirs on one sink, which is lent. Where a clause is
/// empty, or there is no equation, it is the run of the plan alone.
pub fn run_with_parity<S: Sink + Drop>(
    alloc: Global,
    formula: &Cnf,
    order: &Order,
    plan: &Plan,
    limits: Limits,
    sink: &mut S,
    watch: &mut Watch<'_>,
) -> Result<Run, RunError>
    requires order { length order.now ≡ formula.now.vars }
    requires plan { IsAdmissible formula.now plan.now }
    requires limits { AreLimits limits }
    requires fresh { IsTrue S.tells → (S.channel sink.old).written ≡ [] }
    requires begun { watch.old.moves ≡ 0 }
    ensures ends { EndsWithParity S.tells (S.channel sink.old) (S.channel sink.new) formula.now order.now plan.now limits result }
    ensures last { IfOk result (HasLast formula.now limits) }
    ensures counted { watch.new.moves ≤ length plan.now }
    ensures beside { S.beside sink.new ≡ S.beside sink.old }
{
    start_law();
    derivation_law();
    marks_law();
    in_use_law();
    formula.formula_law();
    if formula.first_empty().is_some() {
        return run_plan_into(alloc, formula, order, plan, limits, sink, watch);
    }
    let Ok(equations) = Equations::of(alloc, formula) else {
        return Err(RunError::OutOfMemory);
    };
    if equations.len() == 0 {
        return run_plan_into(alloc, formula, order, plan, limits, sink, watch);
    }
    let Ok(parts) = Parts::new(alloc, order, limits.cache) else {
        return Err(RunError::OutOfMemory);
    };
    let mut runner = Runner::new(alloc, formula, order, parts, limits, sink);
    let found = eliminate(alloc, &mut runner, &equations);
    watch.show(runner.reading(plan.len()));
    runner.proof_law();
    let (sink, result) = go_on(runner, plan, found, watch);
    // What was lent goes back.
    let _sink = sink;
    result
}
