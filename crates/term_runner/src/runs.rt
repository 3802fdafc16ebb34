// A run of a plan, from the formula to the flushed proof.
ghost use Rattle.std.specs.Prelude.{◌≡◌, ◌≤◌, [], length, IfOk, IsTrue};
ghost use Rattle.schedule_plan.specs.Plan.{IsAdmissible};
ghost use Rattle.schedule_plan.specs.Limits.{AreLimits};
ghost use Rattle.term_runner.specs.declared.outcome.Outcome.TheVariants.{Unsat};
ghost use Rattle.term_runner.specs.Ends.{Ends, EndsFrom, HasLast};
ghost use Rattle.bdd_terms.specs.Runner.{IsRunner};
ghost use Rattle.bdd_terms.specs.Unused.{IsUnused};

use crate::finish::finish;
use crate::outcome::{Run, outcome_of};
use crate::stacked::StackedTerms;
use crate::watch::Watch;
use bdd_terms::{Handover, Parts, RunError, Runner};
use cnf_base::Cnf;
use host_io::Sink;
use lrat_rules::{derivation_law, marks_law, soundness_law, start_law};
use node_table::{canonical_law, in_use_law, lean_law};
use schedule_plan::{Limits, Order, Plan};
use std::alloc::Global;

/// Runs a plan over a formula and writes the proof to a sink, which is handed back. A formula with an empty clause is
/// refuted by one line, without a node. With an answer, and where a limit is reached, all that was written is flushed.
/// The memory of its caches stays taken until the process ends.
pub fn run_plan<S: Sink + Drop>(
    alloc: Global,
    formula: &Cnf,
    order: &Order,
    plan: &Plan,
    limits: Limits,
    sink: S,
) -> (S, Result<Run, RunError>)
    requires order { length order.now ≡ formula.now.vars }
    requires plan { IsAdmissible formula.now plan.now }
    requires limits { AreLimits limits }
    requires fresh { IsTrue S.tells → (S.channel sink).written ≡ [] }
    ensures ends { Ends S.tells (S.channel sink) (S.channel result.0) formula.now order.now plan.now limits result.1 }
    ensures beside { S.beside result.0 ≡ S.beside sink }
{
    let mut sink = sink;
    let mut watch = Watch::new();
    let result = run_plan_into(alloc, formula, order, plan, limits, &mut sink, &mut watch);
    (sink, result)
}

/// As `run_plan`, over a sink that is lent, and watched.
pub fn run_plan_into<S: Sink + Drop>(
    alloc: Global,
    formula: &Cnf,
    order: &Order,
    plan: &Plan,
    limits: Limits,
    sink: &mut S,
    watch: &mut Watch<'_>,
) -> Result<Run, RunError>
    requires order { length order.now ≡ formula.now.vars }
    requires plan { IsAdmissible formula.now plan.now }
    requires limits { AreLimits limits }
    requires fresh { IsTrue S.tells → (S.channel sink.old).written ≡ [] }
    requires begun { watch.old.moves ≡ 0 }
    ensures ends { Ends S.tells (S.channel sink.old) (S.channel sink.new) formula.now order.now plan.now limits result }
    ensures last { IfOk result (HasLast formula.now limits) }
    ensures counted { watch.new.moves ≤ length plan.now }
    ensures beside { S.beside sink.new ≡ S.beside sink.old }
{
    start_law();
    derivation_law();
    marks_law();
    lean_law::<S>();
    formula.formula_law();
    let Ok(parts) = Parts::new(alloc, order, limits.cache) else {
        return Err(RunError::OutOfMemory);
    };
    let runner = Runner::new(alloc, formula, order, parts, limits, sink);
    let (sink, result) = run(runner, plan, watch);
    // What was lent goes back.
    let _sink = sink;
    result
}

/// Runs a plan in a runner all of whose terms are released, and flushes the proof. What the terms and cubes left is given back before the
/// first move, so that the plan's nodes and clauses are all that count then; the numbers that they took stay. Where the empty clause was
/// added the answer is `Unsat` at once. In a runner that no term was asked of it ends as `run_plan` does.
pub fn run<S: Sink + Drop>(
    runner: Runner<'_, S>,
    plan: &Plan,
    watch: &mut Watch<'_>,
) -> (S, Result<Run, RunError>)
    requires runner { IsRunner runner }
    requires none_out { length runner.terms.out.items ≡ 0 }
    requires plan { IsAdmissible runner.formula.now plan.now }
    requires fresh { IsTrue S.tells → (S.channel runner.terms.table.book.origin).written ≡ [] }
    requires begun { watch.old.moves ≡ 0 }
    ensures ends { EndsFrom runner.entry.terms.table.book.state.top S.tells (S.channel runner.entry.terms.table.book.sink) (S.channel result.0)
        runner.entry.formula.now runner.entry.terms.table.graph.order plan.now runner.entry.limits result.1 }
    ensures unused { IsUnused runner.entry → Ends S.tells (S.channel runner.entry.terms.table.book.origin) (S.channel result.0)
        runner.entry.formula.now runner.entry.terms.table.graph.order plan.now runner.entry.limits result.1 }
    ensures last { IfOk result.1 (HasLast runner.entry.formula.now runner.entry.limits) }
    ensures refuted { IsTrue runner.entry.refuted → IfOk result.1 (λ run. run.outcome ≡ Unsat) }
    ensures as_written { IsTrue runner.entry.refuted
        → (S.channel result.0).written ≡ (S.channel runner.entry.terms.table.book.sink).written }
    ensures counted { watch.new.moves ≤ length plan.now }
    ensures beside { S.beside result.0 ≡ S.beside runner.entry.terms.table.book.origin }
{
    start_law();
    derivation_law();
    soundness_law();
    in_use_law();
    canonical_law();
    let Handover {
        formula,
        limits,
        terms,
        refuted,
    } = runner.hand_over();
    let mut terms = StackedTerms::of(terms);
    formula.formula_law();
    terms.table.ledger().book_law();
    watch.begin(formula.len() as u64, limits.max_ids);
    let found = terms.decide(refuted, formula, plan, limits.cache, watch);
    watch.show(terms.reading(plan.len()));
    terms.table.table_law();
    let mut ledger = terms.into_ledger(watch.lets_go);
    ledger.book_law();
    let result = finish(&mut ledger, outcome_of(found));
    ledger.book_law();
    (ledger.close(), result)
}
