// What comes behind the sums of the equations.
ghost use Rattle.std.specs.Prelude.{◌≡◌, ◌≢◌, ◌<◌, ◌≤◌, ◌+◌, [], Err, IfOk, IsTrue, false, length};
ghost use Rattle.node_table.specs.declared.error.TableError.TheVariants.{IdLimit, NodeLimit, WriteFault};
ghost use Rattle.schedule_plan.specs.Plan.{IsAdmissible};
ghost use Rattle.term_runner.specs.Ends.{HasLast};
ghost use Rattle.bdd_terms.specs.Runner.{IsRunner};
ghost use Rattle.parity_runs.specs.Behind.{GoesOn, IsClosed, RunsPlan};

use bdd_terms::{RunError, Runner};
use host_io::Sink;
use node_table::TableError;
use schedule_plan::Plan;
use term_runner::{Outcome, Run, Watch, run};

/// Runs the plan, unless the sums ended the run. The limit of numbers is told at once, where the empty clause didn't come.
pub(crate) fn go_on<S: Sink + Drop>(
    runner: Runner<'_, S>,
    plan: &Plan,
    found: Result<bool, TableError>,
    watch: &mut Watch<'_>,
) -> (S, Result<Run, RunError>)
    requires runner { found ≢ Err WriteFault → IsRunner runner }
    requires none_out { found ≢ Err WriteFault → length runner.terms.out.items ≡ 0 }
    requires no_node_limit { found ≢ Err NodeLimit }
    requires spent { found ≡ Err IdLimit → runner.terms.table.book.limit < runner.terms.table.book.state.top + 4 }
    requires plan { found ≢ Err WriteFault → IsAdmissible runner.formula.now plan.now }
    requires fresh { IsTrue S.tells → (S.channel runner.terms.table.book.origin).written ≡ [] }
    requires beside { S.beside runner.terms.table.book.sink ≡ S.beside runner.terms.table.book.origin }
    requires begun { watch.old.moves ≡ 0 }
    ensures goes { GoesOn S.tells (S.channel runner.entry.terms.table.book.sink) (S.channel result.0) runner.entry plan.now found result.1 }
    ensures last { IfOk result.1 (HasLast runner.entry.formula.now runner.entry.limits) }
    ensures counted { watch.new.moves ≤ length plan.now }
    ensures beside { S.beside result.0 ≡ S.beside runner.entry.terms.table.book.origin }
{
    match found {
        Ok(_) => run(runner, plan, watch),
        Err(TableError::IdLimit) => at_limit(runner, plan, watch),
        Err(TableError::NodeLimit) => unreachable!(),
        Err(TableError::OutOfMemory) => (runner.into_sink(), Err(RunError::OutOfMemory)),
        Err(TableError::WriteFault) => (runner.into_sink(), Err(RunError::WriteFault)),
    }
}

// Tells the limit of numbers, where the empty clause didn't come.
fn at_limit<S: Sink + Drop>(
    runner: Runner<'_, S>,
    plan: &Plan,
    watch: &mut Watch<'_>,
) -> (S, Result<Run, RunError>)
    requires runner { IsRunner runner }
    requires spent { runner.terms.table.book.limit < runner.terms.table.book.state.top + 4 }
    requires none_out { length runner.terms.out.items ≡ 0 }
    requires plan { IsAdmissible runner.formula.now plan.now }
    requires fresh { IsTrue S.tells → (S.channel runner.terms.table.book.origin).written ≡ [] }
    requires beside { S.beside runner.terms.table.book.sink ≡ S.beside runner.terms.table.book.origin }
    requires begun { watch.old.moves ≡ 0 }
    ensures refuted { IsTrue runner.entry.refuted
        → RunsPlan S.tells (S.channel runner.entry.terms.table.book.sink) (S.channel result.0) runner.entry plan.now result.1 }
    ensures closed { runner.entry.refuted ≡ false
        → IsClosed S.tells (S.channel runner.entry.terms.table.book.sink) (S.channel result.0) runner.entry result.1 }
    ensures last { IfOk result.1 (HasLast runner.entry.formula.now runner.entry.limits) }
    ensures counted { watch.new.moves ≤ length plan.now }
    ensures beside { S.beside result.0 ≡ S.beside runner.entry.terms.table.book.origin }
{
    if runner.is_refuted() {
        return run(runner, plan, watch);
    }
    let last_id = runner.table().ledger().last_id();
    let mut sink = runner.into_sink();
    let flushed = sink.flush();
    match flushed {
        Ok(()) => {
            let outcome = Outcome::IdLimit;
            (sink, Ok(Run { outcome, last_id }))
        }
        Err(_) => (sink, Err(RunError::WriteFault)),
    }
}
