// A session from the formula to the flushed proof.
ghost use Rattle.std.specs.Prelude.{◌≡◌, [], IsOk, IsTrue, length};
ghost use Rattle.schedule_plan.specs.Limits.{AreLimits};
ghost use Rattle.cube_text.specs.CubeText.{AreCubes};
ghost use Rattle.cube_queries.specs.Ends.{Ends, IsFlushed, outcome_of};

use crate::answer::{Answers, Outcome};
use crate::gauge::Gauge;
use crate::session::reply_all;
use bdd_terms::{Parts, RunError, Runner};
use cnf_base::Cnf;
use cube_text::Cubes;
use host_io::Sink;
use lrat_rules::{derivation_law, marks_law, start_law};
use node_table::{TableError, in_use_law};
use schedule_plan::{Limits, Order};
use std::alloc::Global;

/// Answers cubes over a formula, and writes one proof to a sink, which is handed back. With an answer, and where a limit is reached, all
/// that was written is flushed.
pub fn ask<S: Sink + Drop>(
    alloc: Global,
    formula: &Cnf,
    order: &Order,
    cubes: &Cubes,
    limits: Limits,
    sink: S,
) -> (S, Result<Outcome, RunError>)
    requires order { length order.now ≡ formula.now.vars }
    requires cubes { AreCubes formula.now.vars cubes.now }
    requires limits { AreLimits limits }
    requires fresh { IsTrue S.tells → (S.channel sink).written ≡ [] }
    ensures ends { Ends S.tells (S.channel sink) (S.channel result.0) formula.now order.now cubes.now limits result.1 }
    ensures beside { S.beside result.0 ≡ S.beside sink }
{
    let mut sink = sink;
    let gauge = Gauge::new();
    let result = ask_into(alloc, formula, order, cubes, limits, &mut sink, &gauge);
    (sink, result)
}

/// As `ask`, over a sink that is lent. The gauge shows how far it is.
pub fn ask_into<S: Sink + Drop>(
    alloc: Global,
    formula: &Cnf,
    order: &Order,
    cubes: &Cubes,
    limits: Limits,
    sink: &mut S,
    gauge: &Gauge,
) -> Result<Outcome, RunError>
    requires order { length order.now ≡ formula.now.vars }
    requires cubes { AreCubes formula.now.vars cubes.now }
    requires limits { AreLimits limits }
    requires fresh { IsTrue S.tells → (S.channel sink.old).written ≡ [] }
    ensures ends { Ends S.tells (S.channel sink.old) (S.channel sink.new) formula.now order.now cubes.now limits result }
    ensures beside { S.beside sink.new ≡ S.beside sink.old }
{
    start_law();
    derivation_law();
    marks_law();
    in_use_law();
    formula.formula_law();
    gauge.begin(formula.len() as u64, cubes.len());
    let Ok(parts) = Parts::new(alloc, order, limits.cache) else {
        return Err(RunError::OutOfMemory);
    };
    let mut runner = Runner::new(alloc, formula, order, parts, limits, sink);
    let found = reply_all(alloc, &mut runner, formula, cubes, gauge);
    runner.proof_law();
    let (sink, result) = finish(runner, outcome_of(found));
    // What was lent goes back.
    let _sink = sink;
    result
}

// The end of a session: the proof of an outcome is flushed. It isn't where memory ran out or a write failed before.
fn finish<S: Sink + Drop>(
    runner: Runner<'_, S>,
    found: Result<Outcome, RunError>,
) -> (S, Result<Outcome, RunError>)
    requires in_step { IsOk found → IsTrue runner.terms.table.book.in_step }
    requires none_out { IsOk found → runner.terms.out.items ≡ [] }
    ensures flushes { IsFlushed S.tells (S.channel runner.entry.terms.table.book.sink) (S.channel result.0) found result.1 }
    ensures beside { S.beside result.0 ≡ S.beside runner.entry.terms.table.book.sink }
{
    let outcome = match found {
        Err(e) => return (runner.into_sink(), Err(e)),
        Ok(outcome) => outcome,
    };
    let (sink, closed) = runner.close();
    match closed {
        Ok(_) => (sink, Ok(outcome)),
        Err(e) => (sink, Err(e)),
    }
}

// What a session comes to, as an outcome or a failure: a limit is an outcome.
fn outcome_of(found: Result<Answers, TableError>) -> Result<Outcome, RunError>
    ensures { result ≡ outcome_of found }
{
    match found {
        Ok(answers) => Ok(Outcome::Answered(answers)),
        Err(TableError::NodeLimit) => Ok(Outcome::NodeLimit),
        Err(TableError::IdLimit) => Ok(Outcome::IdLimit),
        Err(TableError::OutOfMemory) => Err(RunError::OutOfMemory),
        Err(TableError::WriteFault) => Err(RunError::WriteFault),
    }
}
