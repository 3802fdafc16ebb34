// Runs of a plan, also by an opened runner, and trials of it, which end as the runs do.
ghost use Rattle.std.specs.Prelude.{◌≡◌, length};
ghost use Rattle.schedule_plan.specs.Limits.{AreLimits};
ghost use Rattle.schedule_plan.specs.Plan.{IsAdmissible};

use bdd_terms::{RunError, Runner};
use cnf_base::Cnf;
use dimacs_reader::{Mode, read_cnf};
use host_io::{NoSink, SliceSource};
use schedule_plan::{Order, Plan};
use std::alloc::Global;
use std::process::Abort;
use std::test::Fail;
use term_runner::{Limits, Outcome, Run, Watch, run, run_plan, try_plan};

// A formula, the limits of nodes and of numbers, and how the run, the run of an opened runner and the trial of its clauses' conjunction end,
// with the last number; of the trial also the moves until half of the numbers were used, and all. The plan has three moves. The first clause
// of the last row but one is empty; in the last one all are tautologies.
const RUNS: &str = "\
p cnf 2 2 1 0 -1 0;2;11;Decided 11/Decided 11/Decided 11, 1 of 2
p cnf 2 2 1 2 0 -1 0;100;100;Decided 17/Decided 17/Decided 17, 3 of 3
p cnf 2 2 1 0 -1 0;1;11;NodeLimit 5/NodeLimit 5/NodeLimit 5, 1 of 1
p cnf 2 2 2 0 1 -2 0;3;100;NodeLimit 13/NodeLimit 13/NodeLimit 13, 2 of 2
p cnf 2 2 2 0 1 -2 0;100;17;IdLimit 17/IdLimit 17/IdLimit 17, 1 of 2
p cnf 2 2 2 0 1 -2 0;100;2;IdLimit 2/IdLimit 2/IdLimit 2, 0 of 0
p cnf 2 2 0 1 0;0;100;Decided 3/Decided 3/Decided 3, 0 of 0
p cnf 2 2 1 -1 0 2 -2 0;0;2;Decided 2/Decided 2/Decided 2, 0 of 0";

// What stands in front of a row's first semicolon and behind it.
fn cut(row: &str) -> Result<(&str, &str), Fail> {
    Ok(row.split_once(';').ok_or("no semicolon")?)
}

fn formula_of(alloc: Global, text: &str) -> Result<Cnf, Fail> {
    let mut source = SliceSource::new(text.as_bytes(), usize::MAX);
    match read_cnf(alloc, &mut source, Mode::Strict) {
        Ok(formula) => Ok(formula),
        Err(_) => Err(Fail::from("no formula")),
    }
}

fn number_of(word: &str) -> u32 {
    word.parse::<u32>().unwrap_or(0)
}

fn limits_of(nodes: &str, ids: &str) -> Limits
    ensures { AreLimits result }
{
    Limits {
        cache: 1,
        max_nodes: number_of(nodes).min(100),
        max_ids: u64::from(number_of(ids).min(100)),
    }
}

fn word_of(outcome: &Outcome) -> &'static str {
    match outcome {
        Outcome::Unsat | Outcome::Sat(_) => "Decided",
        Outcome::NodeLimit => "NodeLimit",
        Outcome::IdLimit => "IdLimit",
    }
}

// How a run ended, and its last number.
fn tell_end(ran: (NoSink, Result<Run, RunError>), text: &mut String) -> Result<(), Fail> {
    let (_, ran) = ran;
    let run = ran?;
    let (end, last) = (word_of(&run.outcome), run.last_id);
    write!(text, "{end} {last}/")?;
    Ok(())
}

// The same of a runner that is opened for the plan.
fn tell_opened(
    formula: &Cnf,
    order: &Order,
    plan: &Plan,
    limits: Limits,
    alloc: Global,
    text: &mut String,
) -> Result<(), Fail>
    requires order { length order.now ≡ formula.now.vars }
    requires plan { IsAdmissible formula.now plan.now }
    requires limits { AreLimits limits }
{
    match Runner::open(alloc, formula, order, limits, NoSink) {
        Ok(runner) => tell_end(run(runner, plan, &mut Watch::new()), text),
        Err((_, e)) => Err(e)?,
    }
}

fn tell_trial(
    formula: &Cnf,
    order: &Order,
    plan: &Plan,
    limits: Limits,
    alloc: Global,
    text: &mut String,
) -> Result<(), Fail>
    requires order { length order.now ≡ formula.now.vars }
    requires plan { IsAdmissible formula.now plan.now }
    requires limits { AreLimits limits }
{
    let trial = try_plan(alloc, formula, order, plan, limits)?;
    let (end, last) = (trial.end, trial.last_id);
    let (moves, half) = (trial.moves, trial.moves_at_half);
    write!(text, "{end:?} {last}, {half} of {moves}")?;
    Ok(())
}

fn tell(alloc: Global, formula: &Cnf, limits: Limits, text: &mut String) -> Result<(), Fail>
    requires { AreLimits limits }
{
    let order = Order::natural(alloc, formula.vars())?;
    if order.as_slice().len() != formula.vars() as usize {
        return Err(Fail::from("no order"));
    }
    let plan = Plan::conjoin(alloc, formula)?;
    tell_end(
        run_plan(alloc, formula, &order, &plan, limits, NoSink),
        text,
    )?;
    tell_opened(formula, &order, &plan, limits, alloc, text)?;
    tell_trial(formula, &order, &plan, limits, alloc, text)
}

fn expect_run(rt: &impl Abort, alloc: Global, row: &str) -> Result<(), Fail> {
    let (formula, rest) = cut(row)?;
    let (nodes, rest) = cut(rest)?;
    let (ids, wanted) = cut(rest)?;
    let formula = formula_of(alloc, formula)?;
    let mut found = String::new(alloc);
    tell(alloc, &formula, limits_of(nodes, ids), &mut found)?;
    assert_eq!(rt; found.as_str(), wanted, "{row}");
    Ok(())
}

#[test]
fn runs_and_trials(rt: HostRuntime) -> Result<(), Fail> {
    for row in RUNS.lines() {
        expect_run(&rt, rt.alloc(), row)?;
    }
    Ok(())
}
