// A session: the formula's term, whose nodes alone stay, then the cubes in turn.
ghost use Rattle.std.specs.Prelude.{◌≡◌, ◌≢◌, [], Err, IsTrue};
ghost use Rattle.node_table.specs.declared.error.TableError.TheVariants.{IdLimit, NodeLimit};
ghost use Rattle.cnf_base.specs.Truth.{Assignment};
ghost use Rattle.cube_text.specs.CubeText.{AreCubes};
ghost use Rattle.node_table.specs.Diagram.{levels};
ghost use Rattle.node_table.specs.Progress.{error_of};
ghost use Rattle.bdd_terms.specs.Runner.{IsListed, IsRunner, holds_in};
ghost use Rattle.cube_queries.specs.Steps.{CostsAll, CostsCubes, IsSpent, RepliesAll, formula_holds};

use crate::answer::Answers;
use crate::formula_term::term_of_formula;
use crate::gauge::Gauge;
use crate::steps::reply;
use bdd_terms::{Runner, Term, counting_law};
use cnf_base::Cnf;
use cube_models::Finder;
use cube_text::Cubes;
use host_io::Sink;
use node_table::{TableError, steps_law};
use std::alloc::Global;

/// Answers all cubes.
pub(crate) fn reply_all<S: Sink + Drop>(
    alloc: Global,
    runner: &mut Runner<'_, S>,
    formula: &Cnf,
    cubes: &Cubes,
    gauge: &Gauge,
) -> Result<Answers, TableError>
    requires runner { IsRunner runner.old }
    requires formula { runner.old.formula.now ≡ formula.now }
    requires none_out { runner.old.terms.out.items ≡ [] }
    requires cubes { AreCubes (levels runner.old.terms.table.graph) cubes.now }
    ensures replies { RepliesAll cubes.now runner.old runner.new result }
    ensures costs { CostsAll cubes.now runner.old runner.new (error_of result) }
    ensures none_out { IsTrue runner.new.terms.table.book.in_step → runner.new.terms.out.items ≡ [] }
{
    steps_law::<S>();
    formula.formula_law();
    let term = term_of_formula(runner, formula)?;
    let answers = reply_each(alloc, runner, &term, cubes, gauge);
    runner.release(term);
    answers
}

// Answers the cubes, beside the formula's term. Nodes that it doesn't reach are given back before, and none is made.
fn reply_each<S: Sink + Drop>(
    alloc: Global,
    runner: &mut Runner<'_, S>,
    term: &Term,
    cubes: &Cubes,
    gauge: &Gauge,
) -> Result<Answers, TableError>
    requires runner { IsRunner runner.old }
    requires alone { IsListed [] runner.old.terms.out.items term.now.held }
    requires value { (a : Assignment) → holds_in runner.old term.now.held a ≡ formula_holds runner.old.formula.now a }
    requires cubes { AreCubes (levels runner.old.terms.table.graph) cubes.now }
    ensures replies { RepliesAll cubes.now runner.old runner.new result }
    ensures costs { CostsCubes cubes.now runner.old runner.new }
    ensures out { runner.new.terms.out.items ≡ runner.old.terms.out.items }
    ensures no_limit { result ≢ Err NodeLimit }
    ensures spent { result ≡ Err IdLimit → IsSpent runner.new }
{
    counting_law::<S>();
    steps_law::<S>();
    let mut answers = Answers::new(alloc);
    let mut finder = Finder::new(alloc);
    let mut sums = Vec::new(alloc);
    let _ = runner.reclaim()?;
    'cubes: for place in 0..cubes.len() {
        let cube = cubes.cube(place + 1);
        let answer = reply(alloc, runner, &mut finder, &mut sums, term, cube)?;
        answers.push(answer)?;
        gauge.show(place + 1);
    }
    Ok(answers)
}
