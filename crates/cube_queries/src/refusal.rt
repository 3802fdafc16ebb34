// The refusal of a cube: one clause, by hints over the nodes' clauses and their sums. The sums of all nodes are added before the first one,
// and stand while no clause is deleted.
ghost use Rattle.std.specs.Prelude.{◌≡◌, ◌≢◌, ◌≤◌, ◌++◌, ◌∷◌, [], IfOk, IsTrue, OnOk, true};
ghost use Rattle.std.specs.List.{list_all};
ghost use Rattle.cnf_base.specs.Cube.{cube_holds};
ghost use Rattle.cnf_base.specs.Truth.{Assignment, is_literal_of};
ghost use Rattle.node_table.specs.Diagram.{levels};
ghost use Rattle.node_table.specs.Table.{live_nodes};
ghost use Rattle.cube_models.specs.Denied.{AreSums};
ghost use Rattle.cube_models.specs.Finder.{FindsNone};
ghost use Rattle.bdd_terms.specs.Runner.{IsListed, IsRunner, holds_in};
ghost use Rattle.cube_queries.specs.Steps.{Replies, formula_holds};
ghost use Rattle.cube_queries.specs.Sums.{Adds, AddsOnce, AreReady, IsSumAt, one_at};

use crate::answer::Answer;
use bdd_terms::{Runner, Term, counting_law};
use cnf_base::{Id, Lit, OutOfMemory};
use cube_models::{Finder, sum_of};
use host_io::Sink;
use node_table::{TableError, canonical_law, growth_law, steps_law};
use std::alloc::Global;

/// Refuses a cube, for which the search beside the one term that is out found nothing.
pub(crate) fn refuse<S: Sink + Drop>(
    alloc: Global,
    runner: &mut Runner<'_, S>,
    finder: &Finder,
    sums: &mut Vec<Id>,
    term: &Term,
    cube: &[Lit],
) -> Result<Answer, TableError>
    requires runner { IsRunner runner.old }
    requires alone { IsListed [] runner.old.terms.out.items term.now.held }
    requires sums { AreReady runner.old.terms.table.graph runner.old.terms.table.book.state.live sums.old.items }
    requires value { (a : Assignment) → holds_in runner.old term.now.held a ≡ formula_holds runner.old.formula.now a }
    requires variables { IsTrue (list_all (is_literal_of (levels runner.old.terms.table.graph)) cube.now) }
    requires none { (a : Assignment) → formula_holds runner.old.formula.now a ≡ true → cube_holds a cube.now ≡ true → ⊥ }
    requires found { FindsNone runner.old.terms.table.graph term.now.held.node cube.now finder.now }
    ensures replies { Replies cube.now runner.old runner.new result }
    ensures nodes { runner.new.terms.table.graph ≡ runner.old.terms.table.graph }
    ensures sums { IfOk result (λ _. AreSums runner.new.terms.table.graph runner.new.terms.table.book.state.live sums.new.items) }
    ensures once { AddsOnce sums.old.items sums.new.items runner.old runner.new result }
{
    canonical_law();
    counting_law::<S>();
    growth_law();
    steps_law::<S>();
    ready(alloc, runner, sums)?;
    let Some(unit) = term.unit() else {
        unreachable!();
    };
    let hints = finder.hints(runner.table(), term.node(), cube, sums.as_slice(), unit)?;
    runner.refuse(term, cube, hints.as_slice())?;
    Ok(Answer::Unsat)
}

// Adds the sums where there are none yet.
fn ready<S: Sink + Drop>(
    alloc: Global,
    runner: &mut Runner<'_, S>,
    sums: &mut Vec<Id>,
) -> Result<(), TableError>
    requires runner { IsRunner runner.old }
    requires sums { AreReady runner.old.terms.table.graph runner.old.terms.table.book.state.live sums.old.items }
    ensures adds { Adds (live_nodes runner.old.terms.table.graph) runner.old runner.new result }
    ensures sums { IfOk result (λ _. AreSums runner.new.terms.table.graph runner.new.terms.table.book.state.live sums.new.items) }
    ensures there { sums.old.items ≢ [] → (runner.new ≡ runner.old) × (sums.new.items ≡ sums.old.items) }
    ensures none { IfOk result (λ _. sums.new.items ≡ [] → runner.new.terms.table.book.state.top ≤ runner.old.terms.table.book.state.top) }
{
    steps_law::<S>();
    if !sums.is_empty() {
        return Ok(());
    }
    *sums = add_sums(alloc, runner)?;
    Ok(())
}

// Adds the sums of all nodes. Their numbers stand at the nodes' keys.
fn add_sums<S: Sink + Drop>(
    alloc: Global,
    runner: &mut Runner<'_, S>,
) -> Result<Vec<Id>, TableError>
    requires { IsRunner runner.old }
    ensures adds { Adds (live_nodes runner.old.terms.table.graph) runner.old runner.new result }
    ensures sums { IfOk result (λ sums. AreSums runner.new.terms.table.graph runner.new.terms.table.book.state.live sums.items) }
    ensures none { IfOk result (λ sums. sums.items ≡ []
        → runner.new.terms.table.book.state.top ≤ runner.old.terms.table.book.state.top) }
{
    steps_law::<S>();
    let mut sums = Vec::new(alloc);
    'keys: for key in 0..runner.table().key_end() {
        let id = add_sum(runner, key)?;
        keep(&mut sums, id)?;
    }
    Ok(sums)
}

// Adds the sum of the node of a key, if it has one, and answers its number, else 0.
fn add_sum<S: Sink + Drop>(runner: &mut Runner<'_, S>, key: u32) -> Result<Id, TableError>
    requires { IsRunner runner.old }
    ensures adds { Adds (one_at runner.old.terms.table.graph.nodes key) runner.old runner.new result }
    ensures sum { IfOk result (IsSumAt runner.new.terms.table.graph runner.new.terms.table.book.state.live key) }
{
    steps_law::<S>();
    match sum_of(runner.table(), key) {
        None => Ok(Id(0)),
        Some(sum) => runner.derive(sum.clause.as_slice(), &[sum.high, sum.low]),
    }
}

// Appends a number.
fn keep(sums: &mut Vec<Id>, id: Id) -> Result<(), OutOfMemory>
    ensures { OnOk result (sums.new.items ≡ sums.old.items ++ id ∷ []) }
{
    sums.push(id)?;
    Ok(())
}
