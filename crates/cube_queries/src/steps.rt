// Steps of a session.
ghost use Rattle.std.specs.Prelude.{◌≡◌, ◌≢◌, ◌≤◌, ◌-◌, ◌&&◌, ◌∷◌, [], List, IsTrue, IfOk, length, slice_index_or};
ghost use Rattle.std.specs.List.{list_all};
ghost use Rattle.cnf_base.specs.Cube.{is_consistent};
ghost use Rattle.cnf_base.specs.Truth.{Assignment, is_literal_of};
ghost use Rattle.node_table.specs.Diagram.{levels};
ghost use Rattle.node_table.specs.Progress.{error_of};
ghost use Rattle.schedule_plan.specs.Plan.{input as input_term, term_holds};
ghost use Rattle.bdd_terms.specs.declared.held.HeldTerm.{HeldTerm as HeldValue};
ghost use Rattle.bdd_terms.specs.Runner.{IsGood, IsListed, IsRunner, holds_in};
ghost use Rattle.cube_queries.specs.Steps.{Costs, Replies, TakesAlone, TakesOver, formula_holds};
ghost use Rattle.cube_queries.specs.Steps.{function_in, functions_out, functions_with};
ghost use Rattle.cube_models.specs.Finder.{IsFinder};
ghost use Rattle.cube_queries.specs.Sums.{AddsOnce, AreReady};

use crate::answer::Answer;
use crate::refusal::refuse;
use crate::walk::least_values;
use bdd_terms::{Runner, Term, counting_law};
use cnf_base::{Id, Lit};
use cube_models::Finder;
use host_io::Sink;
use node_table::{TableError, steps_law};
use std::alloc::Global;

/// The conjunction of the one term that is out, which is released, and the clause of this number.
pub(crate) fn with_clause<S: Sink + Drop>(
    runner: &mut Runner<'_, S>,
    term: Term,
    number: u32,
) -> Result<Term, TableError>
    requires runner { IsRunner runner.old }
    requires alone { IsListed [] runner.old.terms.out.items term.held }
    requires from_one { 1 ≤ number }
    requires to_len { number ≤ length runner.old.formula.now.clauses }
    requires some { slice_index_or runner.old.formula.now.clauses (number - 1) [] ≢ [] }
    ensures takes { TakesAlone (λ a. holds_in runner.old term.held a && term_holds runner.old.formula.now a (input_term number))
        runner.old runner.new result }
    ensures costs { Costs 2 (functions_with runner.old term.held number) runner.old runner.new (error_of result) }
{
    steps_law::<S>();
    let both = with_term(runner, &term, number);
    runner.release(term);
    both
}

// The conjunction of a term, which alone is out and stays, and the clause of this number.
fn with_term<S: Sink + Drop>(
    runner: &mut Runner<'_, S>,
    term: &Term,
    number: u32,
) -> Result<Term, TableError>
    requires runner { IsRunner runner.old }
    requires alone { IsListed [] runner.old.terms.out.items term.now.held }
    requires from_one { 1 ≤ number }
    requires to_len { number ≤ length runner.old.formula.now.clauses }
    requires some { slice_index_or runner.old.formula.now.clauses (number - 1) [] ≢ [] }
    ensures takes { TakesOver runner.old.terms.out.items (λ a. holds_in runner.old term.now.held a
        && term_holds runner.old.formula.now a (input_term number)) runner.old runner.new result }
    ensures costs { Costs 2 (functions_with runner.old term.now.held number) runner.old runner.new (error_of result) }
{
    counting_law::<S>();
    steps_law::<S>();
    let clause = runner.term(number)?;
    both_into(runner, term, clause)
}

// The term that holds where both do, of which the second one is released.
fn both_into<S: Sink + Drop>(
    runner: &mut Runner<'_, S>,
    u: &Term,
    v: Term,
) -> Result<Term, TableError>
    requires runner { IsRunner runner.old }
    requires first { IsGood runner.old u.now.held }
    requires second { IsGood runner.old v.held }
    ensures takes { (own : List HeldValue) → IsListed [] own u.now.held → IsListed own runner.old.terms.out.items v.held
        → TakesOver own (λ a. holds_in runner.old u.now.held a && holds_in runner.old v.held a) runner.old runner.new result }
    ensures costs { Costs 1 ((λ a. function_in runner.old u.now.held a && function_in runner.old v.held a) ∷ functions_out runner.old)
        runner.old runner.new (error_of result) }
{
    counting_law::<S>();
    steps_law::<S>();
    let both = runner.meet(u, &v);
    runner.release(v);
    both
}

/// What is answered of a cube, beside the one term that is out: the least assignment, along the term's diagram alone; where there is none,
/// the clause that forbids the cube. No node is made.
pub(crate) fn reply<S: Sink + Drop>(
    alloc: Global,
    runner: &mut Runner<'_, S>,
    finder: &mut Finder,
    sums: &mut Vec<Id>,
    term: &Term,
    cube: &[Lit],
) -> Result<Answer, TableError>
    requires runner { IsRunner runner.old }
    requires finder { IsFinder finder.old }
    requires alone { IsListed [] runner.old.terms.out.items term.now.held }
    requires sums { AreReady runner.old.terms.table.graph runner.old.terms.table.book.state.live sums.old.items }
    requires value { (a : Assignment) → holds_in runner.old term.now.held a ≡ formula_holds runner.old.formula.now a }
    requires variables { IsTrue (list_all (is_literal_of (levels runner.old.terms.table.graph)) cube.now) }
    requires consistent { IsTrue (is_consistent cube.now) }
    ensures replies { Replies cube.now runner.old runner.new result }
    ensures finder { IsFinder finder.new }
    ensures nodes { runner.new.terms.table.graph ≡ runner.old.terms.table.graph }
    ensures sums { IfOk result (λ _. AreReady runner.new.terms.table.graph runner.new.terms.table.book.state.live sums.new.items) }
    ensures once { AddsOnce sums.old.items sums.new.items runner.old runner.new result }
{
    steps_law::<S>();
    let Some(values) = least_values(alloc, runner, finder, term, cube)? else {
        return refuse(alloc, runner, finder, sums, term, cube);
    };
    Ok(Answer::Sat(values))
}
