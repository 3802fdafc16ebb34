// Gauss's elimination over the equations of a formula: each is replaced by its sum with the row that begins with its first variable, as
// long as there is one; what is left is a row itself.
ghost use Rattle.std.specs.Prelude.{◌≡◌, ◌≤◌, ◌<◌, ◌+◌, ◌*◌, ◌⊎◌, ℕ, List, [], Ok, Err, IsTrue, false, length, map};
ghost use Rattle.std.specs.List.{All, flat_map};
ghost use Rattle.parity_equations.specs.Conflict.{AreInConflict};
ghost use Rattle.node_table.specs.declared.error.TableError.TheVariants.{NodeLimit};
ghost use Rattle.parity_equations.specs.Equations.{equations as equations_of};
ghost use Rattle.parity_equations.specs.Walk.{IsEquationOf, listed};
ghost use Rattle.bdd_terms.specs.Runner.{IsRunner};
ghost use Rattle.parity_terms.specs.Ends.{Ends, ReleasesAll};
ghost use Rattle.bdd_terms.specs.Full.{IsFull};
ghost use Rattle.parity_terms.specs.Limit.{AreBounded, AreOf, AreRowsOf, CostsElimination, all_variables, nodes_needed, step_width};
ghost use Rattle.parity_terms.specs.Order.{ArePlaces};
ghost use Rattle.parity_terms.specs.Owned.{Owns};
ghost use Rattle.parity_terms.specs.Rows.{Eliminates, IsRow, TakesEquation, held_of};

use crate::equation_term::term_of_clauses;
use crate::order::{in_order, places_of};
use crate::row::{Row, row_for};
use crate::steps::met_limit;
use crate::sum::add;
use bdd_terms::{Runner, counting_law};
use host_io::Sink;
use node_table::{TableError, canonical_law, cofactor_law, growth_law, steps_law};
use parity_equations::{Equation, Equations, clauses_law, independence_law, own_clauses_law};
use std::alloc::Global;

/// Whether the empty clause came on the proof, by sums of the formula's equations. Where it didn't these aren't in conflict, or the limit
/// of nodes was met. All terms are released, unless a write failed. The limit of nodes is no error.
pub fn eliminate<S: Sink + Drop>(
    alloc: Global,
    runner: &mut Runner<'_, S>,
    equations: &Equations,
) -> Result<bool, TableError>
    requires runner { IsRunner runner.old }
    requires none_out { length runner.old.terms.out.items ≡ 0 }
    requires unrefuted { runner.old.refuted ≡ false }
    requires listed { map listed equations.now.list.items ≡ equations_of runner.old.formula.now.clauses }
    requires clauses { All (IsEquationOf runner.old.formula.now.vars runner.old.formula.now.clauses) equations.now.list.items }
    ensures ends { Ends (equations_of runner.old.formula.now.clauses) runner.old runner.new result }
    // Where they are in conflict and yet the empty clause didn't come, fewer nodes are allowed than are enough.
    ensures limit { result ≡ Ok false → (AreInConflict (equations_of runner.old.formula.now.clauses) → ⊥)
        ⊎ (runner.old.limits.max_nodes < nodes_needed (equations_of runner.old.formula.now.clauses)) }
    // However it ends, it gives few numbers.
    ensures costs { CostsElimination (length runner.old.formula.now.clauses) (length (equations_of runner.old.formula.now.clauses))
        (length (all_variables (equations_of runner.old.formula.now.clauses))) runner.old runner.new }
{
    steps_law::<S>();
    own_clauses_law();
    let mut rows = Vec::new(alloc);
    let found = take_all(alloc, runner, equations, &mut rows);
    release_all(runner, rows);
    if met_limit(&found) {
        return Ok(runner.is_refuted());
    }
    found
}

// Takes the equations, until the empty clause comes.
fn take_all<S: Sink + Drop>(
    alloc: Global,
    runner: &mut Runner<'_, S>,
    equations: &Equations,
    rows: &mut Vec<Row>,
) -> Result<bool, TableError>
    requires runner { IsRunner runner.old }
    requires none_out { length runner.old.terms.out.items ≡ 0 }
    requires unrefuted { runner.old.refuted ≡ false }
    requires clauses { All (IsEquationOf runner.old.formula.now.vars runner.old.formula.now.clauses) equations.now.list.items }
    requires none { rows.old.items ≡ [] }
    ensures eliminates { Eliminates (map listed equations.now.list.items) rows.new.items runner.old runner.new result }
    ensures full { result ≡ Err NodeLimit → IsFull runner.new }
    ensures limit { result ≡ Err NodeLimit → runner.old.limits.max_nodes < nodes_needed (map listed equations.now.list.items) }
    ensures costs { CostsElimination (length (flat_map (λ equation. equation.clauses.items) equations.now.list.items))
        (length equations.now.list.items) (length (all_variables (map listed equations.now.list.items))) runner.old runner.new }
{
    independence_law();
    growth_law();
    steps_law::<S>();
    counting_law::<S>();
    let places = places_of(alloc, runner.order())?;
    'equations: for place in 0..equations.len() {
        let is_refuted = take_equation(
            alloc,
            runner,
            places.as_slice(),
            equations.get(place),
            rows,
        )?;
        if is_refuted {
            return Ok(true);
        }
    }
    Ok(false)
}

// Takes an equation, and says whether the empty clause came.
fn take_equation<S: Sink + Drop>(
    alloc: Global,
    runner: &mut Runner<'_, S>,
    places: &[u32],
    equation: &Equation,
    rows: &mut Vec<Row>,
) -> Result<bool, TableError>
    requires runner { IsRunner runner.old }
    requires unrefuted { runner.old.refuted ≡ false }
    requires rows { All (IsRow runner.old places.now) rows.old.items }
    requires owns { Owns (map held_of rows.old.items) runner.old.terms.out.items }
    requires places { ArePlaces runner.old.terms.table.graph.order places.now }
    requires clauses { IsEquationOf runner.old.formula.now.vars runner.old.formula.now.clauses equation.now }
    ensures takes { TakesEquation places.now (listed equation.now) rows.old.items rows.new.items runner.old runner.new result }
    ensures full { result ≡ Err NodeLimit → IsFull runner.new }
    ensures few { length rows.new.items ≤ length rows.old.items + 1 }
    ensures rows_of { (all : List ℕ) → AreRowsOf all rows.old.items → AreOf all equation.now.variables.items
        → AreRowsOf all rows.new.items }
    // The terms of rows are in hand. Each clause costs two moves, and so does each sum, of which there are no more than variables.
    ensures bounds { (all : List ℕ) → AreRowsOf all rows.old.items → AreOf all equation.now.variables.items
        → AreBounded (6 * length all + 518) (2 * length equation.now.clauses.items + 2 * length all) (step_width (length all))
        (map held_of rows.old.items) runner.old runner.new result }
{
    canonical_law();
    cofactor_law();
    clauses_law();
    own_clauses_law();
    growth_law();
    steps_law::<S>();
    counting_law::<S>();
    if rows.reserve(1).is_err() {
        return Err(TableError::OutOfMemory);
    }
    let variables = in_order(alloc, places, equation.variables())?;
    let found = term_of_clauses(runner, equation.clauses())?;
    let Some(term) = found else {
        return Ok(true);
    };
    let mut current = Row {
        term,
        variables,
        bit: equation.bit(),
    };
    'rows: while let Some(place) = row_for(rows.as_slice(), &current) {
        let sum = add(alloc, runner, places, &rows[place], current)?;
        let Some(next) = sum else {
            return Ok(true);
        };
        current = next;
    }
    if current.variables.is_empty() {
        runner.release(current.term);
    } else {
        rows.push_reserved(current);
    }
    Ok(false)
}

// Releases the terms of all rows.
fn release_all<S: Sink + Drop>(runner: &mut Runner<'_, S>, rows: Vec<Row>)
    requires runner { IsTrue runner.old.terms.table.book.in_step → IsRunner runner.old }
    requires owns { IsTrue runner.old.terms.table.book.in_step → Owns (map held_of rows.items) runner.old.terms.out.items }
    ensures released { IsTrue runner.old.terms.table.book.in_step → ReleasesAll runner.old runner.new }
    ensures torn { runner.old.terms.table.book.in_step ≡ false → runner.new ≡ runner.old }
    ensures top { runner.new.terms.table.book.state.top ≡ runner.old.terms.table.book.state.top }
{
    steps_law::<S>();
    let mut rows = rows;
    'rows: while let Some(row) = rows.pop() {
        runner.release(row.term);
    }
}
