// The walk along the diagram of the formula's term.
ghost use Rattle.std.specs.Prelude.{◌≡◌, IsTrue, IfOk, MatchOption, None, true};
ghost use Rattle.std.specs.List.{list_all};
ghost use Rattle.cnf_base.specs.Cube.{cube_holds, is_consistent};
ghost use Rattle.cnf_base.specs.Truth.{Assignment, is_literal_of};
ghost use Rattle.node_table.specs.Diagram.{levels};
ghost use Rattle.cube_models.specs.Finder.{FindsNone, IsFinder};
ghost use Rattle.bdd_terms.specs.Runner.{IsGood, IsRunner, holds_in};
ghost use Rattle.cube_queries.specs.Answers.{IsLeastModel};
ghost use Rattle.cube_queries.specs.Steps.{formula_holds};

use crate::values::Values;
use bdd_terms::{Runner, Term};
use cnf_base::{Lit, OutOfMemory};
use cube_models::Finder;
use host_io::Sink;
use std::alloc::Global;

/// The least assignment that satisfies the formula of the term and the cube, if there is one. Only want of memory is refused.
pub(crate) fn least_values<S: Sink + Drop>(
    alloc: Global,
    runner: &Runner<'_, S>,
    finder: &mut Finder,
    term: &Term,
    cube: &[Lit],
) -> Result<Option<Values>, OutOfMemory>
    requires runner { IsRunner runner.now }
    requires finder { IsFinder finder.old }
    requires good { IsGood runner.now term.now.held }
    requires value { (a : Assignment) → holds_in runner.now term.now.held a ≡ formula_holds runner.now.formula.now a }
    requires variables { IsTrue (list_all (is_literal_of (levels runner.now.terms.table.graph)) cube.now) }
    requires consistent { IsTrue (is_consistent cube.now) }
    ensures finder { IsFinder finder.new }
    ensures denied { IfOk result (λ found. found ≡ None → FindsNone runner.now.terms.table.graph term.now.held.node cube.now finder.new) }
    ensures least { IfOk result (λ found. MatchOption found ((a : Assignment) → formula_holds runner.now.formula.now a ≡ true
        → cube_holds a cube.now ≡ true → ⊥)
        (λ values. IsLeastModel runner.now.formula.now runner.now.terms.table.graph.order cube.now values)) }
{
    if !finder.find(runner.table(), term.node(), cube)? {
        return Ok(None);
    }
    Ok(Some(Values::of(alloc, finder.values())?))
}
