// The term of a formula: its clauses, conjoined one by one.
ghost use Rattle.std.specs.Prelude.{◌≡◌, ◌↔◌, [], IsTrue};
ghost use Rattle.node_table.specs.declared.node.Node.TheVariants.{False};
ghost use Rattle.node_table.specs.Progress.{error_of};
ghost use Rattle.bdd_terms.specs.Runner.{IsRunner};
ghost use Rattle.cube_queries.specs.Steps.{CostsPlan, TakesAlone, formula_holds};

use crate::steps::with_clause;
use bdd_terms::{Runner, Term, counting_law};
use cnf_base::Cnf;
use host_io::Sink;
use node_table::{Node, TableError, growth_law, steps_law};

/// The term that holds where the formula does. Where a clause is empty it is that of the first such clause.
pub(crate) fn term_of_formula<S: Sink + Drop>(
    runner: &mut Runner<'_, S>,
    formula: &Cnf,
) -> Result<Term, TableError>
    requires runner { IsRunner runner.old }
    requires formula { runner.old.formula.now ≡ formula.now }
    requires none_out { runner.old.terms.out.items ≡ [] }
    ensures takes { TakesAlone (formula_holds formula.now) runner.old runner.new result }
    ensures costs { CostsPlan runner.old runner.new (error_of result) }
{
    counting_law::<S>();
    growth_law();
    steps_law::<S>();
    formula.formula_law();
    if formula.is_empty() {
        return Ok(runner.truth());
    }
    if let Some(number) = formula.first_empty() {
        return runner.term(number as u32);
    }
    let mut term = runner.term(1)?;
    'clauses: for place in 1..formula.len() {
        if is_false(term.node()) {
            return Ok(term);
        }
        term = with_clause(runner, term, place as u32 + 1)?;
    }
    Ok(term)
}

fn is_false(node: Node) -> bool
    ensures { IsTrue result ↔ (node ≡ False) }
{
    match node {
        Node::False => true,
        _ => false,
    }
}
