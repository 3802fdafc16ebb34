// The sum of an equation and a row that begins with the same variable.
ghost use Rattle.std.specs.Prelude.{◌≡◌, ◌∷◌, ◌*◌, ℕ, Err, List, length};
ghost use Rattle.node_table.specs.declared.error.TableError.TheVariants.{NodeLimit};
ghost use Rattle.bdd_terms.specs.declared.held.HeldTerm.{HeldTerm as HeldValue};
ghost use Rattle.bdd_terms.specs.Runner.{IsRunner};
ghost use Rattle.bdd_terms.specs.Full.{IsFull};
ghost use Rattle.parity_terms.specs.Limit.{AreBounded, AreOf};
ghost use Rattle.parity_terms.specs.Order.{ArePlaces, HaveSameFirst};
ghost use Rattle.parity_terms.specs.Owned.{IsOwned, Owns};
ghost use Rattle.parity_terms.specs.Rows.{IsRow, Sums, held_of};

use crate::merge::difference;
use crate::row::Row;
use crate::steps::{both_into, sum_into};
use bdd_terms::{Runner, counting_law};
use host_io::Sink;
use node_table::{TableError, canonical_law, cofactor_law, growth_law, steps_law};
use std::alloc::Global;

/// The sum of an equation and a row, in place of the equation, whose term is released, however it ends; none where the empty clause came.
pub(crate) fn add<S: Sink + Drop>(
    alloc: Global,
    runner: &mut Runner<'_, S>,
    places: &[u32],
    row: &Row,
    current: Row,
) -> Result<Option<Row>, TableError>
    requires runner { IsRunner runner.old }
    requires row { IsRow runner.old places.now row.now }
    requires current { IsRow runner.old places.now current }
    requires same_first { HaveSameFirst row.now.variables.items current.variables.items }
    requires places { ArePlaces runner.old.terms.table.graph.order places.now }
    requires owned { IsOwned (held_of current) runner.old.terms.out.items }
    ensures sums { (terms : List HeldValue) → Owns (held_of current ∷ terms) runner.old.terms.out.items
        → Sums terms places.now row.now current runner.old runner.new result }
    ensures full { result ≡ Err NodeLimit → IsFull runner.new }
    // Over so many variables the conjunction and the sum need six parts for each, and cost two moves.
    ensures bounds { (terms : List HeldValue) (all : List ℕ) → Owns (held_of current ∷ terms) runner.old.terms.out.items
        → AreOf all row.now.variables.items → AreOf all current.variables.items
        → AreBounded (6 * length all) 2 (4 * length all) terms runner.old runner.new result }
{
    canonical_law();
    cofactor_law();
    growth_law();
    steps_law::<S>();
    counting_law::<S>();
    let found = difference(alloc, places, &row.variables[1..], &current.variables[1..]);
    let bit = current.bit;
    let both = both_into(runner, &row.term, current.term)?;
    if runner.is_refuted() {
        runner.release(both);
        return Ok(None);
    }
    let Ok(variables) = found else {
        runner.release(both);
        return Err(TableError::OutOfMemory);
    };
    let bit = row.bit != bit;
    let term = sum_into(runner, both, variables.as_slice(), bit)?;
    Ok(Some(Row {
        term,
        variables,
        bit,
    }))
}
