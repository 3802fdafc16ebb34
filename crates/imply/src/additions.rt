// The clause -u, v of an implication, by two additions over the variable x of the step. With x true the defining clauses lead
// from u and v to their high children, whose implication is justified; with x false to the low ones. (Bryant, Heule: Generating
// Extended Resolution Proofs with a BDD-Based SAT Solver, 2021, section 4.3.)
ghost use Rattle.std.specs.Prelude.{◌≡◌, ◌≢◌, None, Err, IfOk, OnOk, Some};
ghost use Rattle.hint_chain.specs.Atoms.{clause_from_atoms};
ghost use Rattle.node_table.specs.declared.error.TableError.TheVariants.{NodeLimit, IdLimit};
ghost use Rattle.node_table.specs.Table.{IsSound, IsUsedUp, UnlessTorn};
ghost use Rattle.node_table.specs.Justification.{IsJustified};
ghost use Rattle.node_table.specs.Progress.{Steps, error_of};
ghost use Rattle.operations.specs.Operands.{AreSplit};
ghost use Rattle.operations.specs.Results.{implication_atoms};
ghost use Rattle.operations.specs.Accounts.{GivesOne, RetiresNew, given_just};
ghost use Rattle.operations.specs.Sides.{High, Low};
ghost use Rattle.imply.specs.Additions.{AddsImplication, AreSides, HasSide};

use hint_chain::{
    Atom, ShortClause, StepParts, clause_from_atoms, clause_law, closing_law, implication_law,
};
use host_io::Sink;
use node_table::{Justification, Node, Table, TableError};
use operations::{Operands, add_both, down_parts, just_number, literal_law, operand_law, up_parts};

/// Justifies that u implies v. Unless a write failed, the high clause is retired, also where the low one is refused.
pub fn justify<S: Sink + Drop>(
    table: &mut Table<S>,
    operands: &Operands,
    high: &Justification,
    low: &Justification,
) -> Result<Justification, TableError>
    requires sound { IsSound table.old }
    requires split { AreSplit table.old.graph operands.now }
    requires sides { AreSides table.old.graph table.old.book.state.live operands.now high.now low.now }
    ensures justified { IfOk result (λ just. IsJustified table.new.book.state.live
        (implication_atoms table.new.graph operands.now.u operands.now.v) just) }
    ensures told { OnOk result (AddsImplication table.old table.new operands.now) }
    ensures nodes { table.new.graph ≡ table.old.graph }
    ensures steps { Steps table.old table.new 2 (error_of result) }
    ensures retires { RetiresNew table.old table.new }
    // All clauses that were added are retired, but for the one that is given.
    ensures gives { UnlessTorn result (GivesOne table.old table.new (given_just result)) }
    ensures no_node_limit { result ≢ Err NodeLimit }
    ensures id_limit { result ≡ Err IdLimit → IsUsedUp table.new }
{
    operand_law();
    closing_law();
    implication_law();
    clause_law();
    literal_law();
    let clause = implication_clause(table, operands);
    let (high, low) = parts_of(table, operands, high, low);
    let id = add_both(table, operands.level, clause.as_slice(), &high, &low)?;
    Ok(Justification::Clause(id))
}

// The literals -u, v.
fn implication_clause<S: Sink + Drop>(table: &Table<S>, operands: &Operands) -> ShortClause
    requires sound { IsSound table.now }
    requires split { AreSplit table.now.graph operands.now }
    ensures { clause_from_atoms (implication_atoms table.now.graph operands.now.u operands.now.v) ≡ Some result }
{
    literal_law();
    clause_from_atoms(&atoms_of(table, operands.u, operands.v)).unwrap()
}

// What the clause of an implication is made of: not u, v.
fn atoms_of<S: Sink + Drop>(table: &Table<S>, u: Node, v: Node) -> [Atom; 2]
    ensures { result ≡ implication_atoms table.now.graph u v }
{
    [table.atom(u).negated(), table.atom(v)]
}

// What is kept of the clauses that lead from u and v to their children, and of the implications of these, on both sides.
fn parts_of<S: Sink + Drop>(
    table: &Table<S>,
    operands: &Operands,
    high: &Justification,
    low: &Justification,
) -> (StepParts, StepParts)
    requires sound { IsSound table.now }
    requires split { AreSplit table.now.graph operands.now }
    requires sides { AreSides table.now.graph table.now.book.state.live operands.now high.now low.now }
    ensures high { HasSide table.now.graph table.now.book.state.live operands.now High result.0 }
    ensures low { HasSide table.now.graph table.now.book.state.live operands.now Low result.1 }
{
    operand_law();
    let first = down_parts(table, operands.level, operands.u);
    let second = up_parts(table, operands.level, operands.v);
    let on_high = StepParts {
        result: None,
        first: first.high,
        second: second.high,
        children: just_number(high),
    };
    let on_low = StepParts {
        result: None,
        first: first.low,
        second: second.low,
        children: just_number(low),
    };
    (on_high, on_low)
}
