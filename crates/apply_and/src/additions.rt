// The clause -u, -v, w of a conjunction, by two additions over the variable x of the step. With x true the defining clauses lead
// from w, u and v to their high children, whose conjunction is justified; with x false to the low ones. (Bryant, Heule: Generating
// Extended Resolution Proofs with a BDD-Based SAT Solver, 2021, section 4.2.)
ghost use Rattle.std.specs.Prelude.{◌≡◌, ◌≢◌, ◌+◌, ◌++◌, ℕ, [], ◌∷◌, Ok, Err, IfOk};
ghost use Rattle.hint_chain.specs.Atoms.{clause_from_atoms};
ghost use Rattle.node_table.specs.declared.error.TableError.TheVariants.{NodeLimit};
ghost use Rattle.node_table.specs.Table.{IsSound, UnlessTorn};
ghost use Rattle.node_table.specs.declared.node.Justification.TheVariants.{Trivial, Clause};
ghost use Rattle.node_table.specs.Justification.{IsJustified};
ghost use Rattle.node_table.specs.Progress.{Steps, error_of};
ghost use Rattle.operations.specs.Operands.{AreSplit};
ghost use Rattle.operations.specs.Results.{conjunction_atoms};
ghost use Rattle.operations.specs.Accounts.{GivesOne, RetiresNew, given_just};
ghost use Rattle.operations.specs.Entries.{IsNewJustification};
ghost use Rattle.operations.specs.Sides.{High, Low};
ghost use Rattle.apply_and.specs.Additions.{AddsConjunction, AreSides, HasSide};

use hint_chain::{
    Atom, ShortClause, StepParts, clause_from_atoms, clause_law, closing_law, conjunction_law,
};
use host_io::Sink;
use node_table::{Justification, Node, Table, TableError, steps_law};
use operations::{
    Operands, add_both, down_parts, high_clause_law, just_number, literal_law, operand_law,
    up_parts,
};

/// Justifies that w is the conjunction of the operands, where it is neither of them. Unless a write failed, the high
/// clause is retired, also where the low one is refused.
pub fn justify<S: Sink + Drop>(
    table: &mut Table<S>,
    operands: &Operands,
    w: Node,
    high: &(Node, Justification),
    low: &(Node, Justification),
) -> Result<Justification, TableError>
    requires sound { IsSound table.old }
    requires split { AreSplit table.old.graph operands.now }
    requires sides { AreSides table.old.graph table.old.book.state.live operands.now w high.now low.now }
    ensures justified { IfOk result (λ just. IsJustified table.new.book.state.live
        (conjunction_atoms table.new.graph operands.now.u operands.now.v w) just) }
    ensures named { IfOk result (λ just. IsNewJustification table.old.book.state table.new.book.state just) }
    // The two additions alone, the first of which is retired; none where the clause is true by itself.
    ensures none_added { result ≡ Ok Trivial → table.new ≡ table.old }
    ensures two_added { (id : ℕ) → result ≡ Ok (Clause id) → (id ≡ table.old.book.state.top + 2) × (table.new.book.state.top ≡ id)
        × (table.new.retired ≡ table.old.retired ++ (table.old.book.state.top + 1) ∷ []) }
    ensures told { (id : ℕ) → result ≡ Ok (Clause id) → AddsConjunction table.old table.new operands.now w }
    ensures nodes { table.new.graph ≡ table.old.graph }
    ensures steps { Steps table.old table.new 2 (error_of result) }
    ensures retires { RetiresNew table.old table.new }
    // All clauses that were added are retired, but for the one that is given.
    ensures gives { UnlessTorn result (GivesOne table.old table.new (given_just result)) }
    ensures no_node_limit { result ≢ Err NodeLimit }
{
    operand_law();
    closing_law();
    conjunction_law();
    clause_law();
    literal_law();
    high_clause_law::<S>();
    steps_law::<S>();
    let Some(clause) = conjunction_clause(table, operands, w) else {
        return Ok(Justification::Trivial);
    };
    let (high, low) = parts_of(table, operands, w, high, low);
    let id = add_both(table, operands.level, clause.as_slice(), &high, &low)?;
    Ok(Justification::Clause(id))
}

// The literals -u, -v, w; none where w is True, since the clause is true by itself.
fn conjunction_clause<S: Sink + Drop>(
    table: &Table<S>,
    operands: &Operands,
    w: Node,
) -> Option<ShortClause>
    ensures { result ≡ clause_from_atoms (conjunction_atoms table.now.graph operands.now.u operands.now.v w) }
{
    clause_from_atoms(&atoms_of(table, operands.u, operands.v, w))
}

// What the clause of a conjunction is made of: not u, not v, w.
fn atoms_of<S: Sink + Drop>(table: &Table<S>, u: Node, v: Node, w: Node) -> [Atom; 3]
    ensures { result ≡ conjunction_atoms table.now.graph u v w }
{
    [
        table.atom(u).negated(),
        table.atom(v).negated(),
        table.atom(w),
    ]
}

// What is kept of the clauses that lead from w, u and v to their children, and of the conjunctions of these, on both sides.
fn parts_of<S: Sink + Drop>(
    table: &Table<S>,
    operands: &Operands,
    w: Node,
    high: &(Node, Justification),
    low: &(Node, Justification),
) -> (StepParts, StepParts)
    requires sound { IsSound table.now }
    requires split { AreSplit table.now.graph operands.now }
    requires sides { AreSides table.now.graph table.now.book.state.live operands.now w high.now low.now }
    ensures high { HasSide table.now.graph table.now.book.state.live operands.now w High result.0 }
    ensures low { HasSide table.now.graph table.now.book.state.live operands.now w Low result.1 }
{
    operand_law();
    let result = up_parts(table, operands.level, w);
    let first = down_parts(table, operands.level, operands.u);
    let second = down_parts(table, operands.level, operands.v);
    let on_high = StepParts {
        result: result.high,
        first: first.high,
        second: second.high,
        children: just_number(&high.1),
    };
    let on_low = StepParts {
        result: result.low,
        first: first.low,
        second: second.low,
        children: just_number(&low.1),
    };
    (on_high, on_low)
}
