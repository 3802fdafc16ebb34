// A clause of the formula as a term: its diagram from the last literal up, and the unit of the top node. (Bryant, Heule:
// Generating Extended Resolution Proofs with a BDD-Based SAT Solver, 2021, section 5.)
ghost use Rattle.std.specs.Prelude.{◌≡◌, ◌≢◌, ◌<◌, ◌≤◌, ◌+◌, ◌⊎◌, ℕ, [], ◌∷◌, Err, IsTrue, IfOk, IfErr, OnOk, Some};
ghost use Rattle.std.specs.List.{list_all};
ghost use Rattle.std.specs.List.Sorted.{IsNonDecreasingBy};
ghost use Rattle.cnf_base.specs.Truth.{clause_holds, is_literal_of};
ghost use Rattle.lrat_rules.specs.State.{clause_at};
ghost use Rattle.hint_chain.specs.Units.{unit_list};
ghost use Rattle.node_table.specs.declared.error.TableError.TheVariants.{NodeLimit, OutOfMemory, WriteFault};
ghost use Rattle.node_table.specs.declared.node.Node.TheVariants.{True};
ghost use Rattle.node_table.specs.declared.node.Justification.TheVariants.{Trivial, Clause};
ghost use Rattle.node_table.specs.Defined.{atom_of};
ghost use Rattle.node_table.specs.Diagram.{levels};
ghost use Rattle.node_table.specs.Justification.{IsJustified};
ghost use Rattle.node_table.specs.Made.{LacksPart, MakesOnly};
ghost use Rattle.node_table.specs.Progress.{Steps, error_of};
ghost use Rattle.node_table.specs.Table.{AddsNone, IsAddedTo, IsSound, UnlessTorn};
ghost use Rattle.clause_terms.specs.declared.placed.Placed.{Placed as PlacedValue};
ghost use Rattle.clause_terms.specs.ClauseDiagram.{IsDiagramOf};
ghost use Rattle.clause_terms.specs.Placed.{placed_function, are_of_levels, HasNoOpposites};
ghost use Rattle.clause_terms.specs.Term.{AddsUnit, clause_function, IsTerm, IsTautology, HasUnitPath};

use crate::order::{has_opposites, in_order};
use crate::placed::Placed;
use crate::step::take_literal;
use cnf_base::{Id, Lit};
use hint_chain::{UnitPart, unit_hints, unit_law, unit_path_law};
use host_io::Sink;
use lrat_rules::live_law;
use node_table::{Justification, Node, Table, TableError, steps_law, subfunction_law};
use std::alloc::Global;

/// The term of a clause of the formula, which is live under the number `input`. A clause with both signs of a variable
/// is True, and writes nothing. What was made before a refusal stays.
pub fn push_clause<S: Sink + Drop>(
    alloc: Global,
    table: &mut Table<S>,
    clause: &[Lit],
    input: Id,
) -> Result<(Node, Justification), TableError>
    requires sound { IsSound table.old }
    requires live { clause_at table.old.book.state.live input ≡ Some clause.now }
    requires variables { IsTrue (list_all (is_literal_of (levels table.old.graph)) clause.now) }
    requires some { clause.now ≢ [] }
    ensures term { IfOk result (λ found. IsTerm table.new.graph table.new.book.state.live
        (λ a. clause_holds a clause.now) found.0 found.1) }
    // The unit is the last clause. However the call ends, each node that was made is of a part of the clause.
    ensures last { IfOk result (λ found. (id : ℕ) → found.1 ≡ Clause id → (id ≡ table.new.book.state.top)
        × (table.old.book.state.top < id)) }
    // It was added, and nothing else beside definitions.
    ensures own { IfOk result (λ found. (id : ℕ) → found.1 ≡ Clause id → IsAddedTo table.new id) }
    ensures alone { IfOk result (λ found. (id : ℕ) → IsAddedTo table.new id → IsAddedTo table.old id ⊎ (found.1 ≡ Clause id)) }
    // A refusal adds none.
    ensures none_added { IfErr result (λ e. e ≢ WriteFault → AddsNone table.old table.new) }
    ensures made { MakesOnly table.old.graph table.new.graph (clause_function table.old.graph.order clause.now) }
    ensures steps { Steps table.old table.new 1 (error_of result) }
    ensures retired { table.new.retired ≡ table.old.retired }
    ensures tautology { IsTautology clause.now → (table.new ≡ table.old) × IfOk result (λ found. (found.0 ≡ True) × (found.1 ≡ Trivial))
        × IfErr result (λ e. e ≡ OutOfMemory) }
    // Where the nodes are used up, some part of the clause is the function of none.
    ensures lacks { result ≡ Err NodeLimit → LacksPart table.new.graph (clause_function table.old.graph.order clause.now) }
{
    steps_law::<S>();
    subfunction_law();
    unit_path_law();
    table.table_law();
    let placed = in_order(alloc, table, clause)?;
    if has_opposites(placed.as_slice()) {
        return Ok((Node::True, Justification::Trivial));
    }
    let (node, path) = build(alloc, table, placed.as_slice())?;
    let id = add_unit(alloc, table, node, path.as_slice(), input)?;
    Ok((node, Justification::Clause(id)))
}

// The diagram of the literals, with the path down its nodes.
fn build<S: Sink + Drop>(
    alloc: Global,
    table: &mut Table<S>,
    placed: &[Placed],
) -> Result<(Node, Vec<UnitPart>), TableError>
    requires sound { IsSound table.old }
    requires levels { IsTrue (are_of_levels table.old.graph placed.now) }
    requires sorted { IsNonDecreasingBy (λ (p : PlacedValue). p.level) placed.now }
    requires signs { HasNoOpposites placed.now }
    ensures diagram { IfOk result (λ found. IsDiagramOf table.new.graph table.new.book.state.live placed.now found.0 found.1.items) }
    ensures made { MakesOnly table.old.graph table.new.graph (placed_function placed.now) }
    ensures lacks { result ≡ Err NodeLimit → LacksPart table.new.graph (placed_function placed.now) }
    ensures steps { Steps table.old table.new 0 (error_of result) }
    ensures none_added { UnlessTorn result (AddsNone table.old table.new) }
    ensures retired { table.new.retired ≡ table.old.retired }
{
    steps_law::<S>();
    subfunction_law();
    let mut node = Node::False;
    let mut path = Vec::new(alloc);
    let mut i = placed.len();
    'literals: while i > 0 {
        i -= 1;
        node = take_literal(table, placed, i, node, &mut path)?;
    }
    path.reverse();
    Ok((node, path))
}

// Adds the unit of the top node.
fn add_unit<S: Sink + Drop>(
    alloc: Global,
    table: &mut Table<S>,
    node: Node,
    path: &[UnitPart],
    input: Id,
) -> Result<Id, TableError>
    requires sound { IsSound table.old }
    requires path { HasUnitPath table.old.graph table.old.book.state.live node path.now input }
    ensures proved { IfOk result (λ id. IsJustified table.new.book.state.live (atom_of table.new.graph node ∷ []) (Clause id)) }
    ensures told { OnOk result (AddsUnit table.old table.new node (unit_list path.now input)) }
    ensures one { IfOk result (λ id. (id ≡ table.old.book.state.top + 1) × (id ≡ table.new.book.state.top)) }
    ensures own { IfOk result (λ id. IsAddedTo table.new id) }
    ensures none_added { IfErr result (λ e. e ≢ WriteFault → AddsNone table.old table.new) }
    ensures nodes { table.new.graph ≡ table.old.graph }
    ensures steps { Steps table.old table.new 1 (error_of result) }
    ensures retired { table.new.retired ≡ table.old.retired }
    ensures no_node_limit { result ≢ Err NodeLimit }
{
    steps_law::<S>();
    unit_law();
    live_law();
    let hints = unit_hints(alloc, path, input)?;
    let unit = table.literal(node).unwrap();
    table.justify(&[unit], hints.as_slice())
}
