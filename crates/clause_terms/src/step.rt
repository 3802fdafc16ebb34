// One literal more on top of a clause's diagram: its node, and the part of it in the unit's path. (Bryant, Heule:
// Generating Extended Resolution Proofs with a BDD-Based SAT Solver, 2021, section 5.)
ghost use Rattle.std.specs.Prelude.{◌≡◌, ◌≢◌, ◌<◌, ◌≤◌, ◌+◌, ◌++◌, List, [], ◌∷◌, Err, IsTrue, OnOk, IfOk, false, length, reverse, drop};
ghost use Rattle.std.specs.Prelude.{slice_index_or};
ghost use Rattle.std.specs.List.{list_any};
ghost use Rattle.std.specs.List.Sorted.{IsNonDecreasingBy};
ghost use Rattle.node_table.specs.declared.node.Node.TheVariants.{True};
ghost use Rattle.node_table.specs.declared.error.TableError.TheVariants.{NodeLimit};
ghost use Rattle.node_table.specs.Diagram.{IsBelow, branch_of, levels};
ghost use Rattle.node_table.specs.Made.{LacksPart, MakesOnly};
ghost use Rattle.node_table.specs.Table.{AddsNone, HasChildren, IsSound, UnlessTorn};
ghost use Rattle.node_table.specs.Progress.{Steps, error_of};
ghost use Rattle.node_table.specs.Tied.{IsTied};
ghost use Rattle.node_table.specs.Value.{Levels, value_of};
ghost use Rattle.clause_terms.specs.declared.placed.Placed.{Placed as PlacedValue};
ghost use Rattle.clause_terms.specs.Placed.{literal_at, placed_holds, placed_function, HasNoOpposites, are_of_levels};
ghost use Rattle.clause_terms.specs.ClauseDiagram.{IsDiagramOf, IsBefore, high_of, low_of, part_of};

use crate::placed::Placed;
use cnf_base::{Id, Lit, OutOfMemory};
use hint_chain::{UnitPart, unit_path_law};
use host_io::Sink;
use node_table::{
    Node, Table, TableError, cofactor_law, growth_law, missing_law, steps_law, subfunction_law,
};

/// The diagram of the literals from this place on, over that of those behind it. A repetition adds nothing.
pub fn take_literal<S: Sink + Drop>(
    table: &mut Table<S>,
    placed: &[Placed],
    i: usize,
    below: Node,
    path: &mut Vec<UnitPart>,
) -> Result<Node, TableError>
    requires sound { IsSound table.old }
    requires index { i < length placed.now }
    requires levels { IsTrue (are_of_levels table.old.graph placed.now) }
    requires sorted { IsNonDecreasingBy (λ (p : PlacedValue). p.level) placed.now }
    requires signs { HasNoOpposites placed.now }
    requires diagram { IsDiagramOf table.old.graph table.old.book.state.live (drop (i + 1) placed.now) below (reverse path.old.items) }
    ensures diagram { IfOk result (λ node. IsDiagramOf table.new.graph table.new.book.state.live (drop i placed.now) node
        (reverse path.new.items)) }
    ensures made { MakesOnly table.old.graph table.new.graph (placed_function (drop i placed.now)) }
    ensures lacks { result ≡ Err NodeLimit → LacksPart table.new.graph (placed_function (drop i placed.now)) }
    ensures steps { Steps table.old table.new 0 (error_of result) }
    ensures none_added { UnlessTorn result (AddsNone table.old table.new) }
    ensures retired { table.new.retired ≡ table.old.retired }
{
    steps_law::<S>();
    subfunction_law();
    unit_path_law();
    if is_repeated(placed, i) {
        return Ok(below);
    }
    add_literal(table, &placed[i], below, path)
}

// Whether the next literal is of the same variable.
fn is_repeated(placed: &[Placed], i: usize) -> bool
    requires { i < length placed.now }
    ensures same { IsTrue result → (d : PlacedValue) → (i + 1 < length placed.now)
        × ((slice_index_or placed.now i d).level ≡ (slice_index_or placed.now (i + 1) d).level) }
    ensures other { result ≡ false → (d : PlacedValue) → i + 1 < length placed.now → (slice_index_or placed.now i d).level
        ≢ (slice_index_or placed.now (i + 1) d).level }
{
    match placed.get(i + 1) {
        Some(next) => next.level == placed[i].level,
        None => false,
    }
}

// The node of a literal over the node of the later ones, with its part in the path.
fn add_literal<S: Sink + Drop>(
    table: &mut Table<S>,
    placed: &Placed,
    below: Node,
    path: &mut Vec<UnitPart>,
) -> Result<Node, TableError>
    requires sound { IsSound table.old }
    requires level { placed.now.level < levels table.old.graph }
    requires below { IsBelow table.old.graph placed.now.level below }
    requires not_true { below ≢ True }
    ensures diagram { (more : List PlacedValue) → IsBefore placed.now.level more
        → IsDiagramOf table.old.graph table.old.book.state.live more below (reverse path.old.items)
        → IfOk result (λ node. IsDiagramOf table.new.graph table.new.book.state.live (placed.now ∷ more) node (reverse path.new.items)) }
    ensures made { (more : List PlacedValue) → ((a : Levels) → value_of table.old.graph a below ≡ list_any (placed_holds a) more)
        → MakesOnly table.old.graph table.new.graph (placed_function (placed.now ∷ more)) }
    ensures lacks { (more : List PlacedValue) → ((a : Levels) → value_of table.old.graph a below ≡ list_any (placed_holds a) more)
        → result ≡ Err NodeLimit → LacksPart table.new.graph (placed_function (placed.now ∷ more)) }
    ensures steps { Steps table.old table.new 0 (error_of result) }
    ensures none_added { UnlessTorn result (AddsNone table.old table.new) }
    ensures retired { table.new.retired ≡ table.old.retired }
{
    growth_law();
    cofactor_law();
    unit_path_law();
    let node = literal_node(table, placed, below)?;
    let part = part_of(table, placed, node);
    push_part(path, part.lit, part.hu, part.lu)?;
    Ok(node)
}

// The node of a literal: one child is True, the other one the node of the later literals.
fn literal_node<S: Sink + Drop>(
    table: &mut Table<S>,
    placed: &Placed,
    below: Node,
) -> Result<Node, TableError>
    requires sound { IsSound table.old }
    requires level { placed.now.level < levels table.old.graph }
    requires below { IsBelow table.old.graph placed.now.level below }
    ensures children { IfOk result (λ node. HasChildren table.new.graph placed.now.level (high_of placed.now below)
        (low_of placed.now below) node) }
    ensures made { (more : List PlacedValue) → ((a : Levels) → value_of table.old.graph a below ≡ list_any (placed_holds a) more)
        → MakesOnly table.old.graph table.new.graph (placed_function (placed.now ∷ more)) }
    ensures lacks { (more : List PlacedValue) → ((a : Levels) → value_of table.old.graph a below ≡ list_any (placed_holds a) more)
        → result ≡ Err NodeLimit → LacksPart table.new.graph (placed_function (placed.now ∷ more)) }
    ensures steps { Steps table.old table.new 0 (error_of result) }
    ensures none_added { UnlessTorn result (AddsNone table.old table.new) }
    ensures retired { table.new.retired ≡ table.old.retired }
{
    growth_law();
    cofactor_law();
    subfunction_law();
    missing_law();
    let (high, low) = children(placed, below);
    let node = table.node(placed.level, high, low);
    table.table_law();
    node
}

fn push_part(
    path: &mut Vec<UnitPart>,
    lit: Lit,
    hu: Option<Id>,
    lu: Option<Id>,
) -> Result<(), OutOfMemory>
    ensures { OnOk result (path.new.items ≡ path.old.items ++ record { lit = lit; hu = hu; lu = lu } ∷ []) }
{
    path.push(UnitPart { lit, hu, lu })?;
    Ok(())
}

// The literal's child is True.
fn children(placed: &Placed, next: Node) -> (Node, Node)
    ensures high { result.0 ≡ high_of placed.now next }
    ensures low { result.1 ≡ low_of placed.now next }
{
    if placed.negative {
        (next, Node::True)
    } else {
        (Node::True, next)
    }
}

// The literal with the numbers of the clauses up to its node.
fn part_of<S: Sink + Drop>(table: &Table<S>, placed: &Placed, node: Node) -> UnitPart
    requires tied { IsTied table.now.graph table.now.book.state }
    requires level { placed.now.level < levels table.now.graph }
    ensures { result ≡ part_of table.now.graph placed.now (branch_of table.now.graph node) }
{
    let lit = literal(table, placed);
    match table.definitions(node) {
        Some(ids) => UnitPart {
            lit,
            hu: ids.hu,
            lu: ids.lu,
        },
        None => UnitPart {
            lit,
            hu: None,
            lu: None,
        },
    }
}

fn literal<S: Sink + Drop>(table: &Table<S>, placed: &Placed) -> Lit
    requires tied { IsTied table.now.graph table.now.book.state }
    requires level { placed.now.level < levels table.now.graph }
    ensures { result ≡ literal_at table.now.graph placed.now }
{
    let variable = table.order()[placed.level as usize];
    let literal = Lit::new(variable as i32).unwrap();
    if placed.negative {
        literal.negated()
    } else {
        literal
    }
}
