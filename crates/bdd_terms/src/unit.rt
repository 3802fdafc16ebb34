// The unit of a conjunction of two terms, and that of a node that a term implies: an operand's own where it is that
// operand, else a clause that follows from the operands' units and the clause of the conjunction or the implication. Then
// the operands' units are needed no more. If a fresh unit is wanted it is no operand's, and these stay.
ghost use Rattle.std.specs.Prelude.{◌≡◌, ◌≢◌, ◌<◌, ◌+◌, ◌++◌, ◌⊎◌, ◌↔◌, ℕ, ℤ, List, [], ◌∷◌, None, Some, Contains, IsTrue, IfOk, false};
ghost use Rattle.std.specs.Prelude.{OnOk};
ghost use Rattle.std.specs.Prelude.{MatchOption};
ghost use Rattle.std.specs.Option.{option_to_list};
ghost use Rattle.node_table.specs.declared.node.Node.TheVariants.{False, True};
ghost use Rattle.node_table.specs.declared.node.Justification.TheVariants.{Trivial, Clause};
ghost use Rattle.lrat_rules.specs.Strict.{RefutesStrictly};
ghost use Rattle.hint_chain.specs.Atoms.{clause_from_atoms};
ghost use Rattle.node_table.specs.Defined.{atom_of};
ghost use Rattle.node_table.specs.Diagram.{is_node};
ghost use Rattle.node_table.specs.Justification.{IsJustified};
ghost use Rattle.node_table.specs.Table.{IsAddedTo, IsSound};
ghost use Rattle.node_table.specs.Progress.{Steps, error_of};
ghost use Rattle.operations.specs.Results.{Conjoined, Implied};
ghost use Rattle.operations.specs.Entries.{IsNewJustification};
ghost use Rattle.clause_terms.specs.Term.{AddsUnit};
ghost use Rattle.bdd_terms.specs.Finds.{IsProved};
ghost use Rattle.bdd_terms.specs.Units.{RetiresBut, hint_of};
ghost use Rattle.bdd_terms.specs.Proves.{Proves, ProvesAnew};

use crate::held::HeldTerm;
use cnf_base::{Id, Lit};
use hint_chain::{clause_law, following_unit_law};
use host_io::Sink;
use lrat_rules::conflict_law;
use node_table::{Justification, Node, Table, TableError, canonical_law, steps_law};
use operations::retire;
use std::slice::from_ref;

/// The unit of the node w, which is the conjunction of both terms' nodes. Where w is an operand it is that one's, or a clause more, if a
/// fresh one is wanted; none where w is True.
pub fn unit_of<S: Sink + Drop>(
    table: &mut Table<S>,
    u: &HeldTerm,
    v: &HeldTerm,
    w: Node,
    just: &Justification,
    fresh: bool,
) -> Result<Justification, TableError>
    requires sound { IsSound table.old }
    requires first { IsProved table.old.graph table.old.book.state.live u.now }
    requires second { IsProved table.old.graph table.old.book.state.live v.now }
    requires conjoined { Conjoined table.old.graph table.old.book.state.live u.now.node v.now.node w just.now }
    ensures proves { Proves table.old table.new w result }
    ensures given { IfOk result (λ unit. (unit ≡ u.now.unit) ⊎ ((unit ≡ v.now.unit)
        ⊎ IsNewJustification table.old.book.state table.new.book.state unit)) }
    ensures added { IfOk result (λ unit. (unit ≡ u.now.unit) ⊎ ((unit ≡ v.now.unit)
        ⊎ ((id : ℕ) → unit ≡ Clause id → IsAddedTo table.new id))) }
    // An operand's own unit without a clause more, or one clause.
    ensures own { fresh ≡ false → (w ≡ u.now.node) ⊎ (w ≡ v.now.node) → table.new ≡ table.old }
    ensures told { w ≢ u.now.node → w ≢ v.now.node → OnOk result (AddsUnit table.old table.new w
        (hint_of u.now.unit ++ hint_of v.now.unit ++ hint_of just.now)) }
    ensures anew { IsTrue fresh → ProvesAnew table.old table.new w result }
{
    steps_law::<S>();
    canonical_law();
    clause_law();
    following_unit_law();
    if is_same(w, u.node) {
        return operand_unit(table, w, &u.unit, fresh);
    }
    if is_same(w, v.node) {
        return operand_unit(table, w, &v.unit, fresh);
    }
    let Some(first) = clause_id(&u.unit) else {
        unreachable!();
    };
    let Some(second) = clause_id(&v.unit) else {
        unreachable!();
    };
    let Some(both) = clause_id(just) else {
        unreachable!();
    };
    add_unit(table, w, &[first, second, both])
}

// An operand's unit, for its own node: itself, or a clause more, if a fresh one is wanted. True needs none.
fn operand_unit<S: Sink + Drop>(
    table: &mut Table<S>,
    w: Node,
    unit: &Justification,
    fresh: bool,
) -> Result<Justification, TableError>
    requires sound { IsSound table.old }
    requires stands { IsTrue (is_node table.old.graph w) }
    requires proved { IsJustified table.old.book.state.live (atom_of table.old.graph w ∷ []) unit.now }
    ensures proves { Proves table.old table.new w result }
    ensures given { IfOk result (λ own. (own ≡ unit.now) ⊎ IsNewJustification table.old.book.state table.new.book.state own) }
    ensures added { IfOk result (λ own. (own ≡ unit.now) ⊎ ((id : ℕ) → own ≡ Clause id → IsAddedTo table.new id)) }
    ensures own { fresh ≡ false → table.new ≡ table.old }
    ensures anew { IsTrue fresh → ProvesAnew table.old table.new w result }
{
    steps_law::<S>();
    if !fresh {
        return Ok(*unit);
    }
    if is_same(w, Node::True) {
        return Ok(Justification::Trivial);
    }
    add_again(table, w, unit)
}

/// The unit of the node w, which the term's node implies. Where w is the term's node it is that one's, or a clause more, if a fresh one is
/// wanted; none where w is True. Where the term is False it follows from the empty clause.
pub fn unit_of_implied<S: Sink + Drop>(
    table: &mut Table<S>,
    u: &HeldTerm,
    w: Node,
    just: &Justification,
    fresh: bool,
) -> Result<Justification, TableError>
    requires sound { IsSound table.old }
    requires first { IsProved table.old.graph table.old.book.state.live u.now }
    requires second { IsTrue (is_node table.old.graph w) }
    requires implied { Implied table.old.graph table.old.book.state.live u.now.node w just.now }
    ensures proves { Proves table.old table.new w result }
    ensures given { IfOk result (λ unit. (unit ≡ u.now.unit) ⊎ IsNewJustification table.old.book.state table.new.book.state unit) }
    ensures added { IfOk result (λ unit. (unit ≡ u.now.unit) ⊎ ((id : ℕ) → unit ≡ Clause id → IsAddedTo table.new id)) }
    // Its own unit, or none where w is True, without a clause more; or one clause.
    ensures own { fresh ≡ false → (w ≡ u.now.node) ⊎ (w ≡ True) → table.new ≡ table.old }
    ensures told { u.now.node ≢ False → w ≢ u.now.node → w ≢ True → OnOk result (AddsUnit table.old table.new w
        (hint_of u.now.unit ++ hint_of just.now)) }
    ensures anew { IsTrue fresh → ProvesAnew table.old table.new w result }
    ensures steps { u.now.node ≢ False → Steps table.old table.new 1 (error_of result) }
{
    steps_law::<S>();
    canonical_law();
    clause_law();
    following_unit_law();
    if is_same(w, u.node) {
        return operand_unit(table, w, &u.unit, fresh);
    }
    if is_same(w, Node::True) {
        return Ok(Justification::Trivial);
    }
    if is_same(u.node, Node::False) {
        return add_behind_empty(table, w, &u.unit);
    }
    let Some(first) = clause_id(&u.unit) else {
        unreachable!();
    };
    let Some(implication) = clause_id(just) else {
        unreachable!();
    };
    add_unit(table, w, &[first, implication])
}

// Adds the clause of a node alone once more, where it is live.
fn add_again<S: Sink + Drop>(
    table: &mut Table<S>,
    w: Node,
    unit: &Justification,
) -> Result<Justification, TableError>
    requires sound { IsSound table.old }
    requires stands { IsTrue (is_node table.old.graph w) }
    requires not_true { w ≢ True }
    requires proved { IsJustified table.old.book.state.live (atom_of table.old.graph w ∷ []) unit.now }
    ensures { ProvesAnew table.old table.new w result }
{
    let Some(id) = clause_id(unit) else {
        unreachable!();
    };
    add_unit(table, w, &[id])
}

// Adds the clause of a node alone, which follows from the empty clause.
fn add_behind_empty<S: Sink + Drop>(
    table: &mut Table<S>,
    w: Node,
    unit: &Justification,
) -> Result<Justification, TableError>
    requires sound { IsSound table.old }
    requires stands { IsTrue (is_node table.old.graph w) }
    requires not_true { w ≢ True }
    requires empty { IsJustified table.old.book.state.live (atom_of table.old.graph False ∷ []) unit.now }
    ensures { ProvesAnew table.old table.new w result }
{
    conflict_law();
    let Some(id) = clause_id(unit) else {
        unreachable!();
    };
    add_unit(table, w, &[id])
}

/// Retires a term's unit, unless it is the one that is kept.
pub fn retire_unit<S: Sink + Drop>(table: &mut Table<S>, unit: &Justification, kept: &Justification)
    requires sound { IsSound table.old }
    requires added { (id : ℕ) → unit.now ≡ Clause id → IsAddedTo table.old id }
    requires unretired { (id : ℕ) → unit.now ≡ Clause id → Contains table.old.retired id → ⊥ }
    ensures retired { RetiresBut table.old table.new unit.now kept.now }
    ensures steps { Steps table.old table.new 0 None }
{
    retire(table, given_up(unit, kept));
}

// The clause of a unit, unless it is that of the one that is kept.
fn given_up(unit: &Justification, kept: &Justification) -> Option<Id>
    ensures { MatchOption result ((id : ℕ) → unit.now ≡ Clause id → kept.now ≡ Clause id) (λ id. (unit.now ≡ Clause id)
        × (kept.now ≡ Clause id → ⊥)) }
{
    let Some(id) = clause_id(unit) else {
        return None;
    };
    if is_clause(kept, id) {
        return None;
    }
    Some(id)
}

// Whether a justification names this clause.
fn is_clause(just: &Justification, id: Id) -> bool
    ensures { IsTrue result ↔ (just.now ≡ Clause id) }
{
    match just {
        Justification::Trivial => false,
        Justification::Clause(other) => *other == id,
    }
}

/// Whether two terms are one.
pub(crate) fn is_same_term(one: &HeldTerm, other: &HeldTerm) -> bool
    ensures { IsTrue result ↔ (one.now ≡ other.now) }
{
    is_same(one.node, other.node) && is_same_unit(&one.unit, &other.unit)
}

// Whether two justifications are one.
fn is_same_unit(one: &Justification, other: &Justification) -> bool
    ensures { IsTrue result ↔ (one.now ≡ other.now) }
{
    match (one, other) {
        (Justification::Clause(first), Justification::Clause(second)) => *first == *second,
        (Justification::Trivial, Justification::Trivial) => true,
        _ => false,
    }
}

/// Whether two nodes are one.
pub fn is_same(one: Node, other: Node) -> bool
    ensures { IsTrue result ↔ (one ≡ other) }
{
    one == other
}

/// The clause that a justification names.
pub fn clause_id(just: &Justification) -> Option<Id>
    ensures { MatchOption result (just.now ≡ Trivial) (λ id. just.now ≡ Clause id) }
{
    match just {
        Justification::Trivial => None,
        Justification::Clause(id) => Some(*id),
    }
}

/// Adds the clause of a node alone, the empty one where it is False.
pub fn add_unit<S: Sink + Drop>(
    table: &mut Table<S>,
    w: Node,
    hints: &[Id],
) -> Result<Justification, TableError>
    requires sound { IsSound table.old }
    requires stands { IsTrue (is_node table.old.graph w) }
    requires not_true { w ≢ True }
    requires strict { (clause : List ℤ) → clause_from_atoms (atom_of table.old.graph w ∷ []) ≡ Some clause
        → RefutesStrictly table.old.book.state.live clause hints.now }
    ensures anew { ProvesAnew table.old table.new w result }
    ensures told { OnOk result (AddsUnit table.old table.new w hints.now) }
{
    let own = table.literal(w);
    let id = table.justify(as_clause(&own), hints)?;
    Ok(Justification::Clause(id))
}

// The clause of a literal, the empty one where there is none.
fn as_clause(literal: &Option<Lit>) -> &[Lit]
    ensures { result.now ≡ option_to_list literal.now }
{
    match literal {
        Some(literal) => from_ref(literal),
        None => &[],
    }
}
