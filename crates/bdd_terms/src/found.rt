// What a call finds: the term of a clause, the conjunction of two terms, and a term without a variable. A term implies what comes
// of it without a variable, and so the new unit follows from its own. (Bryant, Heule: Generating Extended Resolution Proofs with a
// BDD-Based SAT Solver, 2021, section 5.)
ghost use Rattle.std.specs.Prelude.{◌≡◌, ◌≢◌, ◌≤◌, ◌<◌, ◌+◌, ◌-◌, ◌*◌, ◌&&◌, ◌||◌, ℕ, Bool, List, [], ◌∷◌, Err, IsTrue, IfErr, IfOk};
ghost use Rattle.std.specs.Prelude.{length, true, false};
ghost use Rattle.cnf_base.specs.Truth.{Assignment, with_value};
ghost use Rattle.node_table.specs.declared.error.TableError.TheVariants.{NodeLimit, WriteFault};
ghost use Rattle.node_table.specs.declared.node.Node.TheVariants.{False};
ghost use Rattle.node_table.specs.Defined.{atom_of};
ghost use Rattle.node_table.specs.Diagram.{is_node, levels, variable_at};
ghost use Rattle.node_table.specs.Justification.{IsJustified};
ghost use Rattle.node_table.specs.Progress.{Steps, error_of};
ghost use Rattle.node_table.specs.Table.{AddsAtMost, IsSound};
ghost use Rattle.node_table.specs.Value.{IsSubfunction, Levels, by_level, value_of};
ghost use Rattle.operations.specs.Budget.{most_additions};
ghost use Rattle.operations.specs.Entries.{Entry, Fits};
ghost use Rattle.clause_terms.specs.Term.{IsTerm};
ghost use Rattle.apply_and.specs.Conjunction.{conjunction_of};
ghost use Rattle.quantify.specs.Quantification.{quantification_of};
ghost use Rattle.quantify.specs.SomeValues.{AreLevels, IsFromPlace, function_of, some_values};
ghost use Rattle.schedule_plan.specs.Plan.{input as input_term, term_holds};
ghost use Rattle.bdd_terms.specs.declared.held.HeldTerm.{HeldTerm as HeldValue};
ghost use Rattle.bdd_terms.specs.declared.caches.Caches.{Caches as CachesValue};
ghost use Rattle.bdd_terms.specs.Caches.{HaveRoom, KeepsEntries, all_entries, sizes};
ghost use Rattle.bdd_terms.specs.Finds.{Finds, IsOperand, IsProved};
ghost use Rattle.bdd_terms.specs.Units.{GivesUnit, HasUnits};
ghost use Rattle.bdd_terms.specs.OverFormula.{IsOver};
ghost use Rattle.bdd_terms.specs.Parts.{HasAtMost, term_function};

use crate::caches::Caches;
use crate::held::HeldTerm;
use crate::unit::{add_unit, unit_of, unit_of_implied};
use clause_terms::push_clause;
use cnf_base::{Cnf, Id};
use host_io::Sink;
use lrat_rules::conflict_law;
use node_table::{
    Justification, Node, Table, TableError, canonical_law, growth_law, steps_law, subfunction_law,
};
use operations::entry_law;
use quantify::set_law;
use std::alloc::Global;

/// The term of the clause of this number. That of an empty one is False, and its unit an empty clause that follows from it.
pub fn input<S: Sink + Drop>(
    alloc: Global,
    table: &mut Table<S>,
    formula: &Cnf,
    number: u32,
) -> Result<HeldTerm, TableError>
    requires over { (kept : List Entry) × IsOver formula.now table.old kept }
    requires from_one { 1 ≤ number }
    requires to_len { number ≤ length formula.now.clauses }
    ensures finds { (caches : CachesValue) → Fits table.old (all_entries caches)
        → Finds (IsSubfunction (term_function formula.now table.old.graph.order (input_term number)))
        (term_function formula.now table.old.graph.order (input_term number))
        (λ a. term_holds formula.now a (input_term number)) [] table.old table.new caches caches result }
    ensures one { AddsAtMost 1 table.old table.new }
    // A refusal loses no unit.
    ensures refused { IfErr result (λ e. e ≢ WriteFault → (kept : List Entry) (terms : List HeldValue) → HasUnits table.old kept terms
        → HasUnits table.new kept terms) }
{
    growth_law();
    steps_law::<S>();
    entry_law::<S>();
    subfunction_law();
    conflict_law();
    formula.formula_law();
    let clause = formula.clause(number as usize);
    if clause.is_empty() {
        let unit = add_unit(table, Node::False, &[Id(number as u64)])?;
        return Ok(HeldTerm {
            node: Node::False,
            unit,
        });
    }
    let (node, unit) = push_clause(alloc, table, clause, Id(number as u64))?;
    Ok(HeldTerm { node, unit })
}

/// The conjunction of two terms. Where it is an operand its unit is that one's, unless a fresh one is wanted, which no operand has.
pub fn conjunction<S: Sink + Drop>(
    table: &mut Table<S>,
    caches: &mut Caches,
    u: &HeldTerm,
    v: &HeldTerm,
    fresh: bool,
) -> Result<HeldTerm, TableError>
    requires sound { IsSound table.old }
    requires fits { Fits table.old (all_entries caches.old) }
    requires first { IsProved table.old.graph table.old.book.state.live u.now }
    requires second { IsProved table.old.graph table.old.book.state.live v.now }
    requires shared { fresh ≡ false → IsOperand table.old (all_entries caches.old) u.now × IsOperand table.old (all_entries caches.old) v.now }
    ensures finds { (one other : Assignment → Bool) → IsTerm table.old.graph table.old.book.state.live one u.now.node u.now.unit
        → IsTerm table.old.graph table.old.book.state.live other v.now.node v.now.unit
        → Finds (IsSubfunction (conjunction_of table.old.graph u.now.node v.now.node))
        (conjunction_of table.old.graph u.now.node v.now.node) (λ a. one a && other a) (v.now ∷ u.now ∷ [])
        table.old table.new caches.old caches.new result }
    ensures own { IsTrue fresh → IfOk result (λ held. GivesUnit table.old table.new (all_entries caches.old) (all_entries caches.new) [] held.unit) }
    // A refusal loses no unit.
    ensures refused { IfErr result (λ e. e ≢ WriteFault → (terms : List HeldValue) → HasUnits table.old (all_entries caches.old) terms
        → HasUnits table.new (all_entries caches.new) terms) }
{
    canonical_law();
    subfunction_law();
    growth_law();
    steps_law::<S>();
    entry_law::<S>();
    let (node, just) = caches.and(table, u.node, v.node)?;
    let unit = unit_of(table, u, v, node, &just, fresh)?;
    Ok(HeldTerm { node, unit })
}

/// The term without the variable of this level.
pub fn weaken<S: Sink + Drop>(
    table: &mut Table<S>,
    caches: &mut Caches,
    u: &HeldTerm,
    level: u32,
) -> Result<HeldTerm, TableError>
    requires sound { IsSound table.old }
    requires fits { Fits table.old (all_entries caches.old) }
    requires operand { IsOperand table.old (all_entries caches.old) u.now }
    requires level { level < levels table.old.graph }
    ensures some { IfOk result (λ held. held.node ≢ False) }
    ensures finds { (holds : Assignment → Bool) (variable : ℕ) → variable_at table.old.graph level ≡ variable
        → IsTerm table.old.graph table.old.book.state.live holds u.now.node u.now.unit
        → Finds (IsSubfunction (quantification_of table.old.graph u.now.node level)) (quantification_of table.old.graph u.now.node level)
        (λ a. holds (with_value a variable true) || holds (with_value a variable false)) (u.now ∷ [])
        table.old table.new caches.old caches.new result }
{
    canonical_law();
    growth_law();
    steps_law::<S>();
    let node = caches.exists(table, u.node, level)?;
    let unit = implied_unit(table, caches, u, node)?;
    Ok(HeldTerm { node, unit })
}

/// The term without the variables of these levels.
pub fn weaken_all<S: Sink + Drop>(
    table: &mut Table<S>,
    caches: &mut Caches,
    u: &HeldTerm,
    set: &[u32],
) -> Result<HeldTerm, TableError>
    requires sound { IsSound table.old }
    requires fits { Fits table.old (all_entries caches.old) }
    requires operand { IsOperand table.old (all_entries caches.old) u.now }
    requires levels { AreLevels table.old.graph set.now }
    ensures some { IfOk result (λ held. held.node ≢ False) }
    ensures finds { (holds : Assignment → Bool)
        → ((a : Assignment) → some_values set.now (function_of table.old.graph u.now.node) (by_level table.old.graph.order a) ≡ holds a)
        → Finds (IsFromPlace (function_of table.old.graph u.now.node) set.now)
        (some_values set.now (function_of table.old.graph u.now.node)) holds (u.now ∷ []) table.old table.new caches.old caches.new result }
{
    canonical_law();
    growth_law();
    steps_law::<S>();
    set_law();
    let node = caches.exists_all(table, u.node, set)?;
    let unit = implied_unit(table, caches, u, node)?;
    Ok(HeldTerm { node, unit })
}

// The unit of a node that the term implies.
fn implied_unit<S: Sink + Drop>(
    table: &mut Table<S>,
    caches: &mut Caches,
    u: &HeldTerm,
    w: Node,
) -> Result<Justification, TableError>
    requires sound { IsSound table.old }
    requires second { IsTrue (is_node table.old.graph w) }
    requires implied { (a : Levels) → value_of table.old.graph a u.now.node ≡ true → value_of table.old.graph a w ≡ true }
    requires fits { Fits table.old (all_entries caches.old) }
    requires operand { IsOperand table.old (all_entries caches.old) u.now }
    ensures unit { IfOk result (λ unit. IsJustified table.new.book.state.live (atom_of table.old.graph w ∷ []) unit) }
    ensures gives { IfOk result (λ unit. GivesUnit table.old table.new (all_entries caches.old) (all_entries caches.new) (u.now
        ∷ []) unit) }
    ensures nodes { table.new.graph ≡ table.old.graph }
    ensures steps { Steps table.old table.new
        (most_additions (levels table.old.graph) + 1) (error_of result) }
    ensures keeps { KeepsEntries table.old table.new (all_entries caches.old) (all_entries caches.new) (error_of result) }
    ensures no_node_limit { result ≢ Err NodeLimit }
    ensures pairs { (width : ℕ) → HaveRoom caches.old width → HasAtMost (λ a. value_of table.old.graph a u.now.node) width
        → HasAtMost (λ a. value_of table.old.graph a w) width
        → AddsAtMost (2 * (width * width) + 1) table.old table.new }
    ensures sizes { sizes caches.new ≡ sizes caches.old }
{
    canonical_law();
    subfunction_law();
    growth_law();
    steps_law::<S>();
    entry_law::<S>();
    let Some(just) = caches.implies(table, u.node, w)? else {
        unreachable!();
    };
    unit_of_implied(table, u, w, &just, false)
}
