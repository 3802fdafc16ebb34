// Terms that a runner gives: of a clause, or of two terms together. Each has a unit of its own, which is retired when the term is
// released; the first empty clause stays. Nodes that no term reaches are given back by a reclamation (`retry`).
ghost use Rattle.std.specs.Prelude.{◌≡◌, ◌≢◌, ◌⊎◌, ◌≤◌, ◌<◌, ◌+◌, ◌-◌, ◌*◌, ◌&&◌, ◌∷◌, ◌↔◌, ℕ, Bool, List, [], Contains, Err, Ok, None, Some};
ghost use Rattle.std.specs.Prelude.{IsTrue, IfErr, IfOk, OnErr, OnOk, MatchOption, get_or, length, true, false, vec_capacity, vec_len};
ghost use Rattle.cnf_base.specs.Truth.{Assignment};
ghost use Rattle.node_table.specs.declared.error.TableError.TheVariants.{NodeLimit, OutOfMemory, WriteFault};
ghost use Rattle.node_table.specs.declared.node.Justification.TheVariants.{Clause, Trivial};
ghost use Rattle.node_table.specs.declared.node.Node.TheVariants.{False, True};
ghost use Rattle.node_table.specs.Progress.{Leaves, error_of};
ghost use Rattle.node_table.specs.Table.{AddsAtMost, UnlessTorn, live_nodes};
ghost use Rattle.node_table.specs.Value.{Levels};
ghost use Rattle.apply_and.specs.Conjunction.{conjunction_of};
ghost use Rattle.schedule_plan.specs.Plan.{input as input_term, term_holds};
ghost use Rattle.bdd_terms.specs.Caches.{sizes};
ghost use Rattle.bdd_terms.specs.Parity.{always};
ghost use Rattle.bdd_terms.specs.declared.held.HeldTerm.{HeldTerm as HeldValue};
ghost use Rattle.bdd_terms.specs.declared.runner.Runner.{Runner as RunnerValue};
ghost use Rattle.bdd_terms.specs.Runner.{Gives, IsGood, IsListed, IsRunner, Releases, holds_in, nodes_of, true_term};
ghost use Rattle.bdd_terms.specs.Takes.{Costs, IsTidied, Takes, asked_in, functions_out};
ghost use Rattle.bdd_terms.specs.Tidy.{LeavesReached};
ghost use Rattle.bdd_terms.specs.Parts.{HasAtMost, term_function};

use crate::found::{conjunction, input};
use crate::held::HeldTerm;
use crate::retry::is_node_limit;
use crate::runner::Runner;
use crate::unit::{clause_id, is_same, is_same_term, retire_unit};
use cnf_base::{Id, OutOfMemory as NoMemory};
use host_io::Sink;
use node_table::{
    Justification, Node, Table, TableError, growth_law, reach_law, steps_law, subfunction_law,
};
use operations::entry_law;
use reclaim::reclaim;
use std::alloc::Global;

/// A term that a runner gave. It goes back by `release` alone.
#[derive(Drop)]
pub struct Term {
    pub(crate) held: HeldTerm,
}

impl Term {
    /// The node that holds where the term does.
    pub fn node(&self) -> Node
        ensures { result ≡ self.now.held.node }
    {
        self.held.node
    }

    /// The number of the clause that proves it; None for True.
    pub fn unit(&self) -> Option<Id>
        ensures { MatchOption result (self.now.held.unit ≡ Trivial) (λ id. self.now.held.unit ≡ Clause id) }
    {
        clause_id(&self.held.unit)
    }
}

impl<'a, S: Sink + Drop> Runner<'a, S> {
    /// The term of the clause of this number, from 1. That of an empty clause is False, and adds the empty clause.
    pub fn term(&mut self, number: u32) -> Result<Term, TableError>
        requires runner { IsRunner self.old }
        requires from_one { 1 ≤ number }
        requires to_len { number ≤ length self.old.formula.now.clauses }
        ensures takes { Takes (λ a. term_holds self.old.formula.now a (input_term number)) self.old self.new result }
        ensures costs { Costs (asked_in self.old (λ a. term_holds self.old.formula.now a (input_term number)) ∷ functions_out self.old)
            self.old self.new (error_of result) }
        // The clauses that define its nodes in two tries, and one for each try.
        ensures few { (width : ℕ) → HasAtMost (asked_in self.old (λ a. term_holds self.old.formula.now a (input_term number))) width
            → self.new.terms.table.book.state.top ≤ self.old.terms.table.book.state.top + (8 * width + 2) }
        ensures tidied { IfOk result (IsTidied self.new) }
        ensures settled { OnOk result (self.new.terms.table.retired ≡ []) }
    {
        let term = self.term_twice(number)?;
        self.tidy(term)
    }

    /// The term that holds where both do. Each of them stays.
    pub fn meet(&mut self, u: &Term, v: &Term) -> Result<Term, TableError>
        requires runner { IsRunner self.old }
        requires first { IsGood self.old u.now.held }
        requires second { IsGood self.old v.now.held }
        ensures takes { Takes (λ a. holds_in self.old u.now.held a && holds_in self.old v.now.held a) self.old self.new result }
        ensures costs { Costs (asked_in self.old (λ a. holds_in self.old u.now.held a && holds_in self.old v.now.held a)
            ∷ functions_out self.old) self.old self.new (error_of result) }
        ensures tidied { IfOk result (IsTidied self.new) }
        ensures settled { OnOk result (self.new.terms.table.retired ≡ []) }
    {
        let term = self.meet_twice(u, v)?;
        self.tidy(term)
    }

    /// The term that always holds. It owns no clause, and takes no memory.
    pub fn truth(&self) -> Term
        ensures { result ≡ always }
    {
        let held = HeldTerm {
            node: Node::True,
            unit: Justification::Trivial,
        };
        Term { held }
    }

    /// Whether a term may be taken here: it is True, or this runner gave it and it is out yet.
    pub fn has(&self, term: &Term) -> bool
        ensures { IsTrue result ↔ IsGood self.now term.now.held }
    {
        place_of(self.terms.out.as_slice(), &term.held).is_some() || is_true_term(&term.held)
    }

    /// How many nodes there are.
    pub fn live(&self) -> u32
        ensures { result ≡ live_nodes self.now.terms.table.graph }
    {
        self.terms.table.live()
    }

    /// The table of its nodes, to be read.
    pub fn table(&self) -> &Table<S>
        ensures { result.now ≡ self.now.terms.table }
    {
        &self.terms.table
    }

    /// Takes a term back. Its unit is retired, but for the first empty clause; after a failed write nothing changes.
    pub fn release(&mut self, term: Term)
        requires runner { IsTrue self.old.terms.table.book.in_step → IsRunner self.old }
        requires good { IsTrue self.old.terms.table.book.in_step → IsGood self.old term.held }
        ensures releases { IsTrue self.old.terms.table.book.in_step → Releases term.held self.old self.new }
        ensures torn { self.old.terms.table.book.in_step ≡ false → self.new ≡ self.old }
    {
        steps_law::<S>();
        entry_law::<S>();
        if !self.terms.table.ledger().is_in_step() {
            return;
        }
        if is_same(term.held.node, Node::True) {
            return;
        }
        let Some(place) = place_of(self.terms.out.as_slice(), &term.held) else {
            unreachable!();
        };
        let _ = self.terms.out.remove(place);
        if is_first_false(&self.kept, &term.held) {
            self.kept = Some(term.held);
            return;
        }
        retire_unit(
            &mut self.terms.table,
            &term.held.unit,
            &Justification::Trivial,
        );
    }

    /// Gives back the nodes that no term reaches that is out, with their clauses, and answers how many. Want of memory changes
    /// nothing.
    pub(crate) fn give_back(&mut self) -> Result<u32, TableError>
        requires runner { IsRunner self.old }
        ensures goes_on { UnlessTorn result (IsRunner self.new) }
        ensures reached { OnOk result (LeavesReached self.old.terms.table.graph self.new.terms.table.graph
            (nodes_of self.old.terms.out.items)) }
        ensures count { IfOk result (λ count. live_nodes self.new.terms.table.graph + count
            ≡ live_nodes self.old.terms.table.graph) }
        ensures settled { OnOk result (self.new.terms.table.retired ≡ []) }
        ensures memory { result ≡ Err OutOfMemory → self.new.terms.table ≡ self.old.terms.table }
        ensures kept { OnErr result (self.new.terms.table.graph ≡ self.old.terms.table.graph) }
        ensures top { self.new.terms.table.book.state.top ≡ self.old.terms.table.book.state.top }
        ensures same { (self.new.terms.out ≡ self.old.terms.out) × (self.new.formula ≡ self.old.formula)
            × (self.new.limits ≡ self.old.limits) × (self.new.refuted ≡ self.old.refuted) × (self.new.kept ≡ self.old.kept)
            × (self.new.refusals ≡ self.old.refusals) × (self.new.terms.left ≡ self.old.terms.left) }
        ensures sizes { sizes self.new.terms.caches ≡ sizes self.old.terms.caches }
        ensures origin { self.new.terms.table.book.origin ≡ self.old.terms.table.book.origin }
        ensures leaves { Leaves self.old.terms.table self.new.terms.table (error_of result) }
        ensures error { IfErr result (λ e. (e ≡ OutOfMemory) ⊎ (e ≡ WriteFault)) }
    {
        growth_law();
        reach_law();
        steps_law::<S>();
        let alloc = *self.terms.out.allocator();
        let roots = nodes_of(alloc, self.terms.out.as_slice())?;
        reclaim(
            &mut self.terms.table,
            roots.as_slice(),
            &mut self.terms.caches,
        )
    }

    /// One try of `term`.
    pub(crate) fn try_term(&mut self, number: u32) -> Result<Term, TableError>
        requires runner { IsRunner self.old }
        requires from_one { 1 ≤ number }
        requires to_len { number ≤ length self.old.formula.now.clauses }
        ensures gives { Gives (term_function self.old.formula.now self.old.terms.table.graph.order (input_term number))
            (λ a. term_holds self.old.formula.now a (input_term number)) [] self.old self.new result }
        ensures one { AddsAtMost 1 self.old.terms.table self.new.terms.table }
        ensures settled { OnOk result (self.new.terms.table.retired ≡ []) }
    {
        let found = self.find_input(number);
        self.settle(found)
    }

    /// One try of `meet`.
    pub(crate) fn try_meet(&mut self, u: &Term, v: &Term) -> Result<Term, TableError>
        requires runner { IsRunner self.old }
        requires first { IsGood self.old u.now.held }
        requires second { IsGood self.old v.now.held }
        ensures gives { Gives (conjunction_of self.old.terms.table.graph u.now.held.node v.now.held.node)
            (λ a. holds_in self.old u.now.held a && holds_in self.old v.now.held a) (v.now.held ∷ u.now.held ∷ []) self.old self.new
            result }
        ensures settled { OnOk result (self.new.terms.table.retired ≡ []) }
    {
        let found = self.find_conjunction(u, v);
        self.settle(found)
    }

    // Finds the term of a clause, and puts it on the list.
    fn find_input(&mut self, number: u32) -> Result<Term, TableError>
        requires runner { IsRunner self.old }
        requires from_one { 1 ≤ number }
        requires to_len { number ≤ length self.old.formula.now.clauses }
        ensures gives { Gives (term_function self.old.formula.now self.old.terms.table.graph.order (input_term number))
            (λ a. term_holds self.old.formula.now a (input_term number)) [] self.old self.new result }
        ensures one { AddsAtMost 1 self.old.terms.table self.new.terms.table }
    {
        growth_law();
        steps_law::<S>();
        entry_law::<S>();
        subfunction_law();
        let alloc = *self.terms.out.allocator();
        if self.terms.out.reserve(1).is_err() {
            return Err(TableError::OutOfMemory);
        }
        let held = input(alloc, &mut self.terms.table, self.formula, number)?;
        self.place(&held);
        Ok(Term { held })
    }

    // Finds the conjunction of two terms, and puts it on the list.
    fn find_conjunction(&mut self, u: &Term, v: &Term) -> Result<Term, TableError>
        requires runner { IsRunner self.old }
        requires first { IsGood self.old u.now.held }
        requires second { IsGood self.old v.now.held }
        ensures gives { Gives (conjunction_of self.old.terms.table.graph u.now.held.node v.now.held.node)
            (λ a. holds_in self.old u.now.held a && holds_in self.old v.now.held a) (v.now.held ∷ u.now.held ∷ []) self.old self.new
            result }
    {
        growth_law();
        steps_law::<S>();
        entry_law::<S>();
        subfunction_law();
        if self.terms.out.reserve(1).is_err() {
            return Err(TableError::OutOfMemory);
        }
        let held = conjunction(
            &mut self.terms.table,
            &mut self.terms.caches,
            &u.held,
            &v.held,
            true,
        )?;
        self.place(&held);
        Ok(Term { held })
    }

    /// Puts a term on the list of those that are out, for which there is room, unless it is True.
    pub(crate) fn place(&mut self, held: &HeldTerm)
        requires room { vec_len self.old.terms.out < vec_capacity self.old.terms.out }
        requires true_alone { held.now.node ≡ True → held.now.unit ≡ Justification.Trivial }
        ensures listed { IsListed self.old.terms.out.items self.new.terms.out.items held.now }
        ensures refutes { held.now.node ≡ False → IsTrue self.new.refuted }
        ensures unrefuted { held.now.node ≢ False → self.new.refuted ≡ self.old.refuted }
        ensures same { self.new ≡ record self.old {
          terms = record self.old.terms { out = self.new.terms.out };
          refuted = self.new.refuted;
        } }
    {
        if is_same(held.node, Node::True) {
            return;
        }
        let refutes = is_same(held.node, Node::False);
        self.refuted = self.refuted || refutes;
        self.terms.out.push_reserved(*held);
    }

    /// Deletes the retired clauses behind a call, but where it broke off for want of memory or of numbers.
    pub(crate) fn settle(&mut self, found: Result<Term, TableError>) -> Result<Term, TableError>
        requires runner { UnlessTorn found (IsRunner self.old) }
        ensures gives { (function : Levels → Bool) (holds : Assignment → Bool) (operands : List HeldValue) (old : RunnerValue S)
            → Gives function holds operands old self.old found → Gives function holds operands old self.new result }
        ensures adds { (most : ℕ) (old : RunnerValue S) → AddsAtMost most old.terms.table self.old.terms.table
            → AddsAtMost most old.terms.table self.new.terms.table }
        // What was found is given, unless a write failed; nodes and terms stay.
        ensures given { (result ≡ found) ⊎ (result ≡ Err WriteFault) }
        ensures nodes { self.new.terms.table.graph ≡ self.old.terms.table.graph }
        ensures out { self.new.terms.out ≡ self.old.terms.out }
        ensures settled { OnOk result (self.new.terms.table.retired ≡ []) }
        ensures at_limit { result ≡ Err NodeLimit → self.new.terms.table.retired ≡ [] }
    {
        steps_law::<S>();
        entry_law::<S>();
        if !has_ended(&found) {
            return found;
        }
        self.terms.table.settle()?;
        found
    }
}

/// Whether a call came to its end, or to the limit of nodes.
pub(crate) fn has_ended<T>(found: &Result<T, TableError>) -> bool
    ensures { IsTrue result ↔ ((error_of found.now ≡ None) ⊎ (error_of found.now ≡ Some NodeLimit)) }
{
    match found {
        Ok(_) => true,
        Err(e) => is_node_limit(e),
    }
}

// Whether a term is False, and none that was is kept yet.
fn is_first_false(kept: &Option<HeldTerm>, held: &HeldTerm) -> bool
    ensures first { IsTrue result → (kept.now ≡ None) × (held.now.node ≡ False) }
    ensures other { result ≡ false → held.now.node ≡ False → (one : HeldValue) × (kept.now ≡ Some one) }
{
    match kept {
        None => is_same(held.node, Node::False),
        Some(_) => false,
    }
}

// Whether this is the term that owns no clause.
fn is_true_term(held: &HeldTerm) -> bool
    ensures { IsTrue result ↔ (held.now ≡ true_term) }
{
    let always = HeldTerm {
        node: Node::True,
        unit: Justification::Trivial,
    };
    is_same_term(held, &always)
}

// The place of a term on a list, the last one.
fn place_of(out: &[HeldTerm], held: &HeldTerm) -> Option<usize>
    ensures { MatchOption result (Contains out.now held.now → ⊥) (λ place. (place < length out.now)
        × (get_or out.now place held.now ≡ held.now)) }
{
    for i in 0..out.len() {
        let place = out.len() - 1 - i;
        if is_same_term(&out[place], held) {
            return Some(place);
        }
    }
    None
}

/// The nodes of these terms.
pub fn nodes_of(alloc: Global, terms: &[HeldTerm]) -> Result<Vec<Node>, NoMemory>
    ensures { IfOk result (λ nodes. nodes.items ≡ nodes_of terms.now) }
{
    let mut nodes: Vec<Node> = Vec::new(alloc);
    'terms: for held in terms {
        nodes.push(held.node)?;
    }
    Ok(nodes)
}
