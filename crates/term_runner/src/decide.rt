// From the moves of a plan to what was found.
ghost use Rattle.std.specs.Prelude.{◌≡◌, ◌≢◌, ◌≤◌, ◌+◌, ◌*◌, ℕ, List, [], ◌∷◌, Ok, Err, None, Some, true, false, IsTrue, IfOk, IfErr, IsSome, OnOk};
ghost use Rattle.std.specs.Prelude.{MatchOption};
ghost use Rattle.std.specs.Prelude.{length, reverse};
ghost use Rattle.cnf_base.specs.Formula.{Formula};
ghost use Rattle.lrat_rules.specs.State.{clause_at};
ghost use Rattle.clause_ledger.specs.Book.{AreTold, addition, with_next};
ghost use Rattle.node_table.specs.declared.error.TableError.TheVariants.{NodeLimit, IdLimit, WriteFault};
ghost use Rattle.node_table.specs.declared.node.Node.TheVariants.{False};
ghost use Rattle.node_table.specs.Diagram.{is_node, levels};
ghost use Rattle.node_table.specs.Progress.{Leaves, error_of};
ghost use Rattle.node_table.specs.Table.{AddsAtMost, AddsNoEmpty, IsSame, IsSound, live_nodes};
ghost use Rattle.reconstruction.specs.Stack.{empty_stack};
ghost use Rattle.schedule_plan.specs.Plan.{IsAdmissible, Term, no_stage};
ghost use Rattle.schedule_plan.specs.SetMove.{in_order};
ghost use Rattle.bdd_terms.specs.Caches.{HaveSize, all_entries};
ghost use Rattle.term_runner.specs.Recovered.{IsRecovered};
ghost use Rattle.term_runner.specs.Price.{IsLeanAtEnd, IsPaid};
ghost use Rattle.bdd_terms.specs.Price.{IsMovePrice};
ghost use Rattle.term_runner.specs.Width.{HasWidth, keeps_trail};
ghost use Rattle.term_runner.specs.Nodes.{RunsShort};
ghost use Rattle.term_runner.specs.Opened.{Decides, LeavesKind};
ghost use Rattle.bdd_terms.specs.OverFormula.{HasEmpty, IsOver};
ghost use Rattle.term_runner.specs.Held.{top_node};
ghost use Rattle.term_runner.specs.Stacked.{HasOwnUnits, IsAtStage, IsOpen};
ghost use Rattle.term_runner.specs.Trail.{AreVariables, IsRecoveredBy, IsTrail};

use crate::open::are_tautologies;
use crate::stacked::StackedTerms;
use crate::watch::Watch;
use bdd_terms::HeldTerm;
use clause_terms::{Model, Trail, recover};
use cnf_base::{Cnf, Id, OutOfMemory};
use host_io::Sink;
use lrat_rules::{conflict_law, live_law, marks_law, start_law};
use node_table::{
    Node, Table, TableError, canonical_law, growth_law, in_use_law, lean_law, steps_law,
    subfunction_law,
};
use reconstruction::{Reconstruction, copies_law};
use schedule_plan::{Plan, set_move_law};
use std::alloc::Global;

impl<S: Sink + Drop> StackedTerms<S> {
    /// Decides a formula, behind calls that gave terms of which none is out: a model, or None where the empty clause was added. It was
    /// already where that is said. An empty clause refutes the formula by one line; where all clauses are tautologies no node or
    /// clause is made. Else what is left of those calls goes before the first move. The caches, which are of this capacity, are used
    /// by all moves.
    pub fn decide(
        &mut self,
        refuted: bool,
        formula: &Cnf,
        plan: &Plan,
        capacity: u32,
        watch: &mut Watch<'_>,
    ) -> Result<Option<Model>, TableError>
        requires plan { IsAdmissible formula.now plan.now }
        requires capacity { 1 ≤ capacity }
        requires size { HaveSize self.old.caches capacity }
        requires begun { watch.old.moves ≡ 0 }
        requires over { IsOver formula.now self.old.table (all_entries self.old.caches) }
        requires refuted { IsTrue refuted → HasEmpty self.old.table }
        requires own { refuted ≡ false → HasOwnUnits self.old }
        requires none_out { self.old.out.items ≡ [] }
        requires no_trail { self.old.trail ≡ empty_stack }
        ensures decides { Decides formula.now plan.now capacity self.old.table self.new.table result }
        ensures at_once { IsTrue refuted → (result ≡ Ok None) × (self.new.table ≡ self.old.table) }
        ensures counted { watch.new.moves ≤ length plan.now }
    {
        start_law();
        marks_law();
        live_law();
        growth_law();
        steps_law::<S>();
        in_use_law();
        lean_law::<S>();
        set_move_law();
        copies_law();
        formula.formula_law();
        self.table.table_law();
        if refuted {
            return Ok(None);
        }
        if let Some(number) = formula.first_empty() {
            self.add_empty(Id(number as u64))?;
            return Ok(None);
        }
        let alloc = *self.out.allocator();
        if are_tautologies(alloc, formula) {
            let model = recover(alloc, &self.table, Node::True, &Trail::new(alloc))?;
            return Ok(Some(model));
        }
        self.left = self.give_back(formula)?;
        self.take_moves(formula, plan, capacity, watch)
    }

    // Adds the empty clause by one hint, an empty clause that is live.
    fn add_empty(&mut self, hint: Id) -> Result<(), TableError>
        requires sound { IsSound self.old.table }
        requires empty { clause_at self.old.table.book.state.live hint ≡ Some [] }
        ensures told { OnOk result (AreTold true self.old.table.book self.new.table.book
            (addition self.old.table.book.state [] (hint ∷ []) ∷ [])) }
        ensures state { OnOk result (self.new.table.book.state ≡ with_next self.old.table.book.state []) }
        ensures nodes { self.new.table.graph ≡ self.old.table.graph }
        ensures leaves { Leaves self.old.table self.new.table (error_of result) }
        ensures adds { AddsAtMost 1 self.old.table self.new.table }
        ensures no_node_limit { result ≢ Err NodeLimit }
        ensures id_limit { result ≡ Err IdLimit → self.old.table.book.limit ≤ self.old.table.book.state.top }
        ensures refused { IfErr result (λ e. e ≢ WriteFault → IsSame self.old.table self.new.table) }
    {
        conflict_law();
        let _id = self.table.justify(&[], &[hint])?;
        Ok(())
    }

    // Takes the moves in turn, until the empty clause is added or the plan ends, and counts those that are done. No node is there at
    // first.
    fn take_moves(
        &mut self,
        formula: &Cnf,
        plan: &Plan,
        capacity: u32,
        watch: &mut Watch<'_>,
    ) -> Result<Option<Model>, TableError>
        requires plan { IsAdmissible formula.now (in_order self.old.table.graph.order plan.now) }
        requires capacity { 1 ≤ capacity }
        requires size { HaveSize self.old.caches capacity }
        requires begun { watch.old.moves ≡ 0 }
        requires ready { IsOpen formula.now self.old }
        requires own { HasOwnUnits self.old }
        requires at { IsAtStage formula.now self.old no_stage }
        requires empty { live_nodes self.old.table.graph ≡ 0 }
        requires settled { self.old.table.retired ≡ [] }
        requires none_left { self.old.left ≡ 0 }
        ensures found { IfOk result (λ found. MatchOption found ((id : ℕ) × (clause_at self.new.table.book.state.live id ≡ Some []))
            (λ model. IsRecovered formula.now self.old.table.graph.order plan.now model)) }
        ensures leaves { Leaves self.old.table self.new.table (error_of result) }
        ensures paid { (width price : ℕ) → HasWidth formula.now self.old.table.graph.order plan.now width
            → IsMovePrice (levels self.old.table.graph) capacity width price
            → LeavesKind self.old.table self.new.table
            (IsPaid (levels self.old.table.graph) self.old.table.inputs self.old.table.book.state.top (length plan.now) capacity width price)
            (error_of result) }
        ensures lean { IfOk result (λ found. IsSome found → IsLeanAtEnd
            (levels self.old.table.graph) self.old.table.inputs capacity self.new.table.book.state) }
        ensures short { result ≡ Err NodeLimit → RunsShort (keeps_trail self.old.table.max_nodes) formula.now self.old.table.graph.order plan.now self.new.table.graph }
        ensures no_empty { IfErr result (λ e. e ≢ WriteFault → AddsNoEmpty self.old.table self.new.table) }
        ensures counted { watch.new.moves ≤ length plan.now }
    {
        steps_law::<S>();
        subfunction_law();
        canonical_law();
        in_use_law();
        lean_law::<S>();
        copies_law();
        formula.formula_law();
        'moves: for i in 0..plan.len() {
            self.caches.few_law();
            let Some(step) = plan.get(i) else {
                unreachable!();
            };
            if self.take_move(formula, step)? {
                return Ok(None);
            }
            watch.note(self.table.ledger().last_id());
            watch.show(self.reading(plan.len()));
        }
        self.table.table_law();
        self.caches.few_law();
        let alloc = *self.out.allocator();
        let node = top(self.out.as_slice());
        let model = recover_all(alloc, &self.table, node, &mut self.trail)?;
        Ok(Some(model))
    }
}

// The least assignment that makes the node true, and then the variables of the trail, the last one first, whose terms are stored
// before.
fn recover_all<S: Sink + Drop>(
    alloc: Global,
    table: &Table<S>,
    node: Node,
    trail: &mut Reconstruction,
) -> Result<Model, OutOfMemory>
    requires node { IsTrue (is_node table.now.graph node) }
    requires some { node ≢ False }
    requires trail { (formula : Formula) × (quantified : List (ℕ × Term)) × IsTrail formula table.now.graph trail.old quantified
        × AreVariables formula quantified × (formula.vars ≡ levels table.now.graph) }
    ensures { IfOk result (λ model. (formula : Formula) (quantified : List (ℕ × Term))
        → IsTrail formula table.now.graph trail.old quantified → IsRecoveredBy formula table.now.graph node quantified model) }
{
    table.table_law();
    trail.store(table)?;
    let mut model = recover(alloc, table, node, &Trail::new(alloc))?;
    trail.set_back(&mut model)?;
    Ok(model)
}

// The last term's node; True where there is no term.
fn top(stack: &[HeldTerm]) -> Node
    ensures { result ≡ top_node (reverse stack.now) }
{
    match stack.last() {
        Some(held) => held.node,
        None => Node::True,
    }
}
