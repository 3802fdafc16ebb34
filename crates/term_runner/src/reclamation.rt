// Reclamation between moves. At the limit of nodes, those that neither stack nor trail reaches are given back, and the move
// is tried once more. They are also given back after a move that leaves many: then each reclamation frees at least half of
// the nodes that it looks at, or all were reached, so that its time is a fraction of that in which they were made. Where there are
// many the trail's terms are copied out of the table first, so that it keeps those of the stack alone.
// (McCarthy: Recursive Functions of Symbolic Expressions, 1960, section 4; Brace, Rudell, Bryant: Efficient Implementation of
// a BDD Package, DAC 1990, section 3.4.)
ghost use Rattle.std.specs.Prelude.{◌≡◌, ◌⊎◌, ◌≤◌, ◌<◌, ◌+◌, ℕ, List, [], Ok, Err, Some, OnOk, OnErr, IfOk, IfErr, false};
ghost use Rattle.node_table.specs.declared.error.TableError.TheVariants.{OutOfMemory, WriteFault};
ghost use Rattle.node_table.specs.Progress.{Leaves, error_of};
ghost use Rattle.node_table.specs.Table.{live_nodes};
ghost use Rattle.cnf_base.specs.Formula.{Formula};
ghost use Rattle.schedule_plan.specs.Plan.{Stage, Term, after_move};
ghost use Rattle.schedule_plan.specs.SetMove.{move_in_order};
ghost use Rattle.bdd_terms.specs.Caches.{sizes};
ghost use Rattle.term_runner.specs.Moves.{MayMove, Moved};
ghost use Rattle.term_runner.specs.Stacked.{HasOwnUnits, IsAtStage, IsOpen};
ghost use Rattle.bdd_terms.specs.Tidy.{IsTidy, LeavesReached};
ghost use Rattle.term_runner.specs.Tidy.{held_nodes};
ghost use Rattle.term_runner.specs.Trail.{IsTrail};

use crate::stacked::StackedTerms;
use bdd_terms::{HeldTerm, RECLAIM_FROM, is_node_limit, is_tidy, nodes_of};
use cnf_base::{Cnf, OutOfMemory as NoMemory};
use host_io::Sink;
use node_table::{
    Node, Table, TableError, canonical_law, growth_law, reach_law, steps_law, subfunction_law,
};
use reclaim::reclaim;
use reconstruction::Reconstruction;
use schedule_plan::Move;
use std::alloc::Global;

impl<S: Sink + Drop> StackedTerms<S> {
    /// Takes a move, at the limit of nodes after a reclamation, and reclaims behind it where there are many. Says whether the empty
    /// clause was added: then all is done. `left` is how many nodes the last reclamation left.
    pub fn take_move(&mut self, formula: &Cnf, step: &Move) -> Result<bool, TableError>
        requires { MayMove formula.now step.now self.old }
        ensures moved { (stage next : Stage) → IsAtStage formula.now self.old stage
            → after_move formula.now stage (move_in_order self.old.table.graph.order step.now) ≡ Some next
            → Moved formula.now stage next self.old self.new result }
        ensures tidy { result ≡ Ok false → IsTidy (live_nodes self.new.table.graph) self.new.left }
        ensures within { live_nodes self.new.table.graph ≤ self.new.table.max_nodes }
    {
        let found = self.take_tidily(formula, step);
        self.table.table_law();
        found
    }

    // Takes a move and reclaims behind it.
    fn take_tidily(&mut self, formula: &Cnf, step: &Move) -> Result<bool, TableError>
        requires { MayMove formula.now step.now self.old }
        ensures moved { (stage next : Stage) → IsAtStage formula.now self.old stage
            → after_move formula.now stage (move_in_order self.old.table.graph.order step.now) ≡ Some next
            → Moved formula.now stage next self.old self.new result }
        ensures tidy { result ≡ Ok false → IsTidy (live_nodes self.new.table.graph) self.new.left }
    {
        canonical_law();
        subfunction_law();
        growth_law();
        steps_law::<S>();
        let refuted = self.try_twice(formula, step)?;
        if refuted {
            return Ok(refuted);
        }
        if is_tidy(self.table.live(), self.left) {
            return Ok(refuted);
        }
        self.left = self.give_back(formula)?;
        Ok(refuted)
    }

    // Tries a move, and at the limit of nodes once more after a reclamation.
    fn try_twice(&mut self, formula: &Cnf, step: &Move) -> Result<bool, TableError>
        requires { MayMove formula.now step.now self.old }
        ensures { (stage next : Stage) → IsAtStage formula.now self.old stage
            → after_move formula.now stage (move_in_order self.old.table.graph.order step.now) ≡ Some next
            → Moved formula.now stage next self.old self.new result }
    {
        subfunction_law();
        canonical_law();
        growth_law();
        steps_law::<S>();
        match self.try_move(formula, step) {
            Ok(refuted) => Ok(refuted),
            Err(e) if is_node_limit(&e) => {
                self.left = self.give_back(formula)?;
                self.try_move(formula, step)
            }
            Err(e) => Err(e),
        }
    }

    /// Gives back the nodes that neither the stack nor the trail reaches, with their clauses, and says how many are left. Where there
    /// were many, the trail reaches none, for its terms are stored.
    pub(crate) fn give_back(&mut self, formula: &Cnf) -> Result<u32, TableError>
        requires ready { IsOpen formula.now self.old }
        requires possible { (stage : Stage) × IsAtStage formula.now self.old stage }
        requires own { HasOwnUnits self.old }
        ensures at { (stage : Stage) → IsAtStage formula.now self.old stage
            → OnOk result (IsAtStage formula.now self.new stage) }
        ensures ready { OnOk result (IsOpen formula.now self.new) }
        ensures settled { OnOk result (self.new.table.retired ≡ []) }
        ensures own { OnOk result (HasOwnUnits self.new) }
        ensures reached { OnOk result (LeavesReached self.old.table.graph self.new.table.graph
            (held_nodes self.new.out.items self.new.trail.recent)) }
        ensures alone { 1000 ≤ live_nodes self.old.table.graph → OnOk result (self.new.trail.recent ≡ []) }
        ensures few { live_nodes self.old.table.graph < 1000 → OnOk result (self.new.trail.recent ≡ self.old.trail.recent) }
        ensures count { IfOk result (λ left. left ≡ live_nodes self.new.table.graph) }
        // A refusal leaves the nodes as they were.
        ensures kept { OnErr result (self.new.table.graph ≡ self.old.table.graph) }
        ensures top { self.new.table.book.state.top ≡ self.old.table.book.state.top }
        ensures same { (self.new.out ≡ self.old.out) × (self.new.left ≡ self.old.left) }
        ensures sizes { sizes self.new.caches ≡ sizes self.old.caches }
        ensures leaves { Leaves self.old.table self.new.table (error_of result) }
        ensures error { IfErr result (λ e. (e ≡ OutOfMemory) ⊎ (e ≡ WriteFault)) }
    {
        growth_law();
        reach_law();
        steps_law::<S>();
        store_many(&self.table, &mut self.trail)?;
        let alloc = *self.out.allocator();
        let roots = roots_of(alloc, self.out.as_slice(), &self.trail)?;
        let _ = reclaim(&mut self.table, roots.as_slice(), &mut self.caches)?;
        self.trail.forget_dead(&self.table);
        Ok(self.table.live())
    }
}

// Where there are many nodes the trail's terms are copied out of the table.
fn store_many<S: Sink + Drop>(table: &Table<S>, trail: &mut Reconstruction) -> Result<(), NoMemory>
    requires trail { (formula : Formula) × (quantified : List (ℕ × Term)) × IsTrail formula table.now.graph trail.old quantified }
    ensures trail { (formula : Formula) (quantified : List (ℕ × Term)) → IsTrail formula table.now.graph trail.old quantified
        → OnOk result (IsTrail formula table.now.graph trail.new quantified) }
    ensures alone { 1000 ≤ live_nodes table.now.graph → OnOk result (trail.new.recent ≡ []) }
    ensures few { live_nodes table.now.graph < 1000 → trail.new ≡ trail.old }
{
    if table.live() < RECLAIM_FROM {
        return Ok(());
    }
    trail.store(table)
}

/// The nodes of the stack, and those of the trail that aren't stored.
pub(crate) fn roots_of(
    alloc: Global,
    stack: &[HeldTerm],
    trail: &Reconstruction,
) -> Result<Vec<Node>, NoMemory>
    ensures { IfOk result (λ roots. roots.items ≡ held_nodes stack.now trail.now.recent) }
{
    let mut roots = nodes_of(alloc, stack)?;
    let kept = trail.nodes()?;
    roots.extend_from_slice(kept.as_slice())?;
    Ok(roots)
}
