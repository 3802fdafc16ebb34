// One move of a plan. (Bryant, Heule: Generating Extended Resolution Proofs with a BDD-Based SAT Solver, 2021,
// section 5.)
ghost use Rattle.std.specs.Prelude.{◌≡◌, ◌≢◌, ◌<◌, ◌≤◌, ◌⊎◌, ◌+◌, ◌^◌, ℕ, List, [], Ok, Err, Some, IsTrue, false, length, map, reverse};
ghost use Rattle.std.specs.Prelude.{vec_capacity, vec_len};
ghost use Rattle.node_table.specs.declared.error.TableError.TheVariants.{NodeLimit};
ghost use Rattle.node_table.specs.declared.node.Node.TheVariants.{False};
ghost use Rattle.node_table.specs.Diagram.{variable_at};
ghost use Rattle.node_table.specs.Table.{IsSound};
ghost use Rattle.cnf_base.specs.Formula.{Formula};
ghost use Rattle.schedule_plan.specs.declared.plan.Move.TheVariants.{And, Exists, ExistsAll, Push};
ghost use Rattle.schedule_plan.specs.Plan.{Stage, after_all, after_move};
ghost use Rattle.schedule_plan.specs.SetMove.{falling, move_in_order};
ghost use Rattle.term_runner.specs.Held.{IsPlaced, MayGiveUp};
ghost use Rattle.term_runner.specs.Moves.{MayMove, Tried};
ghost use Rattle.bdd_terms.specs.Sets.{AreSetLevels};
ghost use Rattle.term_runner.specs.Stacked.{IsAtStage, IsOpen};

use crate::stacked::{StackedTerms, last_term, last_two};
use bdd_terms::{
    HeldTerm, conjunction, falling_of, input, is_node_limit, is_same, levels_of, retire_unit,
    weaken, weaken_all,
};
use cnf_base::Cnf;
use host_io::Sink;
use node_table::{Node, Table, TableError, growth_law, steps_law};
use operations::entry_law;
use schedule_plan::{Move, Variables};

impl<S: Sink + Drop> StackedTerms<S> {
    /// Tries a move, and says whether the empty clause was added: then all is done. Else, and where no more nodes are allowed,
    /// the clauses that were retired are deleted.
    pub fn try_move(&mut self, formula: &Cnf, step: &Move) -> Result<bool, TableError>
        requires { MayMove formula.now step.now self.old }
        ensures tried { (stage next : Stage) → IsAtStage formula.now self.old stage
            → after_move formula.now stage (move_in_order self.old.table.graph.order step.now) ≡ Some next
            → Tried formula.now stage next self.old self.new result }
        ensures settled { (result ≡ Ok false) ⊎ (result ≡ Err NodeLimit) → self.new.table.retired ≡ [] }
    {
        entry_law::<S>();
        steps_law::<S>();
        match self.carry_out(formula, step) {
            Ok(refuted) if refuted => Ok(refuted),
            Ok(refuted) => {
                self.table.settle()?;
                Ok(refuted)
            }
            Err(e) if is_node_limit(&e) => {
                self.table.settle()?;
                Err(e)
            }
            Err(e) => Err(e),
        }
    }

    // Takes a move, and says whether the empty clause was added.
    fn carry_out(&mut self, formula: &Cnf, step: &Move) -> Result<bool, TableError>
        requires { MayMove formula.now step.now self.old }
        ensures { (stage next : Stage) → IsAtStage formula.now self.old stage
            → after_move formula.now stage (move_in_order self.old.table.graph.order step.now) ≡ Some next
            → Tried formula.now stage next self.old self.new result }
    {
        match step {
            Move::Push(number) => self.push(formula, *number),
            Move::And => self.conjoin(),
            Move::Exists(variable) => self.quantify(*variable),
            Move::ExistsAll(set) => self.quantify_all(set),
        }
    }

    // Pushes the term of a clause.
    fn push(&mut self, formula: &Cnf, number: u32) -> Result<bool, TableError>
        requires { MayMove formula.now (Push number) self.old }
        ensures { (stage next : Stage) → IsAtStage formula.now self.old stage → after_move formula.now stage (Push number) ≡ Some next
            → Tried formula.now stage next self.old self.new result }
    {
        entry_law::<S>();
        growth_law();
        steps_law::<S>();
        let alloc = *self.out.allocator();
        if self.out.reserve(1).is_err() {
            return Err(TableError::OutOfMemory);
        }
        let held = input(alloc, &mut self.table, formula, number)?;
        Ok(put(&mut self.table, &mut self.out, &[], held))
    }

    // Conjoins the two last terms.
    fn conjoin(&mut self) -> Result<bool, TableError>
        requires { (formula : Formula) × MayMove formula And self.old }
        ensures { (formula : Formula) (stage next : Stage) → IsOpen formula self.old → IsAtStage formula self.old stage
            → after_move formula stage And ≡ Some next → Tried formula stage next self.old self.new result }
    {
        entry_law::<S>();
        growth_law();
        steps_law::<S>();
        let Some((u, v)) = last_two(self.out.as_slice()) else {
            unreachable!();
        };
        let held = conjunction(&mut self.table, &mut self.caches, &u, &v, false)?;
        Ok(put(&mut self.table, &mut self.out, &[u, v], held))
    }

    // Quantifies a variable from the last term.
    fn quantify(&mut self, variable: u32) -> Result<bool, TableError>
        requires { (formula : Formula) × MayMove formula (Exists variable) self.old }
        ensures { (formula : Formula) (stage next : Stage) → IsOpen formula self.old → IsAtStage formula self.old stage
            → after_move formula stage (Exists variable) ≡ Some next → Tried formula stage next self.old self.new result }
    {
        entry_law::<S>();
        growth_law();
        steps_law::<S>();
        let Some(u) = last_term(self.out.as_slice()) else {
            unreachable!();
        };
        let Some(level) = self.table.level(variable) else {
            unreachable!();
        };
        let held = weaken(&mut self.table, &mut self.caches, &u, level)?;
        self.trail.push(variable, u.node)?;
        Ok(put(&mut self.table, &mut self.out, &[u], held))
    }

    // Quantifies the variables of a set from the last term at once.
    fn quantify_all(&mut self, set: &Variables) -> Result<bool, TableError>
        requires { (formula : Formula) × MayMove formula (ExistsAll set.now) self.old }
        ensures { (formula : Formula) (stage next : Stage) → IsOpen formula self.old → IsAtStage formula self.old stage
            → after_all formula stage (falling self.old.table.graph.order set.now) ≡ Some next
            → Tried formula stage next self.old self.new result }
    {
        steps_law::<S>();
        let alloc = *self.out.allocator();
        let levels = levels_of(alloc, &self.table, set.as_slice())?;
        let variables = falling_of(alloc, &self.table, levels.as_slice())?;
        if levels.is_empty() {
            return Ok(false);
        }
        self.quantify_levels(levels.as_slice(), variables.as_slice())
    }

    // The variables of these levels, of which there are some.
    fn quantify_levels(&mut self, levels: &[u32], variables: &[u32]) -> Result<bool, TableError>
        requires may { (formula : Formula) × (set : List ℕ) × MayMove formula (ExistsAll set) self.old
            × AreSetLevels self.old.table.graph set levels.now }
        requires some { 0 < length levels.now }
        requires falls { variables.now ≡ map (variable_at self.old.table.graph) (reverse levels.now) }
        requires few { length variables.now < 2 ^ 32 }
        ensures { (formula : Formula) (stage next : Stage) (set : List ℕ) → AreSetLevels self.old.table.graph set levels.now
            → IsOpen formula self.old → IsAtStage formula self.old stage
            → after_all formula stage (falling self.old.table.graph.order set) ≡ Some next
            → Tried formula stage next self.old self.new result }
    {
        entry_law::<S>();
        growth_law();
        steps_law::<S>();
        let Some(u) = last_term(self.out.as_slice()) else {
            unreachable!();
        };
        let held = weaken_all(&mut self.table, &mut self.caches, &u, levels)?;
        self.trail.push_set(variables, u.node)?;
        Ok(put(&mut self.table, &mut self.out, &[u], held))
    }
}

// Puts a term in the place of its operands, which are the last ones. Their units are retired in turn, but for one that is its own.
// Says whether its node is False: then all stays.
fn put<S: Sink + Drop>(
    table: &mut Table<S>,
    out: &mut Vec<HeldTerm>,
    operands: &[HeldTerm],
    held: HeldTerm,
) -> bool
    requires sound { IsSound table.old }
    requires there { length operands.now ≤ length out.old.items }
    requires room { vec_len out.old < vec_capacity out.old + length operands.now }
    requires units { held.node ≢ False → MayGiveUp table.old operands.now }
    ensures refuted { IsTrue result → (held.node ≡ False) × ((table.new ≡ table.old) × (out.new ≡ out.old)) }
    ensures placed { result ≡ false → IsPlaced operands.now held table.old table.new out.old.items out.new.items }
{
    steps_law::<S>();
    if is_same(held.node, Node::False) {
        return true;
    }
    'operands: for operand in operands {
        let _ = out.pop();
        retire_unit(table, &operand.unit, &held.unit);
    }
    out.push_reserved(held);
    false
}
