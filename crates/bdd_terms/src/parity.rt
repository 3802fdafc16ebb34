// The sum of some variables, modulo 2, as a node of a runner, and a term weakened to a node that it implies. By both the sum of two
// parity equations follows from their conjunction. (Philipp, Rebola-Pardo: DRAT Proofs for XOR Reasoning, 2016, section 3; Bryant, Heule:
// Generating Extended Resolution Proofs with a BDD-Based SAT Solver, 2021, section 4.3.)
ghost use Rattle.std.specs.Prelude.{◌≡◌, [], IfOk, IsTrue, None, OnOk, Ok, Some};
ghost use Rattle.node_table.specs.declared.node.Node.{Node as NodeValue};
ghost use Rattle.node_table.specs.Diagram.{is_node};
ghost use Rattle.node_table.specs.Table.{AddsAtMost};
ghost use Rattle.parity_nodes.specs.Sums.{sum_is};
ghost use Rattle.bdd_terms.specs.declared.held.HeldTerm.{HeldTerm as HeldValue};
ghost use Rattle.bdd_terms.specs.declared.runner.Runner.{Runner as RunnerValue};
ghost use Rattle.bdd_terms.specs.Parity.{AreVariables, GivesNone, IsNodeOf, TakesNode, TakesWeaker, Weakens, sum_function};
ghost use Rattle.bdd_terms.specs.Runner.{IsGood, IsRunner};

use crate::retry::met_limit;
use crate::runner::Runner;
use crate::sets::levels_of;
use crate::term::Term;
use crate::weaker::weaker;
use host_io::Sink;
use node_table::{Node, TableError, canonical_law, growth_law, steps_law, subfunction_law};
use operations::entry_law;
use parity_nodes::parity_node;

impl<'a, S: Sink + Drop> Runner<'a, S> {
    /// The node that holds where the sum of these variables, modulo 2, is the bit; a constant where there is none. It is no term: what gives
    /// nodes back may take it away.
    pub fn parity(&mut self, variables: &[u32], bit: bool) -> Result<Node, TableError>
        requires runner { IsRunner self.old }
        requires variables { AreVariables self.old.formula.now.vars variables.now }
        ensures { TakesNode (sum_is bit variables.now) self.old self.new result }
    {
        canonical_law();
        subfunction_law();
        growth_law();
        steps_law::<S>();
        let found = self.try_parity(variables, bit);
        if !met_limit(&found) {
            return found;
        }
        let _ = self.reclaim()?;
        self.try_parity(variables, bit)
    }

    /// The term of a node that a term implies; none where it doesn't. The term stays.
    pub fn weaken(&mut self, u: &Term, node: Node) -> Result<Option<Term>, TableError>
        requires runner { IsRunner self.old }
        requires good { IsGood self.old u.now.held }
        requires stands { IsTrue (is_node self.old.terms.table.graph node) }
        ensures { TakesWeaker u.now.held node self.old self.new result }
    {
        canonical_law();
        subfunction_law();
        growth_law();
        let Some(term) = self.try_weaken(u, node)? else {
            return Ok(None);
        };
        let given = self.tidy(term)?;
        Ok(Some(given))
    }

    // One try of `parity`.
    fn try_parity(&mut self, variables: &[u32], bit: bool) -> Result<Node, TableError>
        requires runner { IsRunner self.old }
        requires variables { AreVariables self.old.formula.now.vars variables.now }
        ensures node { IfOk result (IsNodeOf self.new.terms.table.graph (sum_is bit variables.now)) }
        ensures gives_none { GivesNone (sum_function self.old.terms.table.graph.order variables.now bit) [] self.old self.new result }
        ensures adds_none { AddsAtMost 0 self.old.terms.table self.new.terms.table }
    {
        steps_law::<S>();
        subfunction_law();
        growth_law();
        entry_law::<S>();
        self.terms.table.table_law();
        let alloc = *self.terms.out.allocator();
        let set = levels_of(alloc, &self.terms.table, variables)?;
        parity_node(&mut self.terms.table, set.as_slice(), bit)
    }

    // As `weaken`, and no node is given back.
    fn try_weaken(&mut self, u: &Term, node: Node) -> Result<Option<Term>, TableError>
        requires runner { IsRunner self.old }
        requires good { IsGood self.old u.now.held }
        requires stands { IsTrue (is_node self.old.terms.table.graph node) }
        ensures weakens { Weakens u.now.held node self.old self.new result }
        ensures settled { OnOk result (self.new.terms.table.retired ≡ []) }
    {
        let found = self.find_weaker(u, node)?;
        match found {
            None => self.settle_none(),
            Some(term) => self.settle_some(term),
        }
    }

    // Deletes the retired clauses where no term was found.
    fn settle_none(&mut self) -> Result<Option<Term>, TableError>
        requires runner { IsRunner self.old }
        ensures weakens { (operand : HeldValue) (node : NodeValue) (old : RunnerValue S) → Weakens operand node old self.old (Ok None)
            → Weakens operand node old self.new result }
        ensures settled { OnOk result (self.new.terms.table.retired ≡ []) }
    {
        let always = self.truth();
        let _ = self.settle(Ok(always))?;
        Ok(None)
    }

    // Deletes them where one was.
    fn settle_some(&mut self, term: Term) -> Result<Option<Term>, TableError>
        requires runner { IsRunner self.old }
        ensures weakens { (operand : HeldValue) (node : NodeValue) (old : RunnerValue S)
            → Weakens operand node old self.old (Ok (Some term)) → Weakens operand node old self.new result }
        ensures settled { OnOk result (self.new.terms.table.retired ≡ []) }
    {
        let settled = self.settle(Ok(term))?;
        Ok(Some(settled))
    }

    // Finds the term of a node that a term implies, and puts it on the list.
    fn find_weaker(&mut self, u: &Term, node: Node) -> Result<Option<Term>, TableError>
        requires runner { IsRunner self.old }
        requires good { IsGood self.old u.now.held }
        requires stands { IsTrue (is_node self.old.terms.table.graph node) }
        ensures weakens { Weakens u.now.held node self.old self.new result }
    {
        growth_law();
        steps_law::<S>();
        entry_law::<S>();
        subfunction_law();
        if self.terms.out.reserve(1).is_err() {
            return Err(TableError::OutOfMemory);
        }
        let Some(held) = weaker(&mut self.terms.table, &mut self.terms.caches, &u.held, node)?
        else {
            return Ok(None);
        };
        self.place(&held);
        Ok(Some(Term { held }))
    }
}
