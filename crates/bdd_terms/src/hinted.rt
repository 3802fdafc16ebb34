// Clauses that hints show, which those that ask about cubes find: steps to the clauses of refused cubes, and these themselves. Nothing is
// deleted here, so that a clause serves as a hint until the next call that deletes. The clauses of refused cubes stay until a plan is run.
// (Cubes: Heule, Kullmann, Wieringa, Biere: Cube and Conquer, HVC 2011.)
ghost use Rattle.std.specs.Prelude.{◌≡◌, ◌≢◌, ℤ, List, [], IfOk, IsTrue, false, true};
ghost use Rattle.std.specs.List.{list_all};
ghost use Rattle.cnf_base.specs.Cube.{cube_holds, forbidding};
ghost use Rattle.cnf_base.specs.Truth.{Assignment, is_literal_of};
ghost use Rattle.lrat_rules.specs.Strict.{RefutesStrictly};
ghost use Rattle.node_table.specs.declared.node.Node.TheVariants.{False};
ghost use Rattle.node_table.specs.Diagram.{levels};
ghost use Rattle.node_table.specs.Tied.{IsOverNodes, IsUpTo};
ghost use Rattle.bdd_terms.specs.declared.held.HeldTerm.{HeldTerm as HeldValue};
ghost use Rattle.bdd_terms.specs.Derived.{Derives, Refuses};
ghost use Rattle.bdd_terms.specs.Runner.{IsGood, IsRunner, holds_in};

use crate::runner::Runner;
use crate::term::Term;
use crate::unit::retire_unit;
use cnf_base::{Id, Lit, OutOfMemory};
use host_io::Sink;
use node_table::{Justification, TableError, growth_law, steps_law};
use operations::entry_law;
use std::alloc::Global;

impl<'a, S: Sink + Drop> Runner<'a, S> {
    /// Adds a clause that these hints show. It is retired at once, and stays live until clauses are deleted next.
    pub fn derive(&mut self, clause: &[Lit], hints: &[Id]) -> Result<Id, TableError>
        requires runner { IsRunner self.old }
        requires strict { RefutesStrictly self.old.terms.table.book.state.live clause.now hints.now }
        requires over_nodes { IsOverNodes self.old.terms.table.graph clause.now }
        requires some { clause.now ≢ [] }
        ensures derives { Derives clause.now self.old self.new result }
    {
        growth_law();
        steps_law::<S>();
        entry_law::<S>();
        let id = self.terms.table.justify(clause, hints)?;
        self.terms.table.retire(id);
        Ok(id)
    }

    /// Adds the clause of a cube that no assignment makes true beside the term, which these hints show. It stays.
    pub fn refuse(&mut self, term: &Term, cube: &[Lit], hints: &[Id]) -> Result<(), TableError>
        requires runner { IsRunner self.old }
        requires good { IsGood self.old term.now.held }
        requires variables { IsTrue (list_all (is_literal_of (levels self.old.terms.table.graph)) cube.now) }
        requires none { (a : Assignment) → holds_in self.old term.now.held a ≡ true → cube_holds a cube.now ≡ true → ⊥ }
        requires strict { RefutesStrictly self.old.terms.table.book.state.live (forbidding cube.now) hints.now }
        requires some { term.now.held.node ≢ False → cube.now ≢ [] }
        ensures refuses { Refuses term.now.held cube.now self.old self.new result }
    {
        growth_law();
        steps_law::<S>();
        entry_law::<S>();
        let alloc = *self.terms.out.allocator();
        let clause = forbidding(alloc, cube)?;
        self.keep(clause.as_slice(), hints)
    }

    // Adds a clause, and keeps it behind those of refused cubes.
    fn keep(&mut self, clause: &[Lit], hints: &[Id]) -> Result<(), TableError>
        requires runner { IsRunner self.old }
        requires variables { IsUpTo (levels self.old.terms.table.graph) clause.now }
        requires strict { RefutesStrictly self.old.terms.table.book.state.live clause.now hints.now }
        requires some { self.old.refuted ≡ false → clause.now ≢ [] }
        ensures { (held : HeldValue) (cube : List ℤ) → clause.now ≡ forbidding cube
            → ((a : Assignment) → holds_in self.old held a ≡ true → cube_holds a cube ≡ true → ⊥)
            → Refuses held cube self.old self.new result }
    {
        growth_law();
        steps_law::<S>();
        entry_law::<S>();
        if self.refusals.reserve(1).is_err() {
            return Err(TableError::OutOfMemory);
        }
        let id = self.terms.table.justify(clause, hints)?;
        self.refusals.push_reserved(id);
        Ok(())
    }

    /// Retires the clauses of refused cubes.
    pub(crate) fn give_up_refusals(&mut self)
        requires runner { IsRunner self.old }
        ensures goes_on { IsRunner self.new }
        ensures none { self.new.refusals.items ≡ [] }
        ensures same { self.new ≡ record self.old {
          terms = record self.old.terms { table = record self.old.terms.table { retired = self.new.terms.table.retired } };
          refusals = self.new.refusals;
        } }
    {
        steps_law::<S>();
        entry_law::<S>();
        'refusals: while let Some(id) = self.refusals.pop() {
            retire_unit(
                &mut self.terms.table,
                &Justification::Clause(id),
                &Justification::Trivial,
            );
        }
    }
}

// The negations of the literals, in their order.
fn forbidding(alloc: Global, cube: &[Lit]) -> Result<Vec<Lit>, OutOfMemory>
    ensures { IfOk result (λ clause. clause.items ≡ forbidding cube.now) }
{
    let mut clause = Vec::new(alloc);
    'literals: for literal in cube {
        clause.push(literal.negated())?;
    }
    Ok(clause)
}
