// Calls of a runner that met the limit of nodes are tried once more, behind a reclamation; and nodes are given back behind a call that
// left many, as between two moves of a plan. So a runner holds no more nodes than a plan does.
ghost use Rattle.std.specs.Prelude.{◌≡◌, ◌≢◌, ◌≤◌, ◌+◌, ◌*◌, ◌&&◌, ◌∷◌, ◌↔◌, ℕ, Bool, List, [], Ok, Err, None, IsTrue, IfOk, OnOk, length};
ghost use Rattle.cnf_base.specs.Truth.{Assignment};
ghost use Rattle.node_table.specs.declared.error.TableError.TheVariants.{NodeLimit};
ghost use Rattle.node_table.specs.Progress.{error_of};
ghost use Rattle.schedule_plan.specs.Plan.{input as input_term, term_holds};
ghost use Rattle.bdd_terms.specs.declared.held.HeldTerm.{HeldTerm as HeldValue};
ghost use Rattle.bdd_terms.specs.declared.runner.Runner.{Runner as RunnerValue};
ghost use Rattle.bdd_terms.specs.Runner.{IsGood, IsListed, IsRunner, holds_in};
ghost use Rattle.bdd_terms.specs.Takes.{Costs, GivesBack, IsTidied, Takes, asked_in, functions_out};
ghost use Rattle.bdd_terms.specs.Parts.{HasAtMost};
ghost use Rattle.bdd_terms.specs.Tidy.{IsTidy};

use crate::runner::Runner;
use crate::term::Term;
use crate::unit::is_same;
use host_io::Sink;
use node_table::{Node, TableError, canonical_law, growth_law, steps_law, subfunction_law};

/// With fewer nodes than these none are given back.
pub const RECLAIM_FROM: u32 = 1000;

impl<'a, S: Sink + Drop> Runner<'a, S> {
    /// Gives back the nodes that no term reaches that is out, with their clauses, and answers how many. Want of memory changes
    /// nothing.
    pub fn reclaim(&mut self) -> Result<u32, TableError>
        requires { IsRunner self.old }
        ensures { GivesBack self.old self.new result }
    {
        let count = self.give_back()?;
        self.terms.left = self.terms.table.live();
        Ok(count)
    }

    /// The term of a clause, tried twice at most.
    pub(crate) fn term_twice(&mut self, number: u32) -> Result<Term, TableError>
        requires runner { IsRunner self.old }
        requires from_one { 1 ≤ number }
        requires to_len { number ≤ length self.old.formula.now.clauses }
        ensures takes { Takes (λ a. term_holds self.old.formula.now a (input_term number)) self.old self.new result }
        ensures costs { Costs (asked_in self.old (λ a. term_holds self.old.formula.now a (input_term number)) ∷ functions_out self.old)
            self.old self.new (error_of result) }
        ensures few { (width : ℕ) → HasAtMost (asked_in self.old (λ a. term_holds self.old.formula.now a (input_term number))) width
            → self.new.terms.table.book.state.top ≤ self.old.terms.table.book.state.top + (8 * width + 2) }
        ensures settled { OnOk result (self.new.terms.table.retired ≡ []) }
    {
        canonical_law();
        subfunction_law();
        growth_law();
        steps_law::<S>();
        let found = self.try_term(number);
        if !met_limit(&found) {
            return found;
        }
        let _ = self.reclaim()?;
        self.try_term(number)
    }

    /// The conjunction of two terms, tried twice at most.
    pub(crate) fn meet_twice(&mut self, u: &Term, v: &Term) -> Result<Term, TableError>
        requires runner { IsRunner self.old }
        requires first { IsGood self.old u.now.held }
        requires second { IsGood self.old v.now.held }
        ensures takes { Takes (λ a. holds_in self.old u.now.held a && holds_in self.old v.now.held a) self.old self.new result }
        ensures costs { Costs (asked_in self.old (λ a. holds_in self.old u.now.held a && holds_in self.old v.now.held a)
            ∷ functions_out self.old) self.old self.new (error_of result) }
        ensures settled { OnOk result (self.new.terms.table.retired ≡ []) }
    {
        canonical_law();
        subfunction_law();
        growth_law();
        steps_law::<S>();
        let found = self.try_meet(u, v);
        if !met_limit(&found) {
            return found;
        }
        let _ = self.reclaim()?;
        self.try_meet(u, v)
    }

    /// Gives back the nodes that no term reaches, where there are many behind a call that gave this term, which is out. Where that fails the
    /// term goes. Where it refutes the formula all is done.
    pub(crate) fn tidy(&mut self, term: Term) -> Result<Term, TableError>
        requires runner { IsRunner self.old }
        requires last { (before : List HeldValue) × IsListed before self.old.terms.out.items term.held }
        ensures takes { (holds : Assignment → Bool) (old : RunnerValue S) → Takes holds old self.old (Ok term)
            → Takes holds old self.new result }
        ensures costs { (holds : Assignment → Bool) (old : RunnerValue S) → IsRunner old → Takes holds old self.old (Ok term)
            → Costs (asked_in old holds ∷ functions_out old) old self.old None
            → Costs (asked_in old holds ∷ functions_out old) old self.new (error_of result) }
        ensures top { self.new.terms.table.book.state.top ≡ self.old.terms.table.book.state.top }
        ensures given { IfOk result (λ given. (given ≡ term) × IsTidied self.new given) }
        ensures settled { self.old.terms.table.retired ≡ [] → OnOk result (self.new.terms.table.retired ≡ []) }
        ensures no_node_limit { result ≢ Err NodeLimit }
    {
        canonical_law();
        subfunction_law();
        growth_law();
        steps_law::<S>();
        if is_same(term.held.node, Node::False) {
            return Ok(term);
        }
        if is_tidy(self.terms.table.live(), self.terms.left) {
            return Ok(term);
        }
        match self.reclaim() {
            Ok(_) => Ok(term),
            Err(e) => {
                self.release(term);
                Err(e)
            }
        }
    }
}

/// Whether a try met the limit of nodes.
pub(crate) fn met_limit<T>(found: &Result<T, TableError>) -> bool
    ensures { IsTrue result ↔ (found.now ≡ Err NodeLimit) }
{
    match found {
        Err(TableError::NodeLimit) => true,
        _ => false,
    }
}

/// Whether no more nodes are allowed.
pub fn is_node_limit(error: &TableError) -> bool
    ensures { IsTrue result ↔ (error.now ≡ NodeLimit) }
{
    *error == TableError::NodeLimit
}

/// Whether there are so few nodes that none are given back.
pub fn is_tidy(live: u32, left: u32) -> bool
    ensures { IsTrue result ↔ IsTidy live left }
{
    live < RECLAIM_FROM || live / 2 < left
}
