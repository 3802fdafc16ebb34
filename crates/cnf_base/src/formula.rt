// Formulas, stored flat: one row of literals and one of the clauses' ends, so that a clause costs no allocation.
ghost use Rattle.std.specs.Prelude.{◌≡◌, ℕ, ◌+◌, ◌-◌, ◌<◌, ◌≤◌, [], ◌∷◌, ◌++◌, ◌↔◌, nat_abs, length, OnOk, OnErr, IsTrue, slice_index_or};
ghost use Rattle.std.specs.Prelude.{slice_range, MatchOption};
ghost use Rattle.std.specs.List.{list_all};
ghost use Rattle.cnf_base.specs.Truth.{literal_holds, clause_holds, assignment_of};
ghost use Rattle.cnf_base.specs.EmptyClause.{HaveLiterals, IsFirstEmpty};
ghost use Rattle.cnf_base.specs.Formula.{IsFormula, start_at};
ghost use Rattle.cnf_base.specs.Limits.{max_clauses, max_vars};

use crate::literal::Lit;
use crate::memory::OutOfMemory;
use std::alloc::Global;
use std::marker::Model;

/// A formula in conjunctive normal form: its number of variables and its clauses as they stand in its file.
#[derive(Drop)]
pub struct Cnf {
    vars: u32,
    literals: Vec<Lit>,
    ends: Vec<u32>,
}

impl Model for Cnf {
    ghost use Rattle.cnf_base.specs.Formula.{Formula, IsStored, cut_at};

    ghost Value = { Formula };

    ghost view = { λ f. record { vars = f.vars; clauses = cut_at f.literals.items 0 f.ends.items } };

    ghost invariant = { λ f. IsStored f.vars f.literals.items f.ends.items };
}

impl Cnf {
    pub fn vars(&self) -> u32
        ensures { result ≡ self.now.vars }
    {
        self.vars
    }

    /// The number of clauses.
    pub fn len(&self) -> usize
        ensures { result ≡ length self.now.clauses }
    {
        self.ends.as_slice().len()
    }

    pub fn is_empty(&self) -> bool
        ensures { IsTrue result ↔ (self.now.clauses ≡ []) }
    {
        self.len() == 0
    }

    /// The clause of this number; the first is 1.
    pub fn clause(&self, i: usize) -> &[Lit]
        requires from_one { 1 ≤ i }
        requires to_len { i ≤ length self.now.clauses }
        ensures { result.now ≡ slice_index_or self.now.clauses (i - 1) [] }
    {
        let ends = self.ends.as_slice();
        let start = start_of(ends, i - 1) as usize;
        let end = ends[i - 1] as usize;
        part(self.literals.as_slice(), start, end)
    }

    /// The number of the first empty clause, from 1, if there is one.
    pub fn first_empty(&self) -> Option<usize>
        ensures { MatchOption result (HaveLiterals self.now.clauses) (IsFirstEmpty self.now.clauses) }
    {
        for i in 0..self.len() {
            if self.clause(i + 1).is_empty() {
                return Some(i + 1);
            }
        }
        None
    }

    /// Whether these values of the variables satisfy each clause; variable x has the value at place x - 1.
    pub fn satisfied_by(&self, values: &[bool]) -> bool
        requires { length values.now ≡ self.now.vars }
        ensures { result ≡ list_all (clause_holds (assignment_of values.now)) self.now.clauses }
    {
        for i in 0..self.len() {
            if !clause_is_true(self.clause(i + 1), values) {
                return false;
            }
        }
        true
    }

    /// For the prover alone: what every formula meets, its limits, and that its literals are of its variables.
    pub fn formula_law(&self)
        ensures { IsFormula self.now }
    {
        let _vars = self.vars;
    }
}

// Where the clause at this place of the row begins.
fn start_of(ends: &[u32], place: usize) -> u32
    requires { place < length ends.now }
    ensures { result ≡ start_at 0 ends.now place }
{
    if place == 0 { 0 } else { ends[place - 1] }
}

fn part(literals: &[Lit], start: usize, end: usize) -> &[Lit]
    requires order { start ≤ end }
    requires room { end ≤ length literals.now }
    ensures { result.now ≡ slice_range literals.now start end }
{
    &literals[start..end]
}

fn literal_is_true(literal: Lit, values: &[bool]) -> bool
    ensures { result ≡ literal_holds (assignment_of values.now) literal }
{
    let place = literal.var() as usize - 1;
    values.get(place).copied().unwrap_or(false) != literal.is_negative()
}

fn clause_is_true(clause: &[Lit], values: &[bool]) -> bool
    ensures { result ≡ clause_holds (assignment_of values.now) clause.now }
{
    clause
        .iter()
        .any(|literal| literal_is_true(*literal, values))
}

/// A formula that is being built, clause by clause, literal by literal. A refusal for want of memory changes
/// nothing.
#[derive(Drop)]
pub struct CnfBuilder {
    vars: u32,
    literals: Vec<Lit>,
    ends: Vec<u32>,
}

impl Model for CnfBuilder {
    ghost use Rattle.std.specs.Prelude.{drop};
    ghost use Rattle.cnf_base.specs.Formula.{Draft, IsStored, cut_at, last_end};

    ghost Value = { Draft };

    ghost view = { λ b. record {
      vars = b.vars;
      clauses = cut_at b.literals.items 0 b.ends.items;
      begun = drop (last_end 0 b.ends.items) b.literals.items;
    } };

    ghost invariant = { λ b. IsStored b.vars b.literals.items b.ends.items };
}

impl CnfBuilder {
    /// An empty formula of so many variables.
    pub fn new(alloc: Global, vars: u32) -> Self
        requires { vars ≤ max_vars }
        ensures { result ≡ record { vars = vars; clauses = []; begun = [] } }
    {
        CnfBuilder {
            vars,
            literals: Vec::new(alloc),
            ends: Vec::new(alloc),
        }
    }

    /// Adds a literal to the clause that was begun, and begins one where there is none.
    pub fn push_lit(&mut self, literal: Lit) -> Result<(), OutOfMemory>
        requires { nat_abs literal ≤ self.old.vars }
        ensures ok { OnOk result (self.new ≡ record self.old { begun = self.old.begun ++ literal ∷ [] }) }
        ensures err { OnErr result (self.new ≡ self.old) }
    {
        let _var = literal.var();
        if self.literals.as_slice().len() >= MAX_LITERALS {
            return Err(OutOfMemory);
        }
        self.literals.push(literal)?;
        Ok(())
    }

    /// Ends the clause that was begun, or adds an empty one where there is none.
    pub fn end_clause(&mut self) -> Result<(), OutOfMemory>
        requires { length self.old.clauses < max_clauses }
        ensures ok { OnOk result (self.new ≡ record {
          vars = self.old.vars;
          clauses = self.old.clauses ++ self.old.begun
              ∷ [];
          begun = [];
        }) }
        ensures err { OnErr result (self.new ≡ self.old) }
    {
        let end = self.literals.as_slice().len() as u32;
        self.ends.push(end)?;
        Ok(())
    }

    /// The formula of the ended clauses.
    pub fn finish(self) -> Cnf
        requires { self.begun ≡ [] }
        ensures { result ≡ record { vars = self.vars; clauses = self.clauses } }
    {
        let CnfBuilder {
            vars,
            literals,
            ends,
        } = self;
        Cnf {
            vars,
            literals,
            ends,
        }
    }
}

// The row's places are numbered by `u32`.
const MAX_LITERALS: usize = u32::MAX as usize;
