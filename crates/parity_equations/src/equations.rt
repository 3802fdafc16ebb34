// The equations of a formula, by one walk over its clauses: at the first clause over a set of variables, those over this set.
ghost use Rattle.std.specs.Prelude.{◌≡◌, ◌≤◌, ◌<◌, ◌++◌, ◌∷◌, ℕ, ℤ, List, [], IfOk, IfSome, OnOk, length, map, nat_abs, slice_index_or, if◌then◌else◌};
ghost use Rattle.std.specs.List.{All};
ghost use Rattle.parity_equations.specs.Denied.{AreVariables};
ghost use Rattle.parity_equations.specs.Equations.{equations, has_equation};
ghost use Rattle.parity_equations.specs.LiteralSet.{AreLiterals};
ghost use Rattle.parity_equations.specs.Walk.{AreRisingUpTo, IsEquationOf, IsIndexOf, TakesClause, listed, sets_of};

use crate::denied::clauses_of;
use crate::index::Index;
use crate::literals::{LiteralSet, literal_set};
use arrayvec::ArrayVec;
use cnf_base::{Cnf, Lit, OutOfMemory};
use std::alloc::Global;
use std::collections::HashSet;

/// Variables of an equation, rising.
type Variables = ArrayVec<u32, 8>;

/// A parity equation of a formula: the sum of its variables, modulo 2, is its bit. Its clauses say so.
#[derive(Drop)]
pub struct Equation {
    variables: Vec<u32>,
    bit: bool,
    clauses: Vec<u32>,
}

impl Equation {
    /// Its variables, rising.
    pub fn variables(&self) -> &[u32]
        ensures { result.now ≡ self.now.variables.items }
    {
        self.variables.as_slice()
    }

    /// The sum of its variables, modulo 2.
    pub fn bit(&self) -> bool
        ensures { result ≡ self.now.bit }
    {
        self.bit
    }

    /// The numbers of its clauses, rising.
    pub fn clauses(&self) -> &[u32]
        ensures { result.now ≡ self.now.clauses.items }
    {
        self.clauses.as_slice()
    }
}

/// The equations of a formula, each once.
#[derive(Drop)]
pub struct Equations {
    list: Vec<Equation>,
}

impl Equations {
    /// Those of a formula, by the first clause over the variables, that of an even sum first.
    pub fn of(alloc: Global, formula: &Cnf) -> Result<Equations, OutOfMemory>
        ensures listed { IfOk result (λ found. map listed found.list.items ≡ equations formula.now.clauses) }
        ensures each { IfOk result (λ found. All (IsEquationOf formula.now.vars formula.now.clauses) found.list.items) }
    {
        formula.formula_law();
        let index = Index::of(alloc, formula)?;
        let mut seen = HashSet::new(alloc);
        let mut list = Vec::new(alloc);
        'clauses: for place in 0..formula.len() {
            take_clause(
                alloc,
                &index,
                formula.clause(place + 1),
                &mut seen,
                &mut list,
            )?;
        }
        Ok(Equations { list })
    }

    pub fn len(&self) -> usize
        ensures { result ≡ length self.now.list.items }
    {
        self.list.len()
    }

    pub fn is_empty(&self) -> bool {
        self.list.is_empty()
    }

    /// The equation at a place, from 0.
    pub fn get(&self, place: usize) -> &Equation
        requires { place < length self.now.list.items }
        ensures { result.now ≡ slice_index_or self.now.list.items place result.now }
    {
        &self.list[place]
    }
}

// Takes the equations over a clause's variables, unless a clause before it was over the same.
fn take_clause(
    alloc: Global,
    index: &Index,
    clause: &[Lit],
    seen: &mut HashSet<Variables>,
    found: &mut Vec<Equation>,
) -> Result<(), OutOfMemory>
    requires { AreLiterals clause.now }
    ensures { OnOk result ((clauses : List (List ℤ)) → IsIndexOf clauses index.now
        → TakesClause clauses clause.now (sets_of seen.old) (sets_of seen.new) found.old.items found.new.items) }
{
    let Some(set) = literal_set(clause) else {
        return Ok(());
    };
    let is_new = seen.insert(variables_of(&set))?;
    if !is_new {
        return Ok(());
    }
    let variables = variables_of(&set);
    push_equation(alloc, index, variables.as_slice(), false, found)?;
    push_equation(alloc, index, variables.as_slice(), true, found)
}

// The variables of a set of literals.
fn variables_of(set: &LiteralSet) -> Variables
    ensures { result.items ≡ map nat_abs set.now.items }
{
    let mut variables = ArrayVec::new();
    'literals: for literal in set.as_slice() {
        variables.push(literal.unsigned_abs());
    }
    variables
}

// Adds the equation of these variables and this bit, where the formula has it.
fn push_equation(
    alloc: Global,
    index: &Index,
    variables: &[u32],
    bit: bool,
    found: &mut Vec<Equation>,
) -> Result<(), OutOfMemory>
    requires few { length variables.now ≤ 8 }
    requires variables { AreVariables variables.now }
    ensures listed { OnOk result ((clauses : List (List ℤ)) → IsIndexOf clauses index.now → map listed found.new.items
        ≡ map listed found.old.items ++ (if has_equation clauses variables.now bit then (variables.now, bit) ∷ [] else [])) }
    ensures each { OnOk result ((vars : ℕ) (clauses : List (List ℤ)) → IsIndexOf clauses index.now → 0 < length variables.now
        → AreRisingUpTo vars 1 variables.now → All (IsEquationOf vars clauses) found.old.items
        → All (IsEquationOf vars clauses) found.new.items) }
{
    let known = clauses_of(alloc, index, variables, bit)?;
    let Some(clauses) = known else {
        return Ok(());
    };
    let mut own = Vec::new(alloc);
    own.extend_from_slice(variables)?;
    found.push(Equation {
        variables: own,
        bit,
        clauses,
    })?;
    Ok(())
}
