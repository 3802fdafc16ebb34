// The first clauses of a formula by their sets of literals.
ghost use Rattle.std.specs.Prelude.{◌≡◌, ◌≤◌, ◌+◌, ℕ, ℤ, pos, List, [], ◌∷◌, None, IfOk, OnOk, length, if◌then◌else◌};
ghost use Rattle.std.specs.Cmp.Lexicographic.{pointwise};
ghost use Rattle.std.specs.Bool.{then_some};
ghost use Rattle.std.specs.Option.{option_or};
ghost use Rattle.std.specs.Ordering.{int_eq};
ghost use Rattle.parity_equations.specs.Index.{first_under, number_of, padded};
ghost use Rattle.parity_equations.specs.LiteralSet.{AreLiterals, is_candidate, literal_set};

use crate::literals::literal_set;
use cnf_base::{Cnf, Lit, OutOfMemory};
use std::alloc::Global;
use std::collections::HashMap;

/// The number of the first clause of each set of literals.
#[derive(Drop)]
pub struct Index {
    numbers: HashMap<[i32; 8], u32>,
}

impl Index {
    /// That of a formula.
    pub fn of(alloc: Global, formula: &Cnf) -> Result<Index, OutOfMemory>
        ensures { IfOk result (λ index. (key : List ℤ) → number_of index key ≡ first_under 1 formula.now.clauses key) }
    {
        formula.formula_law();
        let mut index = Index {
            numbers: HashMap::new(alloc),
        };
        'clauses: for place in 0..formula.len() {
            index.enter_clause(formula.clause(place + 1), place as u32 + 1)?;
        }
        Ok(index)
    }

    /// The number of the first clause whose set has this key.
    pub fn number(&self, key: &[i32; 8]) -> Option<u32>
        ensures { result ≡ number_of self.now key.now }
    {
        self.numbers.get(key).copied()
    }

    // Enters a clause, unless one of the same literals is there.
    fn enter_clause(&mut self, clause: &[Lit], number: u32) -> Result<(), OutOfMemory>
        requires { AreLiterals clause.now }
        ensures { OnOk result ((key : List ℤ) → number_of self.new key
            ≡ option_or (number_of self.old key) (first_under number (clause.now ∷ []) key)) }
    {
        match literal_set(clause) {
            None => Ok(()),
            Some(set) => self.enter(key_of(set.as_slice()), number),
        }
    }

    // Enters a number under a key, unless there is one.
    fn enter(&mut self, key: [i32; 8], number: u32) -> Result<(), OutOfMemory>
        ensures { OnOk result ((other : List ℤ) → number_of self.new other
            ≡ option_or (number_of self.old other) (then_some (pointwise int_eq key other) number)) }
    {
        if self.numbers.contains_key(&key) {
            return Ok(());
        }
        let _ = self.numbers.insert(key, number)?;
        Ok(())
    }
}

/// The key of a set of at most eight literals.
pub fn key_of(set: &[i32]) -> [i32; 8]
    requires { length set.now ≤ 8 }
    ensures { result ≡ padded set.now }
{
    let mut key = [0; 8];
    'places: for place in 0..set.len() {
        key[place] = set[place];
    }
    key
}
