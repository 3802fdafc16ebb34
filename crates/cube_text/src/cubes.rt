// Cubes, stored flat, as the clauses of a formula are.
ghost use Rattle.std.specs.Prelude.{◌≡◌, ◌≤◌, ◌-◌, ◌↔◌, [], length, IsTrue, slice_index_or};

use cnf_base::{Cnf, Lit};
use std::marker::Model;

/// Cubes: in each, literals that are assumed together.
#[derive(Drop)]
pub struct Cubes {
    list: Cnf,
}

impl Model for Cubes {
    ghost use Rattle.std.specs.Prelude.{ℤ, List};

    ghost Value = { List (List ℤ) };

    ghost view = { λ c. c.list.clauses };
}

impl Cubes {
    /// Those that stand as these clauses do.
    pub(crate) fn of_clauses(list: Cnf) -> Cubes
        ensures { result ≡ list.clauses }
    {
        Cubes { list }
    }

    /// How many there are.
    pub fn len(&self) -> usize
        ensures { result ≡ length self.now }
    {
        self.list.len()
    }

    pub fn is_empty(&self) -> bool
        ensures { IsTrue result ↔ (self.now ≡ []) }
    {
        self.list.is_empty()
    }

    /// The cube of this number; the first is 1.
    pub fn cube(&self, i: usize) -> &[Lit]
        requires from_one { 1 ≤ i }
        requires to_len { i ≤ length self.now }
        ensures { result.now ≡ slice_index_or self.now (i - 1) [] }
    {
        self.list.clause(i)
    }
}
