// In which clauses a literal stands: for each literal a list of numbers. A list may have numbers that are live no more,
// at most as many as live ones, and a number twice. A list without numbers is given up, so the lists take memory in
// proportion to the live clauses.
ghost use Rattle.std.specs.Prelude.{◌≡◌, ℤ, [], OnOk, IsTrue};
ghost use Rattle.std.specs.FinMap as map;
ghost use Rattle.lrat_checker.specs.Holders.{KeepsAll, KeepsAllLive, is_entered, numbers_of, holds};

use crate::clauses::Clauses;
use crate::numbers::Numbers;
use cnf_base::{Lit, OutOfMemory};
use std::alloc::Global;
use std::collections::HashMap;

/// The numbers of the clauses that hold a literal.
#[derive(Drop)]
pub struct Holders {
    lists: HashMap<i32, Numbers>,
}

impl Holders {
    pub fn new(alloc: Global) -> Self
        ensures { (literal : ℤ) → numbers_of result literal ≡ [] }
    {
        Holders {
            lists: HashMap::new(alloc),
        }
    }

    /// The numbers in the list of a literal.
    pub fn numbers(&self, literal: Lit) -> &[u64]
        ensures { result.now ≡ numbers_of self.now literal }
    {
        match self.lists.get(&literal.get()) {
            None => &[],
            Some(numbers) => numbers.as_slice(),
        }
    }

    /// Enters a number in the list of each of these literals. No list loses a number, also where memory is refused.
    pub fn enter(&mut self, alloc: Global, id: u64, literals: &[Lit]) -> Result<(), OutOfMemory>
        ensures kept { KeepsAll self.old self.new }
        ensures entered { OnOk result (IsTrue (is_entered self.new id literals.now)) }
    {
        for literal in literals {
            self.enter_one(alloc, id, *literal)?;
        }
        Ok(())
    }

    fn enter_one(&mut self, alloc: Global, id: u64, literal: Lit) -> Result<(), OutOfMemory>
        ensures kept { KeepsAll self.old self.new }
        ensures entered { OnOk result (IsTrue (holds self.new id literal)) }
    {
        let numbers = self
            .lists
            .entry(literal.get())?
            .or_insert(Numbers::new(alloc));
        numbers.push(id)
    }

    /// The clause of a number goes, with these literals. The lists keep the numbers of those that stay.
    pub fn leave(&mut self, clauses: &Clauses, gone: u64, literals: &[Lit])
        ensures { KeepsAllLive (map.remove clauses.now gone) self.old self.new }
    {
        for literal in literals {
            self.leave_one(clauses, gone, *literal);
        }
    }

    fn leave_one(&mut self, clauses: &Clauses, gone: u64, literal: Lit)
        ensures { KeepsAllLive (map.remove clauses.now gone) self.old self.new }
    {
        if self.leave_list(clauses, gone, literal) {
            self.lists.remove(&literal.get());
        }
    }

    // The answer is whether the literal has a list, without numbers.
    fn leave_list(&mut self, clauses: &Clauses, gone: u64, literal: Lit) -> bool
        ensures kept { KeepsAllLive (map.remove clauses.now gone) self.old self.new }
        ensures emptied { IsTrue result → numbers_of self.new literal ≡ [] }
    {
        match self.lists.get_mut(&literal.get()) {
            None => false,
            Some(numbers) => numbers.leave(clauses, gone),
        }
    }
}
