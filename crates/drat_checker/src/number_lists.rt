// Lists of clause numbers by keys, as literals and hashes. A list without numbers is given up, so the lists take memory in
// proportion to the clauses that stand.
ghost use Rattle.std.specs.Prelude.{◌≡◌, ℕ, [], false, nat_eq, OnOk, IsTrue};
ghost use Rattle.drat_checker.specs.Numbers.{KeepsLists, KeepsRising, KeepsStandingLists, has_number, numbers_of};

use crate::numbers::Numbers;
use crate::store::Store;
use cnf_base::OutOfMemory;
use std::alloc::Global;
use std::collections::HashMap;

/// A list of clause numbers for each key.
#[derive(Drop)]
pub struct NumberLists {
    lists: HashMap<u64, Numbers>,
}

impl NumberLists {
    pub fn new(alloc: Global) -> Self
        ensures { (key : ℕ) → numbers_of result key ≡ [] }
    {
        NumberLists {
            lists: HashMap::new(alloc),
        }
    }

    /// The numbers in the list of a key.
    pub fn numbers(&self, key: u64) -> &[u32]
        ensures { result.now ≡ numbers_of self.now key }
    {
        match self.lists.get(&key) {
            None => &[],
            Some(numbers) => numbers.as_slice(),
        }
    }

    /// Enters a number in the list of a key, once for each clause. No list loses a number, also where memory is refused.
    pub fn enter(&mut self, alloc: Global, key: u64, number: u32) -> Result<(), OutOfMemory>
        ensures kept { KeepsLists self.old self.new }
        ensures entered { OnOk result (IsTrue (has_number number (numbers_of self.new key))) }
        ensures rising { KeepsRising number self.old self.new }
    {
        let numbers = self.lists.entry(key)?.or_insert(Numbers::new(alloc));
        numbers.push_once(number)
    }

    /// Takes the list of a key out. It has none then.
    pub fn take(&mut self, alloc: Global, key: u64) -> Numbers
        ensures list { result ≡ numbers_of self.old key }
        ensures others { (k : ℕ) → nat_eq k key ≡ false → numbers_of self.new k ≡ numbers_of self.old k }
    {
        match self.lists.remove(&key) {
            None => Numbers::new(alloc),
            Some(numbers) => numbers,
        }
    }

    /// Gives a key this list in the place of its own.
    pub fn give(&mut self, key: u64, numbers: Numbers) -> Result<(), OutOfMemory>
        ensures list { OnOk result (numbers_of self.new key ≡ numbers) }
        ensures others { OnOk result ((k : ℕ) → nat_eq k key ≡ false → numbers_of self.new k ≡ numbers_of self.old k) }
    {
        self.lists.insert(key, numbers)?;
        Ok(())
    }

    /// A clause with this key stands no more. The lists keep the numbers of those that stand.
    pub fn leave(&mut self, store: &Store, key: u64)
        ensures kept { KeepsStandingLists store.now self.old self.new }
        ensures rising { (most : ℕ) → KeepsRising most self.old self.new }
    {
        if self.leave_list(store, key) {
            self.lists.remove(&key);
        }
    }

    // The answer is whether the key has a list, without numbers.
    fn leave_list(&mut self, store: &Store, key: u64) -> bool
        ensures kept { KeepsStandingLists store.now self.old self.new }
        ensures emptied { IsTrue result → numbers_of self.new key ≡ [] }
        ensures rising { (most : ℕ) → KeepsRising most self.old self.new }
    {
        match self.lists.get_mut(&key) {
            None => false,
            Some(numbers) => numbers.leave(store),
        }
    }
}
