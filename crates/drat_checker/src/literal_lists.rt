// Lists of clause numbers by literals, found at once by the literal: those of usual variables stand at places of a list, and those of
// variables beyond in a hash map, so that a great variable costs no long list.
ghost use Rattle.std.specs.Prelude.{◌≡◌, ◌<◌, ℕ, ℤ, [], false, length, slice_index_or, OnOk, IsTrue};
ghost use Rattle.std.specs.Ordering.{int_eq};
ghost use Rattle.drat_checker.specs.Numbers.{has_number};
ghost use Rattle.drat_checker.specs.LiteralLists.{KeepsEach, numbers_at};

use crate::database::key_of;
use crate::number_lists::NumberLists;
use crate::numbers::Numbers;
use cnf_base::{Lit, OutOfMemory};
use std::alloc::Global;
use std::mem;

// Below this are the places of the literals of the variables below 2 ^ 19, for which a list by place is short enough.
const NEAR_PLACES: u64 = 1_048_576;

/// A list of clause numbers for each literal.
#[derive(Drop)]
pub struct LiteralLists {
    near: Vec<Numbers>,
    far: NumberLists,
}

impl LiteralLists {
    pub fn new(alloc: Global) -> LiteralLists
        ensures { (x : ℤ) → numbers_at result x ≡ [] }
    {
        LiteralLists {
            near: Vec::new(alloc),
            far: NumberLists::new(alloc),
        }
    }

    /// Enters a number in the list of a literal. No list loses a number, also where memory is refused.
    #[inline(always)]
    pub fn enter(&mut self, alloc: Global, literal: Lit, number: u32) -> Result<(), OutOfMemory>
        ensures kept { KeepsEach self.old self.new }
        ensures entered { OnOk result (IsTrue (has_number number (numbers_at self.new literal))) }
    {
        let key = key_of(literal);
        if NEAR_PLACES <= key {
            return self.far.enter(alloc, key, number);
        }
        reach(&mut self.near, alloc, key as usize)?;
        self.near[key as usize].push(number)
    }

    /// Takes the list of a literal out. It has none then.
    #[inline(always)]
    pub fn take(&mut self, alloc: Global, literal: Lit) -> Numbers
        ensures list { result ≡ numbers_at self.old literal }
        ensures others { (x : ℤ) → int_eq x literal ≡ false → numbers_at self.new x ≡ numbers_at self.old x }
    {
        let key = key_of(literal);
        if NEAR_PLACES <= key {
            return self.far.take(alloc, key);
        }
        if self.near.len() <= key as usize {
            return Numbers::new(alloc);
        }
        mem::replace(&mut self.near[key as usize], Numbers::new(alloc))
    }

    /// Whether the list of a literal is known to have no number.
    #[inline(always)]
    pub fn is_empty_at(&self, literal: Lit) -> bool
        ensures { IsTrue result → numbers_at self.now literal ≡ [] }
    {
        let key = key_of(literal);
        if NEAR_PLACES <= key {
            return false;
        }
        if self.near.len() <= key as usize {
            return true;
        }
        false
    }

    /// Gives a literal this list in the place of its own.
    #[inline(always)]
    pub fn give(&mut self, alloc: Global, literal: Lit, numbers: Numbers) -> Result<(), OutOfMemory>
        ensures list { OnOk result (numbers_at self.new literal ≡ numbers) }
        ensures others { OnOk result ((x : ℤ) → int_eq x literal ≡ false → numbers_at self.new x ≡ numbers_at self.old x) }
    {
        let key = key_of(literal);
        if NEAR_PLACES <= key {
            return self.far.give(key, numbers);
        }
        reach(&mut self.near, alloc, key as usize)?;
        self.near[key as usize] = numbers;
        Ok(())
    }
}

// The list has a place then, and what it gains is empty.
#[inline(always)]
fn reach(near: &mut Vec<Numbers>, alloc: Global, place: usize) -> Result<(), OutOfMemory>
    ensures same { (k : ℕ) → slice_index_or near.new.items k [] ≡ slice_index_or near.old.items k [] }
    ensures ok { OnOk result (place < length near.new.items) }
{
    'places: while near.len() <= place {
        near.push(Numbers::new(alloc))?;
    }
    Ok(())
}
