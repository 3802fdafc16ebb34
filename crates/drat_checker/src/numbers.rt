// Numbers of clauses that have something in common. Those whose clause stands no more stay until they are more than half, so that
// a number that goes is not searched for.
ghost use Rattle.std.specs.Prelude.{◌≡◌, ◌<◌, ◌+◌, ◌++◌, ◌∷◌, ℕ, [], false, OnErr, OnOk, IfSome, IsTrue, length, take, nat_eq, slice_index};
ghost use Rattle.drat_checker.specs.Numbers.{AreRising, KeepsNumbers, KeepsStanding, ends_with, has_number, stands};

use crate::store::Store;
use cnf_base::OutOfMemory;
use std::alloc::Global;
use std::marker::Model;

/// Numbers of clauses, some of which stand no more. How many serves only to drop them in time.
#[derive(Drop)]
pub struct Numbers {
    numbers: Vec<u32>,
    gone: usize,
}

impl Model for Numbers {
    ghost use Rattle.std.specs.Prelude.{List, ℕ};

    ghost Value = { List ℕ };

    ghost view = { λ list. list.numbers.items };
}

impl Numbers {
    pub fn new(alloc: Global) -> Self
        ensures { result ≡ [] }
    {
        Numbers {
            numbers: Vec::new(alloc),
            gone: 0,
        }
    }

    #[inline(always)]
    pub fn as_slice(&self) -> &[u32]
        ensures { result.now ≡ self.now }
    {
        self.numbers.as_slice()
    }

    pub fn len(&self) -> usize
        ensures { result ≡ length self.now }
    {
        self.numbers.len()
    }

    /// The number at a place.
    #[inline(always)]
    pub fn number(&self, place: usize) -> u32
        requires { place < length self.now }
        ensures { result ≡ slice_index self.now place }
    {
        self.numbers[place]
    }

    /// Drops the number at a place. The last one takes its place; those before it stay where they are.
    #[inline(always)]
    pub fn drop_at(&mut self, place: usize)
        requires { place < length self.old }
        ensures front { take place self.new ≡ take place self.old }
        ensures len { length self.new + 1 ≡ length self.old }
        ensures kept { (number : ℕ) → nat_eq number (slice_index self.old place) ≡ false → IsTrue (has_number number self.old)
            → IsTrue (has_number number self.new) }
    {
        self.numbers.swap_remove(place);
    }

    /// Drops a number where it stands first. The answer is whether it stands there; the others stay.
    pub fn forget(&mut self, number: u32) -> bool
        ensures kept { (other : ℕ) → nat_eq other number ≡ false → IsTrue (has_number other self.old)
            → IsTrue (has_number other self.new) }
        ensures none { result ≡ false → self.new ≡ self.old }
    {
        match place_in(self.numbers.as_slice(), number) {
            None => false,
            Some(place) => {
                self.drop_at(place);
                true
            }
        }
    }

    /// One number more. A refusal loses none.
    pub fn push(&mut self, number: u32) -> Result<(), OutOfMemory>
        ensures kept { KeepsNumbers self.old self.new }
        ensures entered { OnOk result (IsTrue (has_number number self.new)) }
        ensures ok { OnOk result (self.new ≡ self.old ++ number ∷ []) }
        ensures err { OnErr result (self.new ≡ self.old) }
    {
        self.numbers.push(number)?;
        Ok(())
    }

    /// The same, unless it is the last one already.
    pub fn push_once(&mut self, number: u32) -> Result<(), OutOfMemory>
        ensures kept { KeepsNumbers self.old self.new }
        ensures entered { OnOk result (IsTrue (has_number number self.new)) }
        ensures rising { AreRising number self.old → AreRising number self.new }
    {
        if ends_with(self.numbers.as_slice(), number) {
            return Ok(());
        }
        self.push(number)
    }

    /// One of the numbers may be of a clause that stands no more. The answer is whether none is left.
    pub fn leave(&mut self, store: &Store) -> bool
        ensures kept { KeepsStanding store.now self.old self.new }
        ensures emptied { IsTrue result → self.new ≡ [] }
        ensures rising { (most : ℕ) → AreRising most self.old → AreRising most self.new }
    {
        self.gone = self.gone.saturating_add(1);
        if self.gone > self.numbers.len() / 2 {
            keep_standing(&mut self.numbers, store);
            self.gone = 0;
        }
        self.numbers.is_empty()
    }
}

// The first place of a number.
fn place_in(numbers: &[u32], number: u32) -> Option<usize>
    ensures { IfSome result (λ place. (place < length numbers.now) × (slice_index numbers.now place ≡ number)) }
{
    numbers.iter().position(|own| *own == number)
}

// Whether a number is the last one.
#[inline(always)]
fn ends_with(numbers: &[u32], number: u32) -> bool
    ensures has { IsTrue result → IsTrue (has_number number numbers.now) }
    ensures last { result ≡ ends_with number numbers.now }
{
    match numbers {
        [] => false,
        [.., last] => *last == number,
    }
}

// Drops the numbers under which no clause stands.
fn keep_standing(numbers: &mut Vec<u32>, store: &Store)
    ensures kept { KeepsStanding store.now numbers.old.items numbers.new.items }
    ensures rising { (most : ℕ) → AreRising most numbers.old.items → AreRising most numbers.new.items }
{
    numbers.retain(|number| stands(store, *number));
    shrink(numbers);
}

fn stands(store: &Store, number: u32) -> bool
    ensures { result ≡ stands store.now number }
{
    match store.clause(number) {
        None => false,
        Some(_) => true,
    }
}

// Gives room back where little of it is used.
fn shrink(numbers: &mut Vec<u32>)
    ensures { numbers.new.items ≡ numbers.old.items }
{
    if numbers.len() < numbers.capacity() / 4 {
        numbers.shrink_to_fit();
    }
}
