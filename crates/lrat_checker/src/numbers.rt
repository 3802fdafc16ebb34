// The numbers of the clauses that hold one literal. Those that are live no more stay until they are more than half, so that
// a number that dies is not searched for.
ghost use Rattle.std.specs.Prelude.{◌≡◌, [], OnOk, IsTrue};
ghost use Rattle.std.specs.FinMap as map;
ghost use Rattle.lrat_checker.specs.Holders.{KeepsNumbers, KeepsLive, has_number, is_live};

use crate::clauses::Clauses;
use cnf_base::{Id, OutOfMemory};
use std::alloc::Global;
use std::marker::Model;

/// Numbers of clauses, among them dead ones. How many are dead serves only to drop them in time.
#[derive(Drop)]
pub struct Numbers {
    numbers: Vec<u64>,
    dead: usize,
}

impl Model for Numbers {
    ghost use Rattle.std.specs.Prelude.{List, ℕ};

    ghost Value = { List ℕ };

    ghost view = { λ list. list.numbers.items };
}

impl Numbers {
    pub fn new(alloc: Global) -> Self
        ensures { result ≡ [] }
    {
        Numbers {
            numbers: Vec::new(alloc),
            dead: 0,
        }
    }

    pub fn as_slice(&self) -> &[u64]
        ensures { result.now ≡ self.now }
    {
        self.numbers.as_slice()
    }

    /// One number more. A refusal loses none.
    pub fn push(&mut self, id: u64) -> Result<(), OutOfMemory>
        ensures kept { KeepsNumbers self.old self.new }
        ensures entered { OnOk result (IsTrue (has_number id self.new)) }
    {
        self.numbers.push(id)?;
        Ok(())
    }

    /// The clause of a number goes, which may be one of these. The answer is whether none is left.
    pub fn leave(&mut self, clauses: &Clauses, gone: u64) -> bool
        ensures kept { KeepsLive (map.remove clauses.now gone) self.old self.new }
        ensures emptied { IsTrue result → self.new ≡ [] }
    {
        self.dead = self.dead.saturating_add(1);
        if self.dead > self.numbers.len() / 2 {
            drop_dead(&mut self.numbers, clauses, gone);
            self.dead = 0;
        }
        self.numbers.is_empty()
    }
}

// Drops the numbers under which no clause is live once that one is gone.
fn drop_dead(numbers: &mut Vec<u64>, clauses: &Clauses, gone: u64)
    ensures { KeepsLive (map.remove clauses.now gone) numbers.old.items numbers.new.items }
{
    numbers.retain(|number| stays(clauses, gone, *number));
    shrink(numbers);
}

fn stays(clauses: &Clauses, gone: u64, number: u64) -> bool
    ensures { result ≡ is_live (map.remove clauses.now gone) number }
{
    number != gone && is_live(clauses, number)
}

fn is_live(clauses: &Clauses, number: u64) -> bool
    ensures { result ≡ is_live clauses.now number }
{
    match clauses.get(Id(number)) {
        None => false,
        Some(_) => true,
    }
}

// Gives room back where little of it is used.
fn shrink(numbers: &mut Vec<u64>)
    ensures { numbers.new.items ≡ numbers.old.items }
{
    if numbers.len() < numbers.capacity() / 4 {
        numbers.shrink_to_fit();
    }
}
