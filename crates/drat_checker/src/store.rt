// The clauses that stand, by their numbers, which are given in turn. A number isn't given twice: an addition takes 32 bytes for its
// place, and a clause that stands the memory of its literals beside.
ghost use Rattle.std.specs.Prelude.{◌≡◌, ◌<◌, [], ◌∷◌, ◌++◌, length, set, Some, None, IfOk, OnOk, OnErr};
ghost use Rattle.std.specs.Option.{option_copied};
ghost use Rattle.drat_checker.specs.Places.{place_at};

use crate::clause::Clause;
use cnf_base::{Lit, OutOfMemory};
use std::alloc::Global;
use std::marker::Model;
use std::mem;

/// Clauses by number, from 0.
#[derive(Drop)]
pub struct Store {
    alloc: Global,
    places: Vec<Option<Clause>>,
}

impl Model for Store {
    ghost use Rattle.drat_checker.specs.Places.{Places, places_code};

    ghost Value = { Places };

    ghost coded = { places_code };

    ghost view = { λ store. store.places.items };
}

impl Store {
    /// No clause.
    pub fn new(alloc: Global) -> Store
        ensures { result ≡ [] }
    {
        Store {
            alloc,
            places: Vec::new(alloc),
        }
    }

    /// The clause of a number, where it stands.
    #[inline(always)]
    pub fn clause(&self, number: u32) -> Option<&[Lit]>
        ensures { option_copied result ≡ place_at self.now number }
    {
        match self.places.get(number as usize) {
            None => None,
            Some(place) => clause_in(place),
        }
    }

    /// The number of the clause that comes next, while there are numbers.
    pub fn next(&self) -> Result<u32, OutOfMemory>
        ensures { IfOk result (λ number. number ≡ length self.now) }
    {
        let len = self.places.len();
        if len > u32::MAX as usize {
            return Err(OutOfMemory);
        }
        Ok(len as u32)
    }

    /// Puts a clause under the next number. A refusal changes nothing.
    pub fn push(&mut self, literals: &[Lit]) -> Result<(), OutOfMemory>
        ensures ok { OnOk result (self.new ≡ self.old ++ Some literals.now ∷ []) }
        ensures err { OnErr result (self.new ≡ self.old) }
    {
        let clause = Clause::of(self.alloc, literals)?;
        self.places.push(Some(clause))?;
        Ok(())
    }

    /// Takes out the clause of a number.
    pub fn take(&mut self, number: u32) -> Option<Clause>
        requires { number < length self.old }
        ensures clause { result ≡ place_at self.old number }
        ensures others { self.new ≡ set self.old number None }
    {
        mem::replace(&mut self.places[number as usize], None)
    }
}

#[inline(always)]
fn clause_in(place: &Option<Clause>) -> Option<&[Lit]>
    ensures { option_copied result ≡ place.now }
{
    match place {
        None => None,
        Some(clause) => Some(clause.literals()),
    }
}
