// A chunk of slots for 128 consecutive clause numbers. It counts its clauses, only to see in time when the last one is gone:
// then it gives its memory back.
ghost use Rattle.std.specs.Prelude.{◌≡◌, ◌<◌, ◌≤◌, ℕ, [], OnOk, IfOk, IfSome, None, map, length, set, is_some, is_none};
ghost use Rattle.std.specs.Prelude.{slice_index_or, if◌then◌else◌, ◌==◌};
ghost use Rattle.std.specs.List.{list_all};
ghost use Rattle.std.specs.Option.{option_copied};
ghost use Rattle.lrat_checker.specs.Clauses.{clause_in};

use crate::slot::Slot;
use cnf_base::{Lit, OutOfMemory};
use std::alloc::Global;
use std::marker::Model;

#[derive(Drop)]
pub struct Chunk {
    slots: Vec<Slot>,
    taken: u32,
}

impl Model for Chunk {
    ghost use Rattle.std.specs.Prelude.{◌≡◌, ◌<◌, [], length, map};
    ghost use Rattle.lrat_checker.specs.Clauses.{Places, places_code, clause_in};

    ghost Value = { Places };

    ghost coded = { places_code };

    ghost view = { λ chunk. map clause_in chunk.slots.items };

    // all slots, or none
    ghost invariant = { λ chunk. length chunk.slots.items < 128 → chunk.slots.items ≡ [] };
}

impl Chunk {
    /// No slots yet.
    pub fn new(alloc: Global) -> Chunk
        ensures { result ≡ [] }
    {
        Chunk {
            slots: Vec::new(alloc),
            taken: 0,
        }
    }

    /// The clause at a place, where there is one.
    #[inline(always)]
    pub fn clause(&self, place: usize) -> Option<&[Lit]>
        ensures { option_copied result ≡ slice_index_or self.now place None }
    {
        match self.slots.get(place) {
            None => None,
            Some(slot) => slot.clause(),
        }
    }

    /// Makes the slots, where there are none, of one that is freed. A refusal changes nothing.
    #[inline(always)]
    pub fn reserve(&mut self, alloc: Global, slot: &Slot) -> Result<(), OutOfMemory>
        ensures same { (i : ℕ) → slice_index_or self.new i None ≡ slice_index_or self.old i None }
        ensures ok { OnOk result (128 ≤ length self.new) }
    {
        if self.slots.len() < 128 {
            self.slots = free_slots(alloc, slot)?;
        }
        Ok(())
    }

    /// Puts a clause into a place.
    #[inline(always)]
    pub fn put(&mut self, place: usize, slot: Slot)
        requires { place < length self.old }
        ensures { self.new ≡ set self.old place (clause_in slot) }
    {
        self.slots[place] = slot;
        self.taken = self.taken.saturating_add(1);
    }

    /// Takes the clause out of a place, where there is one, and answers a slot with it.
    #[inline(always)]
    pub fn take(&mut self, alloc: Global, place: usize) -> Option<Slot>
        ensures taken { is_some result ≡ is_some (slice_index_or self.old place None) }
        ensures clause { IfSome result (λ slot. clause_in slot ≡ slice_index_or self.old place None) }
        ensures places { (i : ℕ) → slice_index_or self.new i None ≡ (if i == place then None else slice_index_or self.old i None) }
    {
        if self.clause(place).is_none() {
            return None;
        }
        let slot = self.slots[place];
        self.slots[place].free();
        self.taken = self.taken.saturating_sub(1);
        if self.taken == 0 {
            self.give_back(alloc);
        }
        Some(slot)
    }

    // Gives the memory back, where no clause is left.
    #[cold]
    #[inline(never)]
    fn give_back(&mut self, alloc: Global)
        ensures { (i : ℕ) → slice_index_or self.new i None ≡ slice_index_or self.old i None }
    {
        if is_blank(self.slots.as_slice()) {
            self.slots = Vec::new(alloc);
        }
    }
}

fn is_blank(slots: &[Slot]) -> bool
    ensures { result ≡ list_all (λ slot. is_none (clause_in slot)) slots.now }
{
    slots.iter().all(|slot| slot.clause().is_none())
}

#[inline(never)]
fn free_slots(alloc: Global, slot: &Slot) -> Result<Vec<Slot>, OutOfMemory>
    ensures size { IfOk result (λ slots. length slots.items ≡ 128) }
    ensures free { IfOk result (λ slots. (i : ℕ) → slice_index_or (map clause_in slots.items) i None ≡ None) }
{
    let mut slots = Vec::new(alloc);
    slots.resize(128, slot.freed())?;
    Ok(slots)
}
