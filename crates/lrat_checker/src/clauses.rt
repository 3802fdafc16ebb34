// The live clauses by their numbers. Proofs number their clauses almost one after the other, so short clauses stand in chunks of
// 128 places, where number n has place n % 128 of chunk n / 128: they cost no allocation and no search, and a chunk whose
// clauses are all gone gives its memory back. Longer clauses, and numbers far ahead of all others, stand in a hash map.
ghost use Rattle.std.specs.Prelude.{◌≡◌, ◌+◌, ◌*◌, ◌<◌, ◌≤◌, ◌/◌, ◌%◌, ℕ, [], None, true, false, nat_eq, OnOk, OnErr, IsTrue, is_some};
ghost use Rattle.std.specs.Prelude.{IfSome, IfNone, length, slice_index_or, if◌then◌else◌, ◌==◌};
ghost use Rattle.std.specs.HashMap.{get};
ghost use Rattle.std.specs.List.{list_all};
ghost use Rattle.std.specs.Option.{option_copied};
ghost use Rattle.std.specs.FinMap as map;
ghost use Rattle.lrat_rules.specs.State.{clause_at, with_clause};
ghost use Rattle.lrat_rules.specs.Addition.{is_settled};
ghost use Rattle.lrat_rules.specs.FalseLiterals.{set_of, before_of};
ghost use Rattle.lrat_checker.specs.Clauses.{near_at, clause_in};
ghost use Rattle.lrat_checker.specs.Holders.{KeepsAll, IsIndexOf, is_entered};
ghost use Rattle.lrat_checker.specs.Walk.{passes_at, settles_at};

use crate::candidates::{settles_clause, settles_place};
use crate::chunk::Chunk;
use crate::clause::Clause;
use crate::holders::Holders;
use crate::slot::Slot;
use cnf_base::{Group, Id, Lit, OutOfMemory};
use lrat_rules::Chain;
use std::alloc::Global;
use std::collections::HashMap;
use std::marker::Model;

/// Clauses by number.
#[derive(Drop)]
pub struct Clauses {
    alloc: Global,
    chunks: Vec<Chunk>,
    far: HashMap<u64, Clause>,
    top: u64,
    inserted: u64,
}

impl Model for Clauses {
    ghost use Rattle.std.specs.Prelude.{ℤ, List, ◌+◌, nat_eq};
    ghost use Rattle.std.specs.Ordering.{nat_cmp};
    ghost use Rattle.std.specs.Coded.{coded_ℕ, coded_ℤ, coded_list};
    ghost use Rattle.std.specs.FinMap as map;
    ghost use Rattle.std.specs.HashMap.{get};
    ghost use Rattle.lrat_checker.specs.Clauses.{near_at, stands_at, live_below, AreStored};

    ghost Value = { map.FinMap nat_cmp (List ℤ) };

    ghost coded = { map.code coded_ℕ (coded_list coded_ℤ) };

    ghost view = { λ l. live_below (stands_at (near_at l.chunks.items) (get nat_eq l.far)) (l.top + 1) };

    ghost invariant = { λ l. AreStored (near_at l.chunks.items) (get nat_eq l.far) l.top };
}

impl Clauses {
    /// No clause.
    pub fn new(alloc: Global) -> Self
        ensures { result ≡ map.empty }
    {
        Clauses {
            alloc,
            chunks: Vec::new(alloc),
            far: HashMap::new(alloc),
            top: 0,
            inserted: 0,
        }
    }

    /// The clause of this number, where it is live.
    #[inline(always)]
    pub fn get(&self, id: Id) -> Option<&[Lit]>
        ensures { option_copied result ≡ clause_at self.now id }
    {
        let number = id.get();
        match near_clause(self.chunks.as_slice(), number) {
            Some(clause) => Some(clause),
            None => match self.far.get(&number) {
                None => None,
                Some(clause) => Some(clause.literals()),
            },
        }
    }

    /// Makes a clause live under a number. A refusal changes nothing.
    pub fn insert(&mut self, id: Id, literals: &[Lit]) -> Result<(), OutOfMemory>
        ensures ok { OnOk result (self.new ≡ with_clause self.old id literals.now) }
        ensures err { OnErr result (self.new ≡ self.old) }
    {
        match Slot::of(literals) {
            Some(slot) if self.is_near(id.get()) => self.insert_near(id, literals, slot),
            _ => self.insert_far(id, literals),
        }
    }

    // Whether chunks should reach to a number: then most of their places are used.
    fn is_near(&self, number: u64) -> bool {
        number / 128 < self.chunks.len() as u64 || number / 4 < self.inserted.saturating_add(16384)
    }

    #[inline(always)]
    fn insert_near(&mut self, id: Id, literals: &[Lit], slot: Slot) -> Result<(), OutOfMemory>
        requires { clause_in slot ≡ Some literals.now }
        ensures ok { OnOk result (self.new ≡ with_clause self.old id literals.now) }
        ensures err { OnErr result (self.new ≡ self.old) }
    {
        let number = id.get();
        reach(&mut self.chunks, self.alloc, number, &slot)?;
        put(&mut self.chunks, number, slot);
        if number <= self.top {
            self.far.remove(&number);
        } else {
            self.top = number;
        }
        self.inserted = self.inserted.saturating_add(1);
        Ok(())
    }

    fn insert_far(&mut self, id: Id, literals: &[Lit]) -> Result<(), OutOfMemory>
        ensures ok { OnOk result (self.new ≡ with_clause self.old id literals.now) }
        ensures err { OnErr result (self.new ≡ self.old) }
    {
        let number = id.get();
        let clause = Clause::of(self.alloc, literals)?;
        self.far.insert(number, clause)?;
        take(&mut self.chunks, self.alloc, number);
        self.top = self.top.max(number);
        self.inserted = self.inserted.saturating_add(1);
        Ok(())
    }

    /// Whether each candidate of the pivot is blocked or has a group.
    pub fn all_settled(&self, chain: &Chain, pivot: Lit, groups: &[Group]) -> bool
        requires { before_of chain.now ≡ None }
        ensures { result ≡ list_all (is_settled self.now (set_of chain.now) pivot groups.now) (map.keys self.now) }
    {
        let chunks = self.chunks.as_slice();
        let places = (chunks.len() as u64).saturating_mul(128);
        if !near_settled(chunks, places, chain, pivot, groups) {
            return false;
        }
        // The places may reach to the greatest number that there is, which no bound has below it.
        if !settles_place(
            chain,
            pivot,
            groups,
            self.top,
            near_clause(chunks, self.top),
        ) {
            return false;
        }
        far_settled(&self.far, chain, pivot, groups)
    }

    /// Enters all clauses in lists that lose no number thereby.
    pub fn enter_all(&self, holders: &mut Holders) -> Result<(), OutOfMemory>
        ensures { OnOk result (IsIndexOf holders.new self.now) }
    {
        let chunks = self.chunks.as_slice();
        let places = (chunks.len() as u64).saturating_mul(128);
        enter_near(holders, self.alloc, chunks, places)?;
        // (for the number that no bound has below it)
        enter_place(holders, self.alloc, self.top, near_clause(chunks, self.top))?;
        enter_far(holders, self.alloc, &self.far)?;
        Ok(())
    }

    /// Takes out the clause of a number, where it is live.
    pub fn remove(&mut self, id: Id)
        ensures { self.new ≡ map.remove self.old id }
    {
        let number = id.get();
        if take(&mut self.chunks, self.alloc, number).is_none() {
            self.far.remove(&number);
        }
    }

    /// Takes out the clause of a number, where it stands in a chunk, and answers a slot with it.
    #[inline(always)]
    pub fn take_near(&mut self, id: Id) -> Option<Slot>
        ensures clause { IfSome result (λ slot. clause_in slot ≡ clause_at self.old id) }
        ensures gone { IfSome result (λ slot. self.new ≡ map.remove self.old id) }
        ensures same { IfNone result (self.new ≡ self.old) }
    {
        take(&mut self.chunks, self.alloc, id.get())
    }
}

// The clause at a number's place in the chunks.
#[inline(always)]
fn near_clause(chunks: &[Chunk], number: u64) -> Option<&[Lit]>
    ensures { option_copied result ≡ near_at chunks.now number }
{
    match chunks.get((number / 128) as usize) {
        None => None,
        Some(chunk) => chunk.clause((number % 128) as usize),
    }
}

// Makes chunks up to a number, and the places of its own, of a slot that is freed.
#[inline(always)]
fn reach(
    chunks: &mut Vec<Chunk>,
    alloc: Global,
    number: u64,
    slot: &Slot,
) -> Result<(), OutOfMemory>
    ensures same { (n : ℕ) → near_at chunks.new.items n ≡ near_at chunks.old.items n }
    ensures index { OnOk result (number / 128 < length chunks.new.items) }
    ensures place { OnOk result (128 ≤ length (slice_index_or chunks.new.items (number / 128) [])) }
{
    let index = (number / 128) as usize;
    while chunks.len() <= index {
        chunks.push(Chunk::new(alloc))?;
    }
    reserve(chunks, alloc, index, slot)
}

// Makes the places of a chunk.
#[inline(always)]
fn reserve(
    chunks: &mut Vec<Chunk>,
    alloc: Global,
    index: usize,
    slot: &Slot,
) -> Result<(), OutOfMemory>
    requires { index < length chunks.old.items }
    ensures same { (n : ℕ) → near_at chunks.new.items n ≡ near_at chunks.old.items n }
    ensures len { length chunks.new.items ≡ length chunks.old.items }
    ensures ok { OnOk result (128 ≤ length (slice_index_or chunks.new.items index [])) }
{
    let chunk = &mut chunks[index];
    chunk.reserve(alloc, slot)
}

// Puts a clause into the place of a number.
#[inline(always)]
fn put(chunks: &mut Vec<Chunk>, number: u64, slot: Slot)
    requires index { number / 128 < length chunks.old.items }
    requires place { 128 ≤ length (slice_index_or chunks.old.items (number / 128) []) }
    ensures { (n : ℕ) → near_at chunks.new.items n ≡ (if n == number then clause_in slot else near_at chunks.old.items n) }
{
    let chunk = &mut chunks[(number / 128) as usize];
    chunk.put((number % 128) as usize, slot);
}

// Takes the clause out of a number's place, where there is one, and answers a slot with it.
#[inline(always)]
fn take(chunks: &mut Vec<Chunk>, alloc: Global, number: u64) -> Option<Slot>
    ensures taken { is_some result ≡ is_some (near_at chunks.old.items number) }
    ensures clause { IfSome result (λ slot. clause_in slot ≡ near_at chunks.old.items number) }
    ensures places { (n : ℕ) → near_at chunks.new.items n ≡ (if n == number then None else near_at chunks.old.items n) }
{
    let index = number / 128;
    if index < chunks.len() as u64 {
        take_place(chunks, alloc, index as usize, (number % 128) as usize)
    } else {
        None
    }
}

#[inline(always)]
fn take_place(chunks: &mut Vec<Chunk>, alloc: Global, index: usize, place: usize) -> Option<Slot>
    requires index { index < length chunks.old.items }
    requires place { place < 128 }
    ensures taken { is_some result ≡ is_some (near_at chunks.old.items (128 * index + place)) }
    ensures clause { IfSome result (λ slot. clause_in slot ≡ near_at chunks.old.items (128 * index + place)) }
    ensures places { (n : ℕ) → near_at chunks.new.items n ≡ (if n == 128 * index + place then None else near_at chunks.old.items n) }
{
    let chunk = &mut chunks[index];
    chunk.take(alloc, place)
}

// Whether the candidates of the numbers below a bound, in the chunks, are blocked or have groups.
fn near_settled(chunks: &[Chunk], bound: u64, chain: &Chain, pivot: Lit, groups: &[Group]) -> bool
    requires { before_of chain.now ≡ None }
    ensures settled { IsTrue result → (n : ℕ) → n < bound → settles_at (set_of chain.now) pivot groups.now n (near_at chunks.now n) ≡ true }
    ensures open { result ≡ false → (n : ℕ) × (settles_at (set_of chain.now) pivot groups.now n (near_at chunks.now n) ≡ false) }
{
    for number in 0..bound {
        if !settles_place(chain, pivot, groups, number, near_clause(chunks, number)) {
            return false;
        }
    }
    true
}

// Whether those in the map are.
fn far_settled(far: &HashMap<u64, Clause>, chain: &Chain, pivot: Lit, groups: &[Group]) -> bool
    requires { before_of chain.now ≡ None }
    ensures settled { IsTrue result → (n : ℕ) → settles_at (set_of chain.now) pivot groups.now n (get nat_eq far.now n) ≡ true }
    ensures open { result ≡ false → (n : ℕ) × (settles_at (set_of chain.now) pivot groups.now n (get nat_eq far.now n) ≡ false) }
{
    for (number, clause) in far {
        if !settles_clause(chain, pivot, groups, *number, clause.literals()) {
            return false;
        }
    }
    true
}

// Enters the clauses of the numbers below a bound, in the chunks.
fn enter_near(
    holders: &mut Holders,
    alloc: Global,
    chunks: &[Chunk],
    bound: u64,
) -> Result<(), OutOfMemory>
    ensures kept { KeepsAll holders.old holders.new }
    ensures entered { OnOk result ((n : ℕ) → n < bound → passes_at (is_entered holders.new) n (near_at chunks.now n) ≡ true) }
{
    for number in 0..bound {
        enter_place(holders, alloc, number, near_clause(chunks, number))?;
    }
    Ok(())
}

// Enters what stands at a place.
fn enter_place(
    holders: &mut Holders,
    alloc: Global,
    number: u64,
    clause: Option<&[Lit]>,
) -> Result<(), OutOfMemory>
    ensures kept { KeepsAll holders.old holders.new }
    ensures entered { OnOk result (passes_at (is_entered holders.new) number (option_copied clause.entry) ≡ true) }
{
    match clause {
        None => Ok(()),
        Some(clause) => holders.enter(alloc, number, clause),
    }
}

// Enters the clauses in the map.
fn enter_far(
    holders: &mut Holders,
    alloc: Global,
    far: &HashMap<u64, Clause>,
) -> Result<(), OutOfMemory>
    ensures kept { KeepsAll holders.old holders.new }
    ensures entered { OnOk result ((n : ℕ) → passes_at (is_entered holders.new) n (get nat_eq far.now n) ≡ true) }
{
    for (number, clause) in far {
        holders.enter(alloc, *number, clause.literals())?;
    }
    Ok(())
}
