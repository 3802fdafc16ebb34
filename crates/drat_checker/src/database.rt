// The clauses that stand, with lists of their numbers: by the literals that they hold, by a hash of the clause, and of the short ones,
// which propagation begins with.
ghost use Rattle.std.specs.Prelude.{◌≡◌, ◌<◌, ℕ, ◌∷◌, [], ◌++◌, ℤ, List, length, map, OnOk, OnErr, IsTrue, IfOk, IfSome, None, Some, set};
ghost use Rattle.std.specs.Option.{option_copied};
ghost use Rattle.lrat_rules.specs.ByLiteral.{place_of};
ghost use Rattle.lrat_rules.specs.Chain.{literals_of};
ghost use Rattle.drat_rules.specs.Clauses.{equality_of};
ghost use Rattle.drat_checker.specs.Places.{IsFirst, IsNone, place_at};
ghost use Rattle.drat_checker.specs.Numbers.{IsRising, KeepsLists, KeepsNumbers, KeepsRising, KeepsStanding, KeepsStandingLists, has_number};
ghost use Rattle.drat_checker.specs.Database.{IsHeld, greatest, hash_of, is_short, joined};

use crate::number_lists::NumberLists;
use crate::numbers::Numbers;
use crate::store::Store;
use crate::twins::least_of;
use cnf_base::{Cnf, Lit, OutOfMemory};
use drat_rules::Deletions;
use lrat_rules::{Effect, effect_on};
use std::alloc::Global;
use std::marker::Model;

/// The clauses that stand.
#[derive(Drop)]
pub struct Database {
    alloc: Global,
    store: Store,
    by_literal: NumberLists,
    by_hash: NumberLists,
    short: Numbers,
}

impl Model for Database {
    ghost use Rattle.drat_checker.specs.Places.{Places, places_code};

    ghost Value = { Places };

    ghost coded = { places_code };

    ghost use Rattle.drat_checker.specs.Database.{IsIndexed};

    ghost view = { λ db. db.store };

    ghost invariant = { λ db. IsIndexed db.by_literal db.by_hash db.short db.store };
}

impl Database {
    /// No clause.
    pub fn new(alloc: Global) -> Database
        ensures { result ≡ [] }
    {
        Database {
            alloc,
            store: Store::new(alloc),
            by_literal: NumberLists::new(alloc),
            by_hash: NumberLists::new(alloc),
            short: Numbers::new(alloc),
        }
    }

    /// The formula's clauses.
    pub fn open(alloc: Global, formula: &Cnf) -> Result<Database, OutOfMemory>
        ensures { IfOk result (λ db. db ≡ map Some formula.now.clauses) }
    {
        let mut db = Database::new(alloc);
        for i in 0..formula.len() {
            db.push(formula.clause(i + 1))?;
        }
        Ok(db)
    }

    /// The clause of a number, where it stands.
    #[inline(always)]
    pub fn clause(&self, number: u32) -> Option<&[Lit]>
        ensures { option_copied result ≡ place_at self.now number }
    {
        self.store.clause(number)
    }

    /// How many numbers were given.
    pub fn count(&self) -> Result<u32, OutOfMemory>
        ensures { IfOk result (λ count. count ≡ length self.now) }
    {
        self.store.next()
    }

    /// Numbers that rise, among them those of all clauses that hold a literal.
    pub fn numbers(&self, literal: Lit) -> &[u32]
        ensures all { (number : ℕ) (clause : List ℤ) → place_at self.now number ≡ Some clause → IsTrue (literals_of clause literal)
            → IsTrue (has_number number result.now) }
        ensures rising { IsRising result.now }
    {
        self.by_literal.numbers(key_of(literal))
    }

    /// Numbers, among them those of all short clauses.
    pub fn short(&self) -> &[u32]
        ensures { (number : ℕ) (clause : List ℤ) → place_at self.now number ≡ Some clause → IsTrue (is_short clause)
            → IsTrue (has_number number result.now) }
    {
        self.short.as_slice()
    }

    /// Puts a clause behind the others. The answer is its number. A refusal changes nothing.
    pub fn push(&mut self, clause: &[Lit]) -> Result<u32, OutOfMemory>
        ensures number { IfOk result (λ number. number ≡ length self.old) }
        ensures ok { OnOk result (self.new ≡ self.old ++ Some clause.now ∷ []) }
        ensures err { OnErr result (self.new ≡ self.old) }
    {
        let number = self.store.next()?;
        enter_literals(&mut self.by_literal, self.alloc, number, clause)?;
        self.by_hash.enter(self.alloc, hash_of(clause), number)?;
        enter_short(&mut self.short, number, clause)?;
        self.store.push(clause)?;
        Ok(number)
    }

    /// The number of the first clause that is told to be this one, where there is one.
    pub fn find(&self, deletions: Deletions, clause: &[Lit]) -> Option<u32>
        ensures found { IfSome result (λ number. IsFirst (equality_of deletions) clause.now self.now number) }
        ensures none { result ≡ None → IsNone (equality_of deletions) clause.now self.now }
    {
        let numbers = self.by_hash.numbers(hash_of(clause));
        least_of(&self.store, numbers, clause, deletions)
    }

    /// Takes out the clause of a number.
    pub fn clear(&mut self, number: u32)
        requires { number < length self.old }
        ensures { self.new ≡ set self.old number None }
    {
        match self.store.take(number) {
            None => {}
            Some(clause) => self.leave(clause.literals()),
        }
    }

    // A clause of these literals stands no more: the lists keep the numbers of those that stand.
    fn leave(&mut self, clause: &[Lit])
        ensures { self.new ≡ self.old }
    {
        self.by_hash.leave(&self.store, hash_of(clause));
        leave_literals(&mut self.by_literal, &self.store, clause);
        leave_short(&mut self.short, &self.store, clause);
    }
}

// The key of a literal's list.
#[inline(always)]
pub fn key_of(literal: Lit) -> u64
    ensures key { result ≡ place_of literal }
    ensures small { result < 4294967296 }
{
    2 * u64::from(literal.var()) + u64::from(literal.is_negative())
}

fn hash_of(clause: &[Lit]) -> u64
    ensures { result ≡ hash_of clause.now }
{
    let hash = greatest(clause, 0);
    let hash = joined(hash, greatest(clause, 1_073_741_823));
    let hash = joined(hash, greatest(clause, 2_147_483_647));
    joined(hash, greatest(clause, 3_221_225_471))
}

fn joined(hash: u64, more: u64) -> u64
    requires hash { hash < 4294967291 }
    requires more { more < 4294967291 }
    ensures value { result ≡ joined hash more }
    ensures small { result < 4294967291 }
{
    (hash * 1_000_003 + more) % 4_294_967_291
}

// The greatest of a clause's mixed places.
fn greatest(clause: &[Lit], shift: u64) -> u64
    requires { shift < 4294967291 }
    ensures value { result ≡ greatest shift clause.now }
    ensures small { result < 4294967291 }
{
    let mut most = 0;
    for literal in clause {
        let mixed = (key_of(*literal) * 2_654_435_761 + shift) % 4_294_967_291;
        most = mixed.max(most);
    }
    most
}

// The number enters the list of each literal of its clause. No list loses a number.
fn enter_literals(
    by_literal: &mut NumberLists,
    alloc: Global,
    number: u32,
    clause: &[Lit],
) -> Result<(), OutOfMemory>
    ensures kept { KeepsLists by_literal.old by_literal.new }
    ensures held { OnOk result (IsHeld by_literal.new number clause.now) }
    ensures rising { KeepsRising number by_literal.old by_literal.new }
{
    for literal in clause {
        by_literal.enter(alloc, key_of(*literal), number)?;
    }
    Ok(())
}

fn leave_literals(by_literal: &mut NumberLists, store: &Store, clause: &[Lit])
    ensures kept { KeepsStandingLists store.now by_literal.old by_literal.new }
    ensures rising { (most : ℕ) → KeepsRising most by_literal.old by_literal.new }
{
    for literal in clause {
        by_literal.leave(store, key_of(*literal));
    }
}

/// Whether propagation finds something on the clause where no literal is false.
pub fn is_short(clause: &[Lit]) -> bool
    ensures { result ≡ is_short clause.now }
{
    match effect_on(&[], clause) {
        Effect::Conflict => true,
        Effect::Unit(_) => true,
        Effect::NotUnit => false,
    }
}

fn enter_short(short: &mut Numbers, number: u32, clause: &[Lit]) -> Result<(), OutOfMemory>
    ensures kept { KeepsNumbers short.old short.new }
    ensures entered { OnOk result (IsTrue (is_short clause.now) → IsTrue (has_number number short.new)) }
{
    if is_short(clause) {
        short.push(number)?;
    }
    Ok(())
}

fn leave_short(short: &mut Numbers, store: &Store, clause: &[Lit])
    ensures { KeepsStanding store.now short.old short.new }
{
    if is_short(clause) {
        short.leave(store);
    }
}
