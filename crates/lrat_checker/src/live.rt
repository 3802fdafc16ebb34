// The live clauses by their numbers, with how often each literal stands in them. An addition whose groups name as many candidates
// as the pivot's negation stands in clauses has named them all. Once that doesn't suffice, lists are made that tell in which
// clauses a literal stands, and kept from then on; so proofs that name their candidates pay for no list.
ghost use Rattle.std.specs.Prelude.{◌≡◌, ◌-◌, ℤ, true, None, OnOk, OnErr, IsTrue, if◌then◌else◌};
ghost use Rattle.std.specs.List.{list_all};
ghost use Rattle.std.specs.Option.{option_copied};
ghost use Rattle.std.specs.FinMap as map;
ghost use Rattle.lrat_rules.specs.State.{clause_at, with_clause, without_clauses};
ghost use Rattle.lrat_rules.specs.Chain.{FalseSet};
ghost use Rattle.lrat_rules.specs.Addition.{is_settled};
ghost use Rattle.lrat_rules.specs.FalseLiterals.{set_of, before_of};
ghost use Rattle.lrat_checker.specs.Counts.{count_of, times_at};
ghost use Rattle.lrat_checker.specs.Holders.{KeepsAll, KeepsAllLive, is_entered};
ghost use Rattle.lrat_checker.specs.Walk.{name_candidates};

use crate::candidates::{each_settled, named_numbers};
use crate::clauses::Clauses;
use crate::counts::Counts;
use crate::holders::Holders;
use cnf_base::{Group, Id, Lit, OutOfMemory};
use lrat_rules::Chain;
use std::alloc::Global;
use std::marker::Model;

/// The live clauses.
#[derive(Drop)]
pub struct IndexedClauses {
    alloc: Global,
    clauses: Clauses,
    counts: Counts,
    holders: Holders,
    indexed: bool,
}

impl Model for IndexedClauses {
    ghost use Rattle.std.specs.Prelude.{ℤ, List};
    ghost use Rattle.std.specs.Ordering.{nat_cmp};
    ghost use Rattle.std.specs.Coded.{coded_ℕ, coded_ℤ, coded_list};
    ghost use Rattle.std.specs.FinMap as map;
    ghost use Rattle.lrat_checker.specs.Holders.{AreFound};

    ghost Value = { map.FinMap nat_cmp (List ℤ) };

    ghost coded = { map.code coded_ℕ (coded_list coded_ℤ) };

    ghost view = { λ live. live.clauses };

    ghost invariant = { λ live. AreFound live.counts live.holders live.indexed live.clauses };
}

impl IndexedClauses {
    /// No clause.
    pub fn new(alloc: Global) -> Self
        ensures { result ≡ map.empty }
    {
        IndexedClauses {
            alloc,
            clauses: Clauses::new(alloc),
            counts: Counts::new(alloc),
            holders: Holders::new(alloc),
            indexed: false,
        }
    }

    /// The clause of this number, where it is live.
    #[inline(always)]
    pub fn clause(&self, id: Id) -> Option<&[Lit]>
        ensures { option_copied result ≡ clause_at self.now id }
    {
        self.clauses.get(id)
    }

    /// Makes a clause live under a number. A refusal changes nothing.
    pub fn insert(&mut self, id: Id, literals: &[Lit]) -> Result<(), OutOfMemory>
        ensures ok { OnOk result (self.new ≡ with_clause self.old id literals.now) }
        ensures err { OnErr result (self.new ≡ self.old) }
    {
        self.counts.enter(literals)?;
        enter(&mut self.holders, self.indexed, self.alloc, id, literals)?;
        self.clauses.insert(id, literals)?;
        Ok(())
    }

    /// Takes out the clauses of these numbers, and passes over those that aren't live.
    pub fn remove_all(&mut self, ids: &[Id])
        ensures { self.new ≡ without_clauses self.old ids.now }
    {
        for id in ids {
            self.remove(*id);
        }
    }

    /// Takes out the clause of this number, and passes over a number that isn't live.
    pub fn remove(&mut self, id: Id)
        ensures { self.new ≡ map.remove self.old id }
    {
        if !self.remove_near(id) {
            self.remove_anywhere(id);
        }
    }

    // Where there are no lists, takes out a clause that stands in a chunk, looked up but once, and tells whether it did.
    #[inline(always)]
    fn remove_near(&mut self, id: Id) -> bool
        ensures { self.new ≡ (if result then map.remove self.old id else self.old) }
    {
        if self.indexed {
            return false;
        }
        match self.clauses.take_near(id) {
            None => false,
            Some(slot) => {
                lower(&mut self.counts, slot.clause());
                true
            }
        }
    }

    // The same wherever the clause stands, and with lists, if there are any.
    #[inline(never)]
    fn remove_anywhere(&mut self, id: Id)
        ensures { self.new ≡ map.remove self.old id }
    {
        lower(&mut self.counts, self.clauses.get(id));
        leave(&mut self.holders, self.indexed, &self.clauses, id);
        self.clauses.remove(id);
    }

    /// Whether each candidate of the pivot is blocked or has a group.
    pub fn all_settled(&mut self, chain: &Chain, pivot: Lit, groups: &[Group]) -> bool
        requires no_group { before_of chain.now ≡ None }
        requires named { name_candidates self.old pivot groups.now ≡ true }
        ensures settled { result ≡ list_all (is_settled self.old (set_of chain.now) pivot groups.now) (map.keys self.old) }
        ensures same { self.new ≡ self.old }
    {
        if self.all_named(pivot, groups) {
            return true;
        }
        self.index();
        self.walk(chain, pivot, groups)
    }

    // Whether the groups, each of a candidate, name as many as the pivot's negation stands in clauses.
    fn all_named(&self, pivot: Lit, groups: &[Group]) -> bool
        requires { name_candidates self.now pivot groups.now ≡ true }
        ensures { IsTrue result → (n : FalseSet) → true ≡ list_all (is_settled self.now n pivot groups.now) (map.keys self.now) }
    {
        self.counts.of(pivot.negated()) as usize <= named_numbers(groups)
    }

    // Makes the lists, unless they are there or memory is wanted.
    fn index(&mut self)
        ensures { self.new ≡ self.old }
    {
        if !self.indexed {
            let mut holders = Holders::new(self.alloc);
            if self.clauses.enter_all(&mut holders).is_ok() {
                self.holders = holders;
                self.indexed = true;
            }
        }
    }

    // The walk over the clauses that hold the pivot's negation, or without lists over all.
    fn walk(&self, chain: &Chain, pivot: Lit, groups: &[Group]) -> bool
        requires { before_of chain.now ≡ None }
        ensures { result ≡ list_all (is_settled self.now (set_of chain.now) pivot groups.now) (map.keys self.now) }
    {
        if self.indexed {
            let numbers = self.holders.numbers(pivot.negated());
            each_settled(&self.clauses, chain, pivot, groups, numbers)
        } else {
            self.clauses.all_settled(chain, pivot, groups)
        }
    }
}

// The number is entered, where there are lists.
fn enter(
    holders: &mut Holders,
    indexed: bool,
    alloc: Global,
    id: Id,
    literals: &[Lit],
) -> Result<(), OutOfMemory>
    ensures kept { KeepsAll holders.old holders.new }
    ensures entered { OnOk result (IsTrue indexed → is_entered holders.new id literals.now ≡ true) }
{
    if indexed {
        holders.enter(alloc, id.get(), literals)?;
    }
    Ok(())
}

// The counts of a clause's literals fall.
#[inline(always)]
fn lower(counts: &mut Counts, clause: Option<&[Lit]>)
    ensures { (x : ℤ) → count_of counts.new x ≡ count_of counts.old x - times_at x (option_copied clause.entry) }
{
    if let Some(literals) = clause {
        counts.leave(literals);
    }
}

// This number's clause goes, so its lists lose it in time.
fn leave(holders: &mut Holders, indexed: bool, clauses: &Clauses, id: Id)
    ensures { KeepsAllLive (map.remove clauses.now id) holders.old holders.new }
{
    if indexed {
        if let Some(literals) = clauses.get(id) {
            holders.leave(clauses, id.get(), literals);
        }
    }
}
