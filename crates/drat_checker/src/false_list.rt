// The literals that are false while an addition is judged, in the order in which they became false, each once: the roots, those of the
// clause, those of a candidate, and the negations of what is forced, these with the number of the clause that forced them. None stands
// beside its negation. A flag tells of each literal whether it is one of them, and each has its place at hand.
ghost use Rattle.std.specs.Prelude.{◌≡◌, ◌<◌, ◌&&◌, ℕ, ℤ, pos, neg_ℤ, not, false, None, Some, OnErr, OnOk, IfOk, IfSome, length};
ghost use Rattle.std.specs.Prelude.{if◌then◌else◌, slice_index_or};
ghost use Rattle.std.specs.Ordering.{int_eq};
ghost use Rattle.lrat_rules.specs.ByLiteral.{entry};
ghost use Rattle.lrat_rules.specs.Chain.{literals_of, effect};
ghost use Rattle.lrat_rules.specs.Pass.{effect_of_forced, forced_with, agrees};
ghost use Rattle.drat_checker.specs.Flags.{is_set, has_flag};
ghost use Rattle.lrat_rules.specs.Trail.{with_last};
ghost use Rattle.drat_checker.specs.Trail.{AreOnce, IsApart, IsAt, cut, no_literals, with_other_reason, with_reason};

use crate::flags::Flags;
use cnf_base::{Lit, OutOfMemory};
use lrat_rules::{ByLiteral, Effect};
use std::alloc::Global;
use std::marker::Model;

/// Literals, each once, in the order in which they came, none beside its negation.
#[derive(Drop)]
pub struct FalseList {
    literals: Vec<Lit>,
    reasons: Vec<Option<u32>>,
    flags: Flags,
    at: ByLiteral<u32>,
}

impl Model for FalseList {
    ghost use Rattle.drat_checker.specs.Trail.{IsFalseList, Trail};

    ghost Value = { Trail };

    ghost view = { λ f. record { literals = f.literals.items; reasons = f.reasons.items } };

    ghost invariant = { λ f. IsFalseList f.flags f.at f.literals.items f.reasons.items };
}

impl FalseList {
    pub fn new(alloc: Global) -> FalseList
        ensures { result ≡ no_literals }
    {
        FalseList {
            literals: Vec::new(alloc),
            reasons: Vec::new(alloc),
            flags: Flags::new(alloc),
            at: ByLiteral::new(alloc),
        }
    }

    pub fn len(&self) -> usize
        ensures literals { result ≡ length self.now.literals }
        ensures reasons { result ≡ length self.now.reasons }
    {
        self.literals.len()
    }

    /// The literal at a place.
    #[inline(always)]
    pub fn literal(&self, place: usize) -> Lit
        requires { place < length self.now.literals }
        ensures { result ≡ slice_index_or self.now.literals place result }
    {
        self.literals[place]
    }

    #[inline(always)]
    pub fn contains(&self, literal: Lit) -> bool
        ensures { result ≡ literals_of self.now.literals literal }
    {
        self.flags.is_set(literal)
    }

    /// Why the literal at a place is false: by the clause of this number, or it is assumed.
    pub fn reason(&self, place: usize) -> Option<u32>
        requires { place < length self.now.literals }
        ensures { result ≡ slice_index_or self.now.reasons place None }
    {
        self.reasons[place]
    }

    /// The place of a literal, where it is false.
    pub fn place(&self, literal: Lit) -> Option<usize>
        ensures found { IfSome result (IsAt self.now.literals literal) }
        ensures none { result ≡ None → literals_of self.now.literals literal ≡ false }
    {
        if !self.flags.is_set(literal) {
            return None;
        }
        match self.at.get(literal) {
            None => None,
            Some(place) => Some(place as usize),
        }
    }

    /// The literal at a place is false by the clause of this number from now on.
    pub fn set_reason(&mut self, place: usize, number: u32)
        requires { place < length self.old.literals }
        ensures { self.new ≡ with_other_reason place number self.old }
    {
        self.reasons[place] = Some(number);
    }

    /// Makes a literal false, unless its negation is: then the answer is true, and nothing changes.
    #[inline(always)]
    pub fn falsify(&mut self, literal: Lit, reason: Option<u32>) -> Result<bool, OutOfMemory>
        ensures clash { IfOk result (λ clash. clash ≡ literals_of self.old.literals (neg_ℤ literal)) }
        ensures literals { IfOk result (λ clash. self.new.literals
            ≡ (if clash then self.old.literals else with_last literal self.old.literals)) }
        ensures reasons { IfOk result (λ clash. self.new ≡ (if clash then self.old else with_reason literal reason self.old)) }
        ensures err { OnErr result (self.new ≡ self.old) }
    {
        let _var = literal.var();
        if self.flags.is_set(literal.negated()) {
            return Ok(true);
        }
        if self.flags.is_set(literal) {
            return Ok(false);
        }
        let place = place_behind(self.literals.as_slice())?;
        self.flags.reserve(literal)?;
        self.literals.reserve(1)?;
        self.reasons.reserve(1)?;
        put(&mut self.at, literal, place)?;
        self.literals.push_reserved(literal);
        self.reasons.push_reserved(reason);
        self.flags.set(literal);
        Ok(false)
    }

    /// Takes back the literals behind the first ones.
    pub fn truncate(&mut self, count: usize)
        ensures { self.new ≡ cut count self.old }
    {
        if count < self.literals.len() {
            clear_all(&mut self.flags, &self.literals.as_slice()[count..]);
            self.literals.truncate(count);
            self.reasons.truncate(count);
        }
    }

    /// What a clause does under these false literals.
    #[inline(always)]
    pub fn effect_of(&self, clause: &[Lit]) -> Effect
        ensures { result ≡ effect (literals_of self.now.literals) clause.now }
    {
        let mut forced = None;
        for literal in clause {
            if self.contains(*literal) {
                continue;
            }
            if !force(&mut forced, *literal) {
                return Effect::NotUnit;
            }
        }
        effect_of_forced(forced)
    }

    /// For the prover alone: each stands once.
    pub fn once_law(&self)
        ensures { AreOnce self.now.literals }
    {
        let _len = self.literals.len();
    }

    /// For the prover alone: none stands beside its negation.
    pub fn apart_law(&self)
        ensures { IsApart self.now.literals }
    {
        let _len = self.literals.len();
    }
}

// The place behind these literals, while there are places.
#[inline(always)]
fn place_behind(literals: &[Lit]) -> Result<u32, OutOfMemory>
    ensures { IfOk result (λ place. place ≡ length literals.now) }
{
    let len = literals.len();
    if len > u32::MAX as usize {
        return Err(OutOfMemory);
    }
    Ok(len as u32)
}

// The literal has this place from now on.
#[inline(always)]
fn put(at: &mut ByLiteral<u32>, literal: Lit, place: u32) -> Result<(), OutOfMemory>
    ensures others { (x : ℤ) (k : ℕ) → int_eq x literal ≡ false → entry at.old x ≡ Some k → entry at.new x ≡ Some k }
    ensures own { OnOk result (entry at.new literal ≡ Some place) }
{
    at.reserve(literal, 0)?;
    if let Some(last) = at.get_mut(literal) {
        *last = place;
    }
    Ok(())
}

/// Clears the flags of literals.
#[inline(always)]
pub fn clear_all(flags: &mut Flags, literals: &[Lit])
    ensures cleared { (x : ℤ) → is_set flags.new x ≡ (not (literals_of literals.now x) && is_set flags.old x) }
    ensures flags { (x : ℤ) → has_flag flags.new x ≡ has_flag flags.old x }
{
    for literal in literals {
        flags.clear(*literal);
    }
}

// Forces a literal that isn't false. The answer is whether no other one was forced before.
#[inline(always)]
fn force(forced: &mut Option<Lit>, literal: Lit) -> bool
    ensures forced { forced.new ≡ forced_with forced.old literal }
    ensures alone { result ≡ agrees forced.old literal }
{
    match *forced {
        None => {
            *forced = Some(literal);
            true
        }
        Some(first) => first == literal,
    }
}

#[inline(always)]
fn effect_of_forced(forced: Option<Lit>) -> Effect
    ensures { result ≡ effect_of_forced forced }
{
    match forced {
        None => Effect::Conflict,
        Some(literal) => Effect::Unit(literal),
    }
}
