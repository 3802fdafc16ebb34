// The chain of hints of one addition: reverse unit propagation under the literals that the addition makes false, and under those of a
// candidate while its group is open. (Cruz-Filipe, Heule, Hunt, Kaufmann, Schneider-Kamp: Efficient Certified RAT Verification, CADE
// 2017.) A literal is false where it has the addition's stamp or the open group's. The next addition and the next group take a new
// stamp, so no literal has to be taken back.
ghost use Rattle.std.specs.Prelude.{◌≡◌, ◌<◌, ◌≤◌, ◌&&◌, ◌||◌, not, ℤ, neg_ℤ, IsFalse, IsTrue, false, None, Some, OnOk, OnErr, IfOk, length};
ghost use Rattle.std.specs.List.{list_any};
ghost use Rattle.std.specs.Ordering.{int_eq};
ghost use Rattle.lrat_rules.specs.Chain.{literals_of, effect, is_unit};
ghost use Rattle.lrat_rules.specs.Addition.{is_blocked_by, has_other, with_candidate};
ghost use Rattle.lrat_rules.specs.Pass.{with_others};
ghost use Rattle.lrat_rules.specs.Stamps.{has_place, stamp_of};

use crate::effect::{effect_of_forced, force};
use crate::outcome::Effect;
use crate::stamps::Stamps;
use cnf_base::{Lit, OutOfMemory};
use std::alloc::Global;

// The greatest stamp that literals get. The one above is of a group without literals.
const LAST: u32 = u32::MAX - 1;

const OF_NONE: u32 = u32::MAX;

/// The literals that are false in an addition's chain of hints.
#[derive(Drop)]
pub struct Chain {
    alloc: Global,
    stamps: Stamps,
    // the addition's stamp, the open group's, or the addition's again, and the greatest one that was given
    own: u32,
    group: u32,
    last: u32,
    ghost given: { (x : ℤ) → stamp_of stamps x ≤ last },
    ghost own_given: { own ≤ last },
    ghost group_given: { last < group → group ≡ 4294967295 },
    ghost few: { last < 4294967295 },
}

impl Chain {
    ghost use Rattle.lrat_rules.specs.FalseLiterals.{set_of, before_of, is_open, set_after, SameSets};

    /// No literal is false, and no group is open.
    pub fn new(alloc: Global) -> Chain
        ensures none { (x : ℤ) → set_of result x ≡ false }
        ensures no_group { before_of result ≡ None }
    {
        Chain {
            alloc,
            stamps: Stamps::new(alloc),
            own: 1,
            group: 1,
            last: 1,
        }
    }

    /// The literals of an addition's clause are false, and no group is open.
    pub fn start(alloc: Global, clause: &[Lit]) -> Result<Chain, OutOfMemory>
        ensures set { IfOk result (λ chain. set_of chain ≡ literals_of clause.now) }
        ensures no_group { IfOk result (λ chain. before_of chain ≡ None) }
        // The empty clause wants no memory.
        ensures memory { OnErr result (0 < length clause.now) }
    {
        let mut chain = Chain::new(alloc);
        chain.reserve_all(clause)?;
        chain.mark_all(clause);
        Ok(chain)
    }

    /// The same for the next addition, also while a group is open. A refusal leaves everything as it was.
    #[inline(always)]
    pub fn restart(&mut self, clause: &[Lit]) -> Result<(), OutOfMemory>
        ensures set { OnOk result (set_of self.new ≡ literals_of clause.now) }
        ensures no_group { OnOk result (before_of self.new ≡ None) }
        ensures err { OnErr result (SameSets self.old self.new) }
        // The empty clause wants no memory.
        ensures memory { OnErr result (0 < length clause.now) }
    {
        if self.last == LAST {
            return self.begin_anew(clause);
        }
        self.reserve_all(clause)?;
        self.clear();
        self.mark_all(clause);
        Ok(())
    }

    /// Takes a hint's clause. The forced literal's negation becomes false.
    #[inline(always)]
    pub fn hint(&mut self, clause: &[Lit]) -> Result<Effect, OutOfMemory>
        ensures effect { IfOk result (λ answer. answer ≡ effect (set_of self.old) clause.now) }
        ensures set { IfOk result (λ answer. set_of self.new ≡ set_after (set_of self.old) answer) }
        ensures same_group { OnOk result (before_of self.new ≡ before_of self.old) }
        ensures err { OnErr result (SameSets self.old self.new) }
        // A conflict and a bad hint want no memory.
        ensures memory { OnErr result (IsTrue (is_unit (effect (set_of self.old) clause.now))) }
    {
        let effect = self.effect(clause);
        if let Effect::Unit(literal) = effect {
            self.add(literal.negated())?;
        }
        Ok(effect)
    }

    /// Whether a literal of a candidate other than the pivot's negation has its negation among the false ones.
    pub fn is_blocked(&self, clause: &[Lit], pivot: Lit) -> bool
        ensures { result ≡ is_blocked_by (set_of self.now) pivot clause.now }
    {
        let negated = pivot.negated();
        clause.iter().any(|x| self.blocks(negated, *x))
    }

    /// Opens the group of a candidate: its literals other than the pivot's negation become false.
    pub fn open_group(&mut self, clause: &[Lit], pivot: Lit) -> Result<(), OutOfMemory>
        requires { before_of self.old ≡ None }
        ensures set { OnOk result (set_of self.new ≡ with_candidate (set_of self.old) pivot clause.now) }
        ensures group { OnOk result (before_of self.new ≡ Some (set_of self.old)) }
        ensures err { OnErr result (SameSets self.old self.new) }
        // A candidate that has only the pivot's negation wants no memory.
        ensures memory { OnErr result (IsTrue (has_other pivot clause.now)) }
    {
        if self.last == LAST {
            return self.open_empty(clause, pivot);
        }
        let negated = pivot.negated();
        self.reserve_others(clause, negated)?;
        self.open();
        self.mark_others(clause, negated);
        Ok(())
    }

    /// Closes the group: what was added since it was opened is no longer false.
    pub fn close_group(&mut self)
        requires { IsTrue (is_open self.old) }
        ensures set { before_of self.old ≡ Some (set_of self.new) }
        ensures no_group { before_of self.new ≡ None }
    {
        self.group = self.own;
    }

    // The next addition behind the last stamp.
    #[cold]
    #[inline(never)]
    fn begin_anew(&mut self, clause: &[Lit]) -> Result<(), OutOfMemory>
        ensures set { OnOk result (set_of self.new ≡ literals_of clause.now) }
        ensures no_group { OnOk result (before_of self.new ≡ None) }
        ensures err { OnErr result (SameSets self.old self.new) }
        ensures memory { OnErr result (0 < length clause.now) }
    {
        *self = Chain::start(self.alloc, clause)?;
        Ok(())
    }

    // No literal is false any more.
    #[inline(always)]
    fn clear(&mut self)
        requires { self.old.last < 4294967294 }
        ensures none { (x : ℤ) → set_of self.new x ≡ false }
        ensures no_group { before_of self.new ≡ None }
        ensures stamps { self.new.stamps ≡ self.old.stamps }
    {
        self.last += 1;
        self.own = self.last;
        self.group = self.last;
    }

    // Opens a group that makes no literal false yet.
    fn open(&mut self)
        requires none { before_of self.old ≡ None }
        requires room { self.old.last < 4294967294 }
        ensures set { (x : ℤ) → set_of self.new x ≡ set_of self.old x }
        ensures group { before_of self.new ≡ Some (set_of self.old) }
        ensures given { self.new.group ≤ self.new.last }
        ensures stamps { self.new.stamps ≡ self.old.stamps }
    {
        self.last += 1;
        self.group = self.last;
    }

    // Opens the group of a candidate behind the last stamp: that of one without other literals, in which no hint forces anything.
    #[cold]
    #[inline(never)]
    fn open_empty(&mut self, clause: &[Lit], pivot: Lit) -> Result<(), OutOfMemory>
        requires { before_of self.old ≡ None }
        ensures set { OnOk result (set_of self.new ≡ with_candidate (set_of self.old) pivot clause.now) }
        ensures group { OnOk result (before_of self.new ≡ Some (set_of self.old)) }
        ensures err { OnErr result (SameSets self.old self.new) }
        ensures memory { OnErr result (IsTrue (has_other pivot clause.now)) }
    {
        if has_other(clause, pivot.negated()) {
            return Err(OutOfMemory);
        }
        self.group = OF_NONE;
        Ok(())
    }

    // Reserves the place of a literal's stamp.
    #[inline(always)]
    fn reserve(&mut self, literal: Lit) -> Result<(), OutOfMemory>
        ensures same { SameSets self.old self.new }
        ensures group { self.new.group ≡ self.old.group }
        ensures last { self.new.last ≡ self.old.last }
        ensures ok { OnOk result (IsTrue (has_place self.new.stamps literal)) }
    {
        self.stamps.reserve(literal)
    }

    // The same of a clause's literals.
    #[inline(always)]
    fn reserve_all(&mut self, clause: &[Lit]) -> Result<(), OutOfMemory>
        ensures same { SameSets self.old self.new }
        ensures last { self.new.last ≡ self.old.last }
        ensures ok { OnOk result ((x : ℤ) → IsTrue (literals_of clause.now x) → IsTrue (has_place self.new.stamps x)) }
        ensures memory { OnErr result (0 < length clause.now) }
    {
        self.stamps.reserve_all(clause)
    }

    // The same of its literals other than one.
    fn reserve_others(&mut self, clause: &[Lit], other_than: Lit) -> Result<(), OutOfMemory>
        ensures same { SameSets self.old self.new }
        ensures last { self.new.last ≡ self.old.last }
        ensures ok { OnOk result ((x : ℤ) → IsTrue (literals_of clause.now x) → IsFalse (int_eq x other_than)
            → IsTrue (has_place self.new.stamps x)) }
        ensures memory { OnErr result (IsTrue (list_any (λ x. not (int_eq x other_than)) clause.now)) }
    {
        self.stamps.reserve_others(clause, other_than)
    }

    // One literal more is false, in the group that is open, if one is.
    #[inline(always)]
    fn add(&mut self, literal: Lit) -> Result<(), OutOfMemory>
        ensures ok { OnOk result ((x : ℤ) → set_of self.new x ≡ (int_eq x literal || set_of self.old x)) }
        ensures same_group { OnOk result (before_of self.new ≡ before_of self.old) }
        ensures err { OnErr result (SameSets self.old self.new) }
    {
        if self.group == OF_NONE {
            return Err(OutOfMemory);
        }
        self.reserve(literal)?;
        self.mark(literal);
        Ok(())
    }

    // The same of a literal whose stamp has a place.
    #[inline(always)]
    fn mark(&mut self, literal: Lit)
        requires place { IsTrue (has_place self.old.stamps literal) }
        requires given { self.old.group ≤ self.old.last }
        ensures set { (x : ℤ) → set_of self.new x ≡ (int_eq x literal || set_of self.old x) }
        ensures same_group { before_of self.new ≡ before_of self.old }
        ensures places { (x : ℤ) → has_place self.new.stamps x ≡ has_place self.old.stamps x }
        ensures given { self.new.group ≤ self.new.last }
    {
        self.stamps.put(literal, self.own, self.group);
    }

    // The literals of a clause become false, where none is.
    #[inline(always)]
    fn mark_all(&mut self, clause: &[Lit])
        requires places { (x : ℤ) → IsTrue (literals_of clause.now x) → IsTrue (has_place self.old.stamps x) }
        requires none { (x : ℤ) → set_of self.old x ≡ false }
        requires no_group { before_of self.old ≡ None }
        ensures set { set_of self.new ≡ literals_of clause.now }
        ensures no_group { before_of self.new ≡ None }
    {
        for literal in clause {
            self.mark(*literal);
        }
    }

    // The literals of a clause other than one become false.
    fn mark_others(&mut self, clause: &[Lit], other_than: Lit)
        requires places { (x : ℤ) → IsTrue (literals_of clause.now x) → IsFalse (int_eq x other_than) → IsTrue (has_place self.old.stamps x) }
        requires given { self.old.group ≤ self.old.last }
        ensures set { (x : ℤ) → set_of self.new x ≡ with_others (set_of self.old) other_than clause.now x }
        ensures same_group { before_of self.new ≡ before_of self.old }
    {
        for literal in clause {
            if *literal == other_than {
                continue;
            }
            self.mark(*literal);
        }
    }

    #[inline(always)]
    fn contains(&self, literal: Lit) -> bool
        ensures { result ≡ set_of self.now literal }
    {
        let stamp = self.stamps.of(literal);
        stamp == self.own || stamp == self.group
    }

    // A candidate's literal that isn't the pivot's negation, and has its own negation among the false ones.
    #[inline(always)]
    fn blocks(&self, negated_pivot: Lit, literal: Lit) -> bool
        ensures { result ≡ (not (int_eq literal negated_pivot) && set_of self.now (neg_ℤ literal)) }
    {
        literal != negated_pivot && self.contains(literal.negated())
    }

    // What a hint's clause does, in one pass: the first literal that isn't false is forced, unless another one follows.
    #[inline(always)]
    fn effect(&self, clause: &[Lit]) -> Effect
        ensures { result ≡ effect (set_of self.now) clause.now }
    {
        let mut forced = None;
        for literal in clause {
            if self.contains(*literal) {
                continue;
            }
            if !force(&mut forced, *literal) {
                return Effect::NotUnit;
            }
        }
        effect_of_forced(forced)
    }
}

fn has_other(clause: &[Lit], other_than: Lit) -> bool
    ensures { result ≡ list_any (λ x. not (int_eq x other_than)) clause.now }
{
    clause.iter().any(|x| *x != other_than)
}
