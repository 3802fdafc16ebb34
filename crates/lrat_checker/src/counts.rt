// How often each literal stands in the live clauses. So it is seen at once that no candidates are left but those that groups name.
ghost use Rattle.std.specs.Prelude.{◌≡◌, ◌+◌, ◌-◌, ◌≤◌, ℤ, OnOk, if◌then◌else◌};
ghost use Rattle.std.specs.Ordering.{int_eq};
ghost use Rattle.lrat_checker.specs.Counts.{count_of, times_in};

use cnf_base::{Lit, OutOfMemory};
use lrat_rules::ByLiteral;
use std::alloc::Global;

/// A count for each literal.
#[derive(Drop)]
pub struct Counts(ByLiteral<u32>);

#[tactic(auto, unfolding(crate::specs::Counts::count_of))]
impl Counts {
    /// Each count is 0.
    pub fn new(alloc: Global) -> Self
        ensures { (x : ℤ) → count_of result x ≡ 0 }
    {
        Counts(ByLiteral::new(alloc))
    }

    pub fn of(&self, literal: Lit) -> u32
        ensures { result ≡ count_of self.now literal }
    {
        self.0.get(literal).unwrap_or(0)
    }

    /// Raises the counts of a clause's literals. A refusal lowers none.
    pub fn enter(&mut self, literals: &[Lit]) -> Result<(), OutOfMemory>
        ensures kept { (x : ℤ) → count_of self.old x ≤ count_of self.new x }
        ensures ok { OnOk result ((x : ℤ) → count_of self.new x ≡ count_of self.old x + times_in x literals.now) }
    {
        for literal in literals {
            self.raise(*literal)?;
        }
        Ok(())
    }

    /// Lowers the counts of a clause's literals.
    pub fn leave(&mut self, literals: &[Lit])
        ensures { (x : ℤ) → count_of self.new x ≡ count_of self.old x - times_in x literals.now }
    {
        for literal in literals {
            self.lower(*literal);
        }
    }

    #[inline(always)]
    fn raise(&mut self, literal: Lit) -> Result<(), OutOfMemory>
        ensures kept { (x : ℤ) → count_of self.old x ≤ count_of self.new x }
        ensures ok { OnOk result ((x : ℤ) → count_of self.new x ≡ (if int_eq x literal then count_of self.old x
            + 1 else count_of self.old x)) }
    {
        if let Some(count) = self.0.get_mut(literal) {
            *count = count.checked_add(1).ok_or(OutOfMemory)?;
            return Ok(());
        }
        self.raise_first(literal)
    }

    // The same of a literal that may have no count yet.
    #[cold]
    #[inline(never)]
    fn raise_first(&mut self, literal: Lit) -> Result<(), OutOfMemory>
        ensures kept { (x : ℤ) → count_of self.old x ≤ count_of self.new x }
        ensures ok { OnOk result ((x : ℤ) → count_of self.new x ≡ (if int_eq x literal then count_of self.old x
            + 1 else count_of self.old x)) }
    {
        self.0.reserve(literal, 0)?;
        if let Some(count) = self.0.get_mut(literal) {
            *count = count.checked_add(1).ok_or(OutOfMemory)?;
        }
        Ok(())
    }

    #[inline(always)]
    fn lower(&mut self, literal: Lit)
        ensures { (x : ℤ) → count_of self.new x ≡ (if int_eq x literal then count_of self.old x - 1 else count_of self.old x) }
    {
        if let Some(count) = self.0.get_mut(literal) {
            *count = count.saturating_sub(1);
        }
    }
}
