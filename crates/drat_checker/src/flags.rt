// A flag for each literal. A flag takes memory when it is reserved, and keeps it.
ghost use Rattle.std.specs.Prelude.{◌≡◌, ◌&&◌, ◌||◌, ℤ, false, not, OnOk, IsTrue};
ghost use Rattle.std.specs.Ordering.{int_eq};
ghost use Rattle.drat_checker.specs.Flags.{is_set, has_flag};

use cnf_base::{Lit, OutOfMemory};
use lrat_rules::ByLiteral;
use std::alloc::Global;

/// A flag for each literal.
#[derive(Drop)]
pub struct Flags(ByLiteral<bool>);

#[tactic(auto, unfolding(crate::specs::Flags::is_set, crate::specs::Flags::has_flag))]
impl Flags {
    /// No flag is set.
    pub fn new(alloc: Global) -> Flags
        ensures { (x : ℤ) → is_set result x ≡ false }
    {
        Flags(ByLiteral::new(alloc))
    }

    #[inline(always)]
    pub fn is_set(&self, literal: Lit) -> bool
        ensures { result ≡ is_set self.now literal }
    {
        self.0.get(literal).unwrap_or(false)
    }

    /// Reserves the flag of a literal.
    #[inline(always)]
    pub fn reserve(&mut self, literal: Lit) -> Result<(), OutOfMemory>
        ensures same { (x : ℤ) → is_set self.new x ≡ is_set self.old x }
        ensures kept { (x : ℤ) → IsTrue (has_flag self.old x) → IsTrue (has_flag self.new x) }
        ensures ok { OnOk result (IsTrue (has_flag self.new literal)) }
    {
        self.0.reserve(literal, false)
    }

    /// Sets the flag of a literal.
    #[inline(always)]
    pub fn set(&mut self, literal: Lit)
        requires { IsTrue (has_flag self.old literal) }
        ensures set { (x : ℤ) → is_set self.new x ≡ (int_eq x literal || is_set self.old x) }
        ensures kept { (x : ℤ) → has_flag self.new x ≡ has_flag self.old x }
    {
        if let Some(flag) = self.0.get_mut(literal) {
            *flag = true;
        }
    }

    /// The flag of a literal is set no more.
    #[inline(always)]
    pub fn clear(&mut self, literal: Lit)
        ensures cleared { (x : ℤ) → is_set self.new x ≡ (not (int_eq x literal) && is_set self.old x) }
        ensures kept { (x : ℤ) → has_flag self.new x ≡ has_flag self.old x }
    {
        if let Some(flag) = self.0.get_mut(literal) {
            *flag = false;
        }
    }
}
