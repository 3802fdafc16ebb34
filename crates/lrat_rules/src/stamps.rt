// A stamp for each literal. It takes memory when it is reserved, and keeps it.
ghost use Rattle.std.specs.Prelude.{◌≡◌, ◌<◌, ℤ, IsFalse, IsTrue, OnErr, OnOk, if◌then◌else◌, length, not};
ghost use Rattle.std.specs.List.{list_any};
ghost use Rattle.std.specs.Ordering.{int_eq};
ghost use Rattle.lrat_rules.specs.Chain.{literals_of};
ghost use Rattle.lrat_rules.specs.Stamps.{has_place, stamp_of, stamp_with};

use crate::by_literal::ByLiteral;
use cnf_base::{Lit, OutOfMemory};
use std::alloc::Global;

/// A stamp for each literal.
#[derive(Drop)]
pub struct Stamps(ByLiteral<u32>);

#[tactic(auto, unfolding(crate::specs::Stamps::stamp_of, crate::specs::Stamps::has_place))]
impl Stamps {
    /// Each stamp is 0.
    pub fn new(alloc: Global) -> Self
        ensures { (x : ℤ) → stamp_of result x ≡ 0 }
    {
        Stamps(ByLiteral::new(alloc))
    }

    #[inline(always)]
    pub fn of(&self, literal: Lit) -> u32
        ensures { result ≡ stamp_of self.now literal }
    {
        self.0.get(literal).unwrap_or(0)
    }

    /// Reserves the place of a literal's stamp.
    #[inline(always)]
    pub fn reserve(&mut self, literal: Lit) -> Result<(), OutOfMemory>
        ensures same { (x : ℤ) → stamp_of self.new x ≡ stamp_of self.old x }
        ensures kept { (x : ℤ) → IsTrue (has_place self.old x) → IsTrue (has_place self.new x) }
        ensures ok { OnOk result (IsTrue (has_place self.new literal)) }
    {
        self.0.reserve(literal, 0)
    }

    /// Stamps a literal, unless it has the stamp that is kept.
    #[inline(always)]
    pub fn put(&mut self, literal: Lit, kept: u32, stamp: u32)
        requires { IsTrue (has_place self.old literal) }
        ensures put { (x : ℤ) → stamp_of self.new x ≡ (if int_eq x literal then stamp_with kept stamp (stamp_of self.old x)
            else stamp_of self.old x) }
        ensures kept { (x : ℤ) → has_place self.new x ≡ has_place self.old x }
    {
        if let Some(own) = self.0.get_mut(literal) {
            *own = stamp_with(kept, stamp, *own);
        }
    }
}

impl Stamps {
    /// Reserves the places of a clause's literals.
    #[inline(always)]
    pub fn reserve_all(&mut self, clause: &[Lit]) -> Result<(), OutOfMemory>
        ensures same { (x : ℤ) → stamp_of self.new x ≡ stamp_of self.old x }
        ensures ok { OnOk result ((x : ℤ) → IsTrue (literals_of clause.now x) → IsTrue (has_place self.new x)) }
        ensures memory { OnErr result (0 < length clause.now) }
    {
        for literal in clause {
            self.reserve(*literal)?;
        }
        Ok(())
    }

    /// The same of the literals other than one.
    pub fn reserve_others(&mut self, clause: &[Lit], other_than: Lit) -> Result<(), OutOfMemory>
        ensures same { (x : ℤ) → stamp_of self.new x ≡ stamp_of self.old x }
        ensures ok { OnOk result ((x : ℤ) → IsTrue (literals_of clause.now x) → IsFalse (int_eq x other_than)
            → IsTrue (has_place self.new x)) }
        ensures memory { OnErr result (IsTrue (list_any (λ x. not (int_eq x other_than)) clause.now)) }
    {
        for literal in clause {
            if *literal != other_than {
                self.reserve(*literal)?;
            }
        }
        Ok(())
    }
}

#[inline(always)]
fn stamp_with(kept: u32, stamp: u32, own: u32) -> u32
    ensures { result ≡ stamp_with kept stamp own }
{
    if own == kept { own } else { stamp }
}
