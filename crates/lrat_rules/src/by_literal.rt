// A value for each literal, found at once by the literal: an entry of a list by place for a literal of a usual variable, and one
// of a hash map for a literal beyond, so that a great variable costs no long list. An entry takes memory when it is reserved, and
// keeps it.
ghost use Rattle.std.specs.Prelude.{◌≡◌, ℤ, None, OnOk, IsTrue, is_some};
ghost use Rattle.std.specs.Option.{unwrap_or, option_copied_mut};
ghost use Rattle.std.specs.Borrow.{sem};
ghost use Rattle.lrat_rules.specs.ByLiteral.{place_of, entry, lends_entry};

use cnf_base::{Lit, OutOfMemory};
use std::alloc::Global;
use std::collections::HashMap;

// Below this are the places of the literals of the variables below 2 ^ 22, for which a list by place is short enough.
const NEAR_PLACES: usize = 8_388_608;

/// An entry for each literal that has one.
#[derive(Drop)]
pub struct ByLiteral<T> {
    near: Vec<T>,
    far: HashMap<i32, T>,
}

#[tactic(auto, unfolding(crate::specs::ByLiteral::entry))]
impl<T: Copy> ByLiteral<T> {
    /// No literal has an entry.
    pub fn new(alloc: Global) -> ByLiteral<T>
        ensures { (x : ℤ) → entry result x ≡ None }
    {
        ByLiteral {
            near: Vec::new(alloc),
            far: HashMap::new(alloc),
        }
    }

    #[inline(always)]
    pub fn get(&self, literal: Lit) -> Option<T>
        ensures { result ≡ entry self.now literal }
    {
        let place = place_of(literal);
        if place < NEAR_PLACES {
            self.near.get(place).copied()
        } else {
            self.far.get(&literal.get()).copied()
        }
    }

    /// Reserves the entry of a literal. Entries that are new hold the blank.
    #[inline(always)]
    pub fn reserve(&mut self, literal: Lit, blank: T) -> Result<(), OutOfMemory>
        ensures same { (x : ℤ) → unwrap_or (entry self.new x) blank ≡ unwrap_or (entry self.old x) blank }
        ensures kept { (x : ℤ) → IsTrue (is_some (entry self.old x)) → IsTrue (is_some (entry self.new x)) }
        ensures ok { OnOk result (IsTrue (is_some (entry self.new literal))) }
    {
        let place = place_of(literal);
        if NEAR_PLACES <= place {
            self.far.entry(literal.get())?.or_insert(blank);
        } else if self.near.len() <= place {
            // The list reaches to the end of the place's block of 1024 then.
            self.near.resize((place / 1024 + 1) * 1024, blank)?;
        }
        Ok(())
    }

    /// The entry of a literal that has one, for writing.
    #[inline(always)]
    pub fn get_mut(&mut self, literal: Lit) -> Option<&mut T>
        ensures* writes_back { sem 𝓛 (lends_entry T.row self.entry literal result) }
        ensures value { option_copied_mut result ≡ entry self.old literal }
    {
        let place = place_of(literal);
        if place < NEAR_PLACES {
            self.near.get_mut(place)
        } else {
            self.far.get_mut(&literal.get())
        }
    }
}

// The place of a literal in a list with a place for each literal.
#[inline(always)]
fn place_of(literal: Lit) -> usize
    ensures { result ≡ place_of literal }
{
    2 * literal.var() as usize + usize::from(literal.is_negative())
}
