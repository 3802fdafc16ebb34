// The numbers of clauses that the steps behind a place of a proof need, a bit for each. Numbers below 2^27 stand in a list of words, which
// reaches to the greatest of them, and are found without a search; a greater one takes a word of a map.
ghost use Rattle.std.specs.Prelude.{◌≡◌, ◌<◌, ◌/◌, ◌^◌, ℕ, ◌||◌, false, length, nat_eq, OnOk};
ghost use Rattle.std.specs.Int.Bits.{bit_or};
ghost use Rattle.proof_trim.specs.Bits.{is_set};
ghost use Rattle.proof_trim.specs.Numbers.{has, near_word, word_at};
ghost use Rattle.proof_trim.specs.Trimmed.{is_there};

use cnf_base::{Id, OutOfMemory};
use std::alloc::Global;
use std::collections::HashMap;

// The words below this one stand in the list.
const NEAR_WORDS: u64 = 2_097_152;

/// A set of clause numbers.
#[derive(Drop)]
pub struct Numbers {
    near: Vec<u64>,
    far: HashMap<u64, u64>,
}

impl Numbers {
    /// No number.
    pub fn new(alloc: Global) -> Numbers
        ensures { (id : ℕ) → has result id ≡ false }
    {
        Numbers {
            near: Vec::new(alloc),
            far: HashMap::new(alloc),
        }
    }

    #[inline(always)]
    pub fn has(&self, id: Id) -> bool
        ensures { result ≡ has self.now id }
    {
        is_set(self.word(id.get() / 64), id.get() % 64)
    }

    /// One more number.
    #[inline(always)]
    pub fn enter(&mut self, id: Id) -> Result<(), OutOfMemory>
        ensures { OnOk result ((other : ℕ) → has self.new other ≡ (nat_eq other id || has self.old other)) }
    {
        let number = id.get();
        self.enter_bit(number / 64, number % 64)?;
        Ok(())
    }

    // The word of 64 numbers.
    #[inline(always)]
    fn word(&self, page: u64) -> u64
        ensures { result ≡ word_at self.now page }
    {
        if page < NEAR_WORDS {
            self.near.get(page as usize).copied().unwrap_or(0)
        } else {
            self.far.get(&page).copied().unwrap_or(0)
        }
    }

    #[inline(always)]
    fn enter_bit(&mut self, page: u64, place: u64) -> Result<(), OutOfMemory>
        requires fits { place < 64 }
        ensures others { OnOk result ((other : ℕ) → nat_eq other page ≡ false → word_at self.new other ≡ word_at self.old other) }
        ensures word { OnOk result (word_at self.new page ≡ bit_or (word_at self.old page) (2 ^ place)) }
    {
        if page < NEAR_WORDS {
            return enter_near(&mut self.near, page as usize, place);
        }
        let word = self.far.entry(page)?.or_insert(0);
        *word = with_bit(*word, place);
        Ok(())
    }
}

#[inline(always)]
fn enter_near(near: &mut Vec<u64>, page: usize, place: u64) -> Result<(), OutOfMemory>
    requires fits { place < 64 }
    requires near { page < 2097152 }
    ensures others { OnOk result ((other : ℕ) → nat_eq other page ≡ false → near_word near.new.items other
        ≡ near_word near.old.items other) }
    ensures word { OnOk result (near_word near.new.items page ≡ bit_or (near_word near.old.items page) (2 ^ place)) }
{
    reach(near, page)?;
    near[page] = with_bit(near[page], place);
    Ok(())
}

// Has the list reach to the word, in blocks of 1024.
#[inline(always)]
fn reach(near: &mut Vec<u64>, page: usize) -> Result<(), OutOfMemory>
    requires near { page < 2097152 }
    ensures same { (other : ℕ) → near_word near.new.items other ≡ near_word near.old.items other }
    ensures reaches { OnOk result (page < length near.new.items) }
{
    if near.len() <= page {
        near.resize((page / 1024 + 1) * 1024, 0)?;
    }
    Ok(())
}

#[inline(always)]
fn is_set(word: u64, place: u64) -> bool
    requires { place < 64 }
    ensures { result ≡ is_set word place }
{
    (word >> place) % 2 == 1
}

#[inline(always)]
fn with_bit(word: u64, place: u64) -> u64
    requires { place < 64 }
    ensures { result ≡ bit_or word (2 ^ place) }
{
    word | (1 << place)
}

impl Numbers {
    /// Whether the number is the formula's, which has so many clauses, or one of these.
    #[inline(always)]
    pub fn is_there(&self, count: u64, id: Id) -> bool
        ensures { result ≡ is_there count (has self.now) id }
    {
        id.get() <= count || self.has(id)
    }
}
