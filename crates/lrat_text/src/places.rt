// A list of numbers with places behind it, so that numbers are put where they stay, and nothing is kept twice.
ghost use Rattle.std.specs.Prelude.{◌≡◌, ◌<◌, ◌≤◌, [], ◌∷◌, ◌++◌, length, take, OnOk, OnErr};
ghost use Rattle.lrat_text.specs.Form.{TookMore};

use cnf_base::OutOfMemory;
use std::alloc::Global;
use std::marker::Model;
use text_scan::Scanner;

/// How many places are made at a time.
const MORE: usize = 64;

/// Numbers in turn.
#[derive(Drop)]
pub struct Places {
    places: Vec<i64>,
    count: usize,
}

impl Model for Places {
    ghost use Rattle.std.specs.Prelude.{ℤ, List, ◌≤◌, take, length};
    ghost use Rattle.std.specs.Coded.{coded_ℤ, coded_list};

    ghost Value = { List ℤ };

    ghost coded = { coded_list coded_ℤ };

    ghost view = { λ l. take l.count l.places.items };

    ghost invariant = { λ l. l.count ≤ length l.places.items };
}

impl Places {
    /// No number.
    pub fn new(alloc: Global) -> Places
        ensures { result ≡ [] }
    {
        Places {
            places: Vec::new(alloc),
            count: 0,
        }
    }

    /// Lets all numbers go, and keeps the places.
    #[inline(always)]
    pub fn clear(&mut self)
        ensures { self.new ≡ [] }
    {
        self.count = 0;
    }

    /// How many numbers there are.
    #[inline(always)]
    pub fn len(&self) -> usize
        ensures { result ≡ length self.now }
    {
        self.count
    }

    /// The numbers.
    #[inline(always)]
    pub fn as_slice(&self) -> &[i64]
        ensures { result.now ≡ self.now }
    {
        &self.places[..self.count]
    }

    /// One number more. A refusal changes nothing.
    pub fn push(&mut self, number: i64) -> Result<(), OutOfMemory>
        ensures ok { OnOk result (self.new ≡ self.old ++ number ∷ []) }
        ensures err { OnErr result (self.new ≡ self.old) }
    {
        make_room(&mut self.places, self.count)?;
        self.places[self.count] = number;
        self.count += 1;
        Ok(())
    }

    /// These numbers more. A refusal changes nothing.
    pub fn extend(&mut self, numbers: &[i64]) -> Result<(), OutOfMemory>
        ensures ok { OnOk result (self.new ≡ self.old ++ numbers.now) }
        ensures err { OnErr result (self.new ≡ self.old) }
    {
        self.places.truncate(self.count);
        self.places.extend_from_slice(numbers)?;
        self.count = self.places.len();
        Ok(())
    }

    /// Puts the numbers that come next on this line behind those that there are, as far as there are places for them, and tells how many.
    pub fn take_from(&mut self, line: u64, scanner: &mut Scanner) -> usize
        ensures { TookMore line result self.old self.new scanner.old scanner.new }
    {
        if make_room(&mut self.places, self.count).is_err() {
            return 0;
        }
        let count = scanner.numbers_on(line, &mut self.places[self.count..]);
        self.count += count;
        count
    }
}

// Makes places behind so many numbers, where there is none. A refusal changes nothing.
#[inline(always)]
fn make_room(places: &mut Vec<i64>, count: usize) -> Result<(), OutOfMemory>
    requires { count ≤ length places.old.items }
    ensures kept { take count places.new.items ≡ take count places.old.items }
    ensures within { count ≤ length places.new.items }
    ensures ok { OnOk result (count < length places.new.items) }
{
    if places.len() == count {
        more_places(places)?;
    }
    Ok(())
}

#[cold]
#[inline(never)]
fn more_places(places: &mut Vec<i64>) -> Result<(), OutOfMemory>
    ensures kept { take (length places.old.items) places.new.items ≡ places.old.items }
    ensures within { length places.old.items ≤ length places.new.items }
    ensures ok { OnOk result (length places.old.items < length places.new.items) }
{
    places.resize(places.len() + MORE, 0)?;
    Ok(())
}
