// The numbers of a line. Those of a short line stand in the list itself, where the scanner puts them; those of a longer one elsewhere.
ghost use Rattle.std.specs.Prelude.{◌≡◌, [], ◌∷◌, ◌++◌, length, OnOk, OnErr};
ghost use Rattle.lrat_text.specs.Form.{TookMore};

use crate::places::Places;
use cnf_base::OutOfMemory;
use std::alloc::Global;
use std::marker::Model;
use text_scan::Scanner;

/// How many numbers a short line has at most.
const FRONT: usize = 64;

/// Numbers in turn.
#[derive(Drop)]
pub struct Numbers {
    front: [i64; FRONT],
    few: usize,
    more: Places,
}

impl Model for Numbers {
    ghost use Rattle.std.specs.Prelude.{ℤ, List, ◌≡◌, ◌≤◌, ◌++◌, [], take, ◌⊎◌};
    ghost use Rattle.std.specs.Coded.{coded_ℤ, coded_list};

    ghost Value = { List ℤ };

    ghost coded = { coded_list coded_ℤ };

    ghost view = { λ l. l.more ++ take l.few l.front };

    ghost invariant = { λ l. (l.few ≤ 64) × (l.few ≡ 0 ⊎ l.more ≡ []) };
}

impl Numbers {
    /// No number.
    pub fn new(alloc: Global) -> Numbers
        ensures { result ≡ [] }
    {
        Numbers {
            front: [0; FRONT],
            few: 0,
            more: Places::new(alloc),
        }
    }

    /// Lets all numbers go.
    #[inline(always)]
    pub fn clear(&mut self)
        ensures { self.new ≡ [] }
    {
        self.few = 0;
        self.more.clear();
    }

    /// How many numbers there are.
    #[inline(always)]
    pub fn len(&self) -> usize
        ensures { result ≡ length self.now }
    {
        self.as_slice().len()
    }

    /// The numbers.
    #[inline(always)]
    pub fn as_slice(&self) -> &[i64]
        ensures { result.now ≡ self.now }
    {
        if self.few > 0 {
            &self.front[..self.few]
        } else {
            self.more.as_slice()
        }
    }

    /// One number more. A refusal changes nothing.
    #[inline(always)]
    pub fn push(&mut self, number: i64) -> Result<(), OutOfMemory>
        ensures ok { OnOk result (self.new ≡ self.old ++ number ∷ []) }
        ensures err { OnErr result (self.new ≡ self.old) }
    {
        if self.few < FRONT && self.more.len() == 0 {
            self.front[self.few] = number;
            self.few += 1;
            return Ok(());
        }
        self.push_behind(number)
    }

    /// Puts the numbers that come next on this line behind those that there are, as far as the scanner gives them at once and there are
    /// places, and tells how many.
    #[inline(always)]
    pub fn take_from(&mut self, line: u64, scanner: &mut Scanner) -> usize
        ensures { TookMore line result self.old self.new scanner.old scanner.new }
    {
        if self.len() > 0 {
            return self.take_more(line, scanner);
        }
        self.few = scanner.numbers_on(line, &mut self.front);
        self.few
    }

    // The same of a line that isn't short any more.
    #[cold]
    #[inline(never)]
    fn push_behind(&mut self, number: i64) -> Result<(), OutOfMemory>
        ensures ok { OnOk result (self.new ≡ self.old ++ number ∷ []) }
        ensures err { OnErr result (self.new ≡ self.old) }
    {
        if self.few > 0 {
            self.more.extend(&self.front[..self.few])?;
            self.few = 0;
        }
        self.more.push(number)
    }

    #[cold]
    #[inline(never)]
    fn take_more(&mut self, line: u64, scanner: &mut Scanner) -> usize
        ensures { TookMore line result self.old self.new scanner.old scanner.new }
    {
        if self.few > 0 {
            if self.more.extend(&self.front[..self.few]).is_err() {
                return 0;
            }
            self.few = 0;
        }
        self.more.take_from(line, scanner)
    }
}
