// Sets of variables that are quantified at once.
ghost use Rattle.std.specs.Prelude.{◌≡◌, IfOk};

use cnf_base::OutOfMemory;
use std::alloc::Global;
use std::marker::Model;

/// The variables of a set, as they were given. Their order and repetition don't count.
#[derive(Debug, Drop)]
pub struct Variables {
    // In a box, so that a move takes two words: there are many moves, and few of them have a set.
    numbers: Box<Vec<u32>>,
}

impl Model for Variables {
    ghost use Rattle.std.specs.Prelude.{ℕ, List};

    ghost Value = { List ℕ };

    ghost view = { λ v. v.numbers.value.items };
}

impl Variables {
    /// The variables with these numbers.
    pub fn of_numbers(alloc: Global, numbers: Vec<u32>) -> Result<Variables, OutOfMemory>
        ensures { IfOk result (λ variables. variables ≡ numbers.items) }
    {
        Ok(Variables {
            numbers: Box::new(alloc, numbers)?,
        })
    }

    /// Their numbers, as they were given.
    pub fn as_slice(&self) -> &[u32]
        ensures { result.now ≡ self.now }
    {
        self.numbers.as_slice()
    }
}
