// What a good addition needs of its hints: how many of each list its check took.
ghost use Rattle.std.specs.Prelude.{◌≡◌, [], ◌++◌, ◌∷◌, OnOk, OnErr};

use cnf_base::{Items, OutOfMemory};
use std::alloc::Global;

/// How many hints the check of an addition took: of its positive hints, and of the hints of each group that it looked at.
#[derive(Drop)]
pub struct Uses {
    pub hints: usize,
    pub groups: Items<usize>,
}

impl Uses {
    /// None so far.
    pub fn new(alloc: Global) -> Uses
        ensures { result ≡ record { hints = 0; groups = [] } }
    {
        Uses {
            hints: 0,
            groups: Items::new(alloc),
        }
    }

    /// So many positive hints, and no group.
    pub fn restart(&mut self, hints: usize)
        ensures { self.new ≡ record { hints = hints; groups = [] } }
    {
        self.hints = hints;
        self.groups.clear();
    }

    /// One more group with so many hints. A refusal changes nothing.
    pub fn push(&mut self, count: usize) -> Result<(), OutOfMemory>
        ensures ok { OnOk result (self.new ≡ record { hints = self.old.hints; groups = self.old.groups ++ count ∷ [] }) }
        ensures err { OnErr result (self.new ≡ self.old) }
    {
        self.groups.push(count)
    }
}
