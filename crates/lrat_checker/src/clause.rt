// A clause that owns its literals, in just the memory that they need.
ghost use Rattle.std.specs.Prelude.{◌≡◌, IfOk};

use cnf_base::{Lit, OutOfMemory};
use std::alloc::Global;
use std::marker::Model;

/// A live clause.
#[derive(Drop)]
pub struct Clause {
    literals: Vec<Lit>,
}

impl Model for Clause {
    ghost use Rattle.std.specs.Prelude.{List, ℤ};

    ghost Value = { List ℤ };

    ghost view = { λ clause. clause.literals.items };
}

impl Clause {
    /// A clause of these literals, as they stand.
    pub fn of(alloc: Global, literals: &[Lit]) -> Result<Clause, OutOfMemory>
        ensures { IfOk result (λ clause. clause ≡ literals.now) }
    {
        let literals = Vec::from_slice(alloc, literals)?;
        Ok(Clause { literals })
    }

    pub fn literals(&self) -> &[Lit]
        ensures { result.now ≡ self.now }
    {
        self.literals.as_slice()
    }
}
