// By which names a conversion writes its steps, as they are given along the proof.
ghost use Rattle.std.specs.Prelude.{◌≡◌, ◌<◌, OnOk};
ghost use Rattle.drat_text.specs.declared.step.DratStep.TheVariants.{Add as adds, Delete as deletes};
ghost use Rattle.drat_proof.specs.Naming.{behind, names_ahead, names_at_first};

use cnf_base::{Lit, OutOfMemory};
use fresh_names::Renaming;
use std::alloc::Global;

/// By its own names, or by new ones.
#[derive(Drop)]
pub enum Naming {
    Own,
    Fresh(Renaming),
}

impl Naming {
    /// Over a formula of so many variables.
    pub fn new(alloc: Global, vars: u32, fresh: bool) -> Naming
        requires { vars < 2147483647 }
        ensures { names_ahead result ≡ names_at_first fresh vars }
    {
        if fresh {
            Naming::Fresh(Renaming::new(alloc, vars))
        } else {
            Naming::Own
        }
    }

    /// An addition of this clause comes. Nothing is said of the names after a refusal.
    pub fn enter(&mut self, clause: &[Lit]) -> Result<(), OutOfMemory>
        ensures { OnOk result (names_ahead self.new ≡ behind (names_ahead self.old) (adds clause.now)) }
    {
        match self {
            Naming::Own => Ok(()),
            Naming::Fresh(renaming) => renaming.enter_all(clause),
        }
    }

    /// A deletion of this clause comes. Takes no memory.
    pub fn leave(&mut self, clause: &[Lit])
        ensures { names_ahead self.new ≡ behind (names_ahead self.old) (deletes clause.now) }
    {
        match self {
            Naming::Own => {}
            Naming::Fresh(renaming) => renaming.leave_all(clause),
        }
    }
}
