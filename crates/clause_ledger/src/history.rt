// What a ledger went through, as contracts see it. It takes no memory and no time.
ghost use Rattle.std.specs.Prelude.{◌≡◌, []};
ghost use Rattle.std.specs.Borrow.{ftrue};
ghost use Rattle.clause_ledger.specs.History.{Story, begun, story_code};

use cnf_base::{Cnf, Id, Lit};
use std::marker::Model;

/// A formula's clauses, the steps since, and where they lead.
#[derive(Drop)]
pub(crate) struct History {
    pub(crate) ghost story: { Story } by { story_code },
}

impl Model for History {
    ghost also_owns = { λ _. ftrue };
}

/// What a call adds: a formula, a step, or that all was flushed.
#[derive(Clone, Copy, Drop)]
pub(crate) enum Change<'a> {
    Start(&'a Cnf),
    /// A clause and its hints.
    Add(&'a [Lit], &'a [Id]),
    /// A clause and its candidates.
    Define(&'a [Lit], &'a [Id]),
    Delete(&'a [Id]),
    Finish,
}

impl History {
    ghost use Rattle.clause_ledger.specs.History.{changed};

    /// That of no clause.
    pub(crate) fn new() -> History
        ensures { result.story ≡ begun [] }
    {
        History {}
    }

    /// The story with a change at its end.
    #[inline(always)]
    pub(crate) fn then(&self, _change: &Change<'_>) -> History
        ensures { result.story ≡ changed self.now.story _change.now }
    {
        History {}
    }
}
