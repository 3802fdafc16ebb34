// A short list of hints, kept inline.
ghost use Rattle.std.specs.Prelude.{◌≡◌, ◌<◌, [], ◌∷◌, ◌++◌, length};

use cnf_base::Id;
use smallvec::SmallVec;
use std::alloc::Global;
use std::marker::Model;

/// A short list of hints. Up to eight of them take no memory.
#[derive(Drop)]
pub struct Hints {
    ids: SmallVec<Id, 8>,
}

impl Model for Hints {
    ghost use Rattle.std.specs.Prelude.{ℕ, List, ◌≤◌};

    ghost Value = { List ℕ };

    ghost view = { λ hints. hints.ids.items };

    ghost invariant = { λ hints. 8 ≤ hints.ids.capacity };
}

impl Hints {
    /// No hints.
    pub(crate) fn new(alloc: Global) -> Hints
        ensures { result ≡ [] }
    {
        Hints {
            ids: SmallVec::new(alloc),
        }
    }

    /// Appends a hint, which takes no memory.
    pub(crate) fn push(&mut self, id: Id)
        requires { length self.old < 8 }
        ensures { self.new ≡ self.old ++ id ∷ [] }
    {
        self.ids.push_reserved(id);
    }

    pub fn as_slice(&self) -> &[Id]
        ensures { result.now ≡ self.now }
    {
        self.ids.as_slice()
    }
}
