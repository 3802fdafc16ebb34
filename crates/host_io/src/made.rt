// The list of what the system was asked for, that only contracts see. It takes no memory and no time.
ghost use Rattle.std.specs.Prelude.{◌≡◌, List, [], ◌∷◌, ◌++◌};
ghost use Rattle.std.specs.Borrow.{ftrue};
ghost use Rattle.host_io.specs.Real.{Target};
ghost use Rattle.host_io.specs.Reach.{target_of};

use crate::reach::Reach;
use std::marker::Model;

#[derive(Drop)]
pub(crate) struct Made {
    pub(crate) ghost targets: { List Target },
}

impl Model for Made {
    ghost also_owns = { λ _. ftrue };
}

impl Made {
    /// Nothing.
    pub(crate) fn new() -> Made
        ensures { result.targets ≡ [] }
    {
        Made {}
    }

    /// This one more.
    #[inline(always)]
    pub(crate) fn and(&self, _one: &Reach<'_>) -> Made
        ensures { result.targets ≡ self.now.targets ++ target_of _one.now ∷ [] }
    {
        Made {}
    }
}
