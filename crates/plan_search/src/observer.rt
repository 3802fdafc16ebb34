// Who looks at a search while it goes on.
ghost use Rattle.std.specs.Prelude.{◌≡◌};
ghost use Rattle.host_io.specs.Beside.{Beside};

use crate::candidates::Pair;

/// One trial: its pair, the greatest clause number that it might use, and how many moves were done, of all.
#[derive(Clone, Copy)]
pub struct Attempt {
    pub pair: Pair,
    pub max_ids: u64,
    pub moves: usize,
    pub all_moves: usize,
}

/// Is told what a search does. The search doesn't depend on it.
pub trait Observer {
    /// Which object it lends, and what it leaves alone of that object.
    ghost beside: { Self → Beside };

    /// A trial came to its end.
    fn tried(&mut self, attempt: Attempt)
        ensures { beside self.new ≡ beside self.old };

    /// The search came to its end, with this pair.
    fn found(&mut self, pair: Pair)
        ensures { beside self.new ≡ beside self.old };
}

/// Looks at nothing.
#[derive(Drop)]
pub struct NoObserver;

impl Observer for NoObserver {
    ghost use Rattle.host_io.specs.Idle.{nothing_beside};

    ghost beside = { λ _. nothing_beside };

    fn tried(&mut self, _attempt: Attempt) {}

    fn found(&mut self, _pair: Pair) {}
}
