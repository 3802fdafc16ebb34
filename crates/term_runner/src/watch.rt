// What a run tells while it goes on: the moves that are done are counted, and a gauge shows how far it is.
ghost use Rattle.std.specs.Prelude.{◌≡◌, ◌+◌, ◌<◌, ◌≤◌};

use crate::gauge::Gauge;
use bdd_terms::Reading;

/// The moves that are done, how many of them were done when half of the clause numbers above the formula's were used, and the gauge
/// that shows how far the run is, if there is one.
#[derive(Drop)]
pub struct Watch<'a> {
    half: u64,
    pub moves: usize,
    pub moves_at_half: usize,
    gauge: Option<&'a Gauge>,
    // Whether the caches are let go at the end of the run.
    pub(crate) lets_go: bool,
    ghost ordered: { moves_at_half ≤ moves },
}

impl<'a> Watch<'a> {
    /// No move is done, and nothing shows how far the run is.
    pub fn new() -> Watch<'a>
        ensures { result.moves ≡ 0 }
    {
        Watch::with(None, false)
    }

    /// No move is done. The gauge shows how far the run is.
    pub fn on(gauge: &'a Gauge) -> Watch<'a>
        ensures { result.moves ≡ 0 }
    {
        Watch::with(Some(gauge), false)
    }

    /// That of a trial, which keeps no memory.
    pub fn of_trial() -> Watch<'a>
        ensures { result.moves ≡ 0 }
    {
        Watch::with(None, true)
    }

    fn with(gauge: Option<&'a Gauge>, lets_go: bool) -> Watch<'a>
        ensures { result.moves ≡ 0 }
    {
        Watch {
            half: 0,
            moves: 0,
            moves_at_half: 0,
            gauge,
            lets_go,
        }
    }

    /// The formula's clauses have the numbers up to `clauses`, and `max_ids` is the greatest number allowed.
    pub(crate) fn begin(&mut self, clauses: u64, max_ids: u64)
        ensures { self.new.moves ≡ self.old.moves }
    {
        self.half = clauses.saturating_add(max_ids.saturating_sub(clauses) / 2);
    }

    /// One more move is done, and this is the last clause number that was used.
    pub(crate) fn note(&mut self, last_id: u64)
        requires { self.old.moves < usize.MAX }
        ensures { self.new.moves ≡ self.old.moves + 1 }
    {
        self.moves += 1;
        if last_id <= self.half {
            self.moves_at_half = self.moves;
        }
    }

    /// Has the gauge show this, with the moves that are done.
    pub fn show(&self, reading: Reading) {
        if let Some(gauge) = self.gauge {
            gauge.show(Reading {
                moves: self.moves,
                ..reading
            });
        }
    }
}
