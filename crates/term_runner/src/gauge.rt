// How far a run is, for those who look at it from outside: whoever takes its proof, while it goes on, and its caller. Contracts say
// nothing of it.
use bdd_terms::{CacheLookups, Lookups, Reading};
use std::cell::Cell;

/// Shows how far a run is: behind each move, and at its end.
#[derive(Drop)]
pub struct Gauge {
    reading: Cell<Reading>,
}

impl Gauge {
    /// That of a run of so many moves, of which none is done.
    pub fn new(all_moves: usize) -> Gauge {
        let none = Lookups {
            found: 0,
            missed: 0,
        };
        Gauge {
            reading: Cell::new(Reading {
                moves: 0,
                all_moves,
                nodes: 0,
                most_nodes: 0,
                copies: 0,
                lookups: CacheLookups {
                    conjunctions: none,
                    implications: none,
                    quantifications: none,
                    disjunctions: none,
                },
            }),
        }
    }

    pub fn read(&self) -> Reading {
        self.reading.get()
    }

    pub(crate) fn show(&self, reading: Reading) {
        self.reading.set(reading);
    }
}
