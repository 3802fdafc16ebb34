// How far a session is, for those who look at it from outside while it goes on. Contracts say nothing of it.
use std::cell::Cell;

/// How far a session is.
#[derive(Clone, Copy)]
pub struct Reading {
    /// The formula's clauses, which have the first numbers of the proof.
    pub clauses: u64,
    /// The cubes, and how many of them are answered.
    pub cubes: usize,
    pub answered: usize,
}

/// Shows how far a session is: at its start, and behind each cube.
#[derive(Drop)]
pub struct Gauge {
    reading: Cell<Reading>,
}

impl Gauge {
    /// That of a session that hasn't begun.
    pub fn new() -> Gauge {
        Gauge {
            reading: Cell::new(Reading {
                clauses: 0,
                cubes: 0,
                answered: 0,
            }),
        }
    }

    pub fn read(&self) -> Reading {
        self.reading.get()
    }

    pub(crate) fn begin(&self, clauses: u64, cubes: usize) {
        self.reading.set(Reading {
            clauses,
            cubes,
            answered: 0,
        });
    }

    // So many cubes are answered.
    pub(crate) fn show(&self, answered: usize) {
        let reading = self.reading.get();
        self.reading.set(Reading {
            answered,
            ..reading
        });
    }
}
