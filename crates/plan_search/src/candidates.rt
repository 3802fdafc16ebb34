// The nine pairs of orders, and which of them is tried next. Pairs and limits were chosen by runs of up to 99 pairs over some
// hundred formulas; any choice is right for the solver. A pair whose trial came to its limit is tried again with four times as
// many clause numbers where it is the one that is estimated least; one that isn't tried yet comes where its estimate is less.
use crate::orders::{Kind, Method};

// The first trial of all has so many numbers above the formula's for each literal and variable, and so many more.
const FIRST_BY_SIZE: u64 = 24;

const FIRST_BESIDE: u64 = 50_000;
// The first trial of a later pair has this part of them.
const LATER_PART: u64 = 8;
// What a pair that isn't tried is estimated at, in numbers of the first trial.
const UNTRIED: u64 = 2;
// The next trial of a pair has so many times the numbers of its last one.
const GROWTH: u64 = 4;
// Once all pairs were tried, one whose last trial had so many times the numbers of the least waits.
const AHEAD: u64 = 8;

/// An order of the buckets and one of the diagrams.
#[derive(Clone, Copy)]
pub struct Pair {
    pub buckets: Kind,
    pub diagrams: Kind,
}

/// The order that was given, for both.
pub const NATURAL: Pair = Pair {
    buckets: Kind::Natural,
    diagrams: Kind::Natural,
};

/// The next trial: the place of its pair in the list, and how many clause numbers above the formula's it may use.
#[derive(Clone, Copy)]
pub struct Next {
    pub place: usize,
    pub pair: Pair,
    pub above: u64,
}

#[derive(Clone, Copy, PartialEq)]
enum State {
    Untried,
    // The last trial came to its limit.
    Waiting,
    // It isn't tried any more.
    Out,
}

#[derive(Clone, Copy)]
struct Candidate {
    pair: Pair,
    state: State,
    // The numbers above the formula's of the last trial; those of the first one where there was none.
    above: u64,
    estimate: u64,
}

/// The pairs, with what their trials told.
#[derive(Drop)]
pub struct Candidates {
    list: [Candidate; 9],
    // The most numbers above the formula's that a trial may use.
    most: u64,
}

impl Candidates {
    /// No pair is tried. `size` is that of the formula; no trial may use more numbers above the formula's than `most`.
    pub fn new(size: u64, most: u64) -> Candidates {
        let first = size
            .saturating_mul(FIRST_BY_SIZE)
            .saturating_add(FIRST_BESIDE);
        let later = first / LATER_PART;
        let estimate = first.saturating_mul(UNTRIED);
        let degree = Kind::By(Method::Degree);
        let cardinality = Kind::By(Method::Cardinality);
        let levels = Kind::By(Method::Levels);
        let profile = Kind::By(Method::Profile);
        let list = [
            untried(degree, degree, first, estimate),
            untried(cardinality, cardinality, later, estimate),
            untried(degree, profile, later, estimate),
            untried(Kind::Natural, Kind::Natural, later, estimate),
            untried(levels, profile, later, estimate),
            untried(degree, Kind::Natural, later, estimate),
            untried(profile, levels, later, estimate),
            untried(cardinality, Kind::Natural, later, estimate),
            untried(cardinality, levels, later, estimate),
        ];
        Candidates { list, most }
    }

    /// The trial that comes next; None where all pairs are out.
    pub fn next(&self) -> Option<Next> {
        let Some((place, fresh)) = self.first_untried() else {
            let bound = self.least_limit().saturating_mul(AHEAD);
            return self.again(self.least_waiting(bound));
        };
        match self.least_waiting(u64::MAX) {
            Some(waiting) if waiting.1.estimate <= fresh.estimate => self.again(Some(waiting)),
            _ => Some(self.trial(place, &fresh, fresh.above)),
        }
    }

    /// The trial came to its limit of numbers. Its pair is out where it had the most that it may have.
    pub fn reached(&mut self, next: &Next, estimate: u64) {
        let state = if next.above < self.most {
            State::Waiting
        } else {
            State::Out
        };
        self.note(next, state, estimate);
    }

    /// The pair of this trial is out.
    pub fn take_out(&mut self, next: &Next, estimate: u64) {
        self.note(next, State::Out, estimate);
    }

    /// The pair of the least estimate.
    pub fn best(&self) -> Pair {
        let mut best = self.list[0];
        for candidate in &self.list {
            if is_before(candidate, &best) {
                best = *candidate;
            }
        }
        best.pair
    }

    fn first_untried(&self) -> Option<(usize, Candidate)> {
        for (place, candidate) in self.list.iter().enumerate() {
            if candidate.state == State::Untried {
                return Some((place, *candidate));
            }
        }
        None
    }

    // The pair of the least estimate of those that wait, with fewer numbers in their last trial than the bound.
    fn least_waiting(&self, bound: u64) -> Option<(usize, Candidate)> {
        let mut least: Option<(usize, Candidate)> = None;
        for (place, candidate) in self.list.iter().enumerate() {
            if candidate.state == State::Waiting
                && candidate.above < bound
                && is_before_all(candidate, &least)
            {
                least = Some((place, *candidate));
            }
        }
        least
    }

    // The fewest numbers that the last trial of a pair that waits had.
    fn least_limit(&self) -> u64 {
        let mut least = u64::MAX;
        for candidate in &self.list {
            if candidate.state == State::Waiting {
                least = least.min(candidate.above);
            }
        }
        least
    }

    // One more trial of a pair that waits.
    fn again(&self, waiting: Option<(usize, Candidate)>) -> Option<Next> {
        match waiting {
            Some((place, candidate)) => {
                Some(self.trial(place, &candidate, candidate.above.saturating_mul(GROWTH)))
            }
            None => None,
        }
    }

    fn trial(&self, place: usize, candidate: &Candidate, above: u64) -> Next {
        Next {
            place,
            pair: candidate.pair,
            above: above.min(self.most),
        }
    }

    fn note(&mut self, next: &Next, state: State, estimate: u64) {
        if next.place < self.list.len() {
            self.list[next.place] = Candidate {
                pair: next.pair,
                state,
                above: next.above,
                estimate,
            };
        }
    }
}

fn untried(buckets: Kind, diagrams: Kind, above: u64, estimate: u64) -> Candidate {
    Candidate {
        pair: Pair { buckets, diagrams },
        state: State::Untried,
        above,
        estimate,
    }
}

fn is_before_all(candidate: &Candidate, least: &Option<(usize, Candidate)>) -> bool {
    match least {
        Some((_, other)) => is_before(candidate, other),
        None => true,
    }
}

// Whether it comes first of two: by the estimate, then by the numbers of the last trial, then by the place.
fn is_before(candidate: &Candidate, earlier: &Candidate) -> bool {
    if candidate.estimate == earlier.estimate {
        candidate.above < earlier.above
    } else {
        candidate.estimate < earlier.estimate
    }
}
