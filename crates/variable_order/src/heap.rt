// A queue of vertices whose priorities rise while they wait: a binary heap that knows the place of each vertex, so that no entry is ever
// stale. (Williams: Algorithm 232, Heapsort, 1964.) The greatest priority comes first, and among equals the least number.

use cnf_base::OutOfMemory;
use std::alloc::Global;

// A heap of fewer than 2^32 vertices has at most so many levels.
const LEVELS: usize = 32;

/// Vertices that wait.
#[derive(Drop)]
pub(crate) struct Heap {
    entries: Vec<Entry>,
    states: Vec<State>,
}

#[derive(Clone, Copy, Drop)]
struct Entry {
    priority: u32,
    vertex: u32,
}

// A vertex that doesn't wait yet has a priority, one that does has a place.
#[derive(Clone, Copy, Drop)]
enum State {
    Outside(u32),
    Waiting(u32),
    Taken,
}

impl Entry {
    fn is_before(self, other: Entry) -> bool {
        self.priority > other.priority
            || (self.priority == other.priority && self.vertex < other.vertex)
    }
}

impl Heap {
    /// A heap in which no vertex waits yet, with the priority that each begins with.
    pub(crate) fn of(alloc: Global, priorities: &[u32]) -> Result<Heap, OutOfMemory> {
        let mut states = Vec::with_capacity(alloc, priorities.len())?;
        for priority in priorities {
            states.push(State::Outside(*priority))?;
        }
        Ok(Heap {
            entries: Vec::new(alloc),
            states,
        })
    }

    /// Raises the priority of a vertex, which waits from then on. One that was taken out stays out.
    pub(crate) fn raise(&mut self, vertex: u32, by: u32) -> Result<(), OutOfMemory> {
        match self.state(vertex) {
            State::Outside(priority) => {
                let entry = Entry {
                    priority: priority.saturating_add(by),
                    vertex,
                };
                let place = self.entries.len();
                self.entries.push(entry)?;
                self.climb(place, entry);
            }
            State::Waiting(place) => {
                let place = place as usize;
                if let Some(mut entry) = self.entry(place) {
                    entry.priority = entry.priority.saturating_add(by);
                    self.climb(place, entry);
                }
            }
            State::Taken => {}
        }
        Ok(())
    }

    /// Takes out the first vertex.
    pub(crate) fn pop(&mut self) -> Option<u32> {
        let last = self.entries.pop()?;
        let first = self.entry(0).unwrap_or(last);
        self.sink(last);
        if let Some(state) = self.states.get_mut(first.vertex as usize) {
            *state = State::Taken;
        }
        Some(first.vertex)
    }

    // Puts an entry here or above, where no entry above is behind it.
    fn climb(&mut self, place: usize, entry: Entry) {
        let mut place = place;
        for _ in 0..LEVELS {
            let parent = place.saturating_sub(1) / 2;
            match self.entry(parent) {
                Some(above) if place > 0 && entry.is_before(above) => self.put(place, above),
                _ => break,
            }
            place = parent;
        }
        self.put(place, entry);
    }

    // Puts an entry at the top or below, where no entry below is before it.
    fn sink(&mut self, entry: Entry) {
        let mut place = 0;
        for _ in 0..LEVELS {
            let child = self.first_child(place);
            match self.entry(child) {
                Some(below) if below.is_before(entry) => self.put(place, below),
                _ => break,
            }
            place = child;
        }
        self.put(place, entry);
    }

    // The place of the child that comes first.
    fn first_child(&self, place: usize) -> usize {
        let left = place.saturating_mul(2).saturating_add(1);
        let right = left.saturating_add(1);
        match (self.entry(left), self.entry(right)) {
            (Some(one), Some(other)) if other.is_before(one) => right,
            _ => left,
        }
    }

    fn entry(&self, place: usize) -> Option<Entry> {
        self.entries.get(place).copied()
    }

    fn state(&self, vertex: u32) -> State {
        self.states
            .get(vertex as usize)
            .copied()
            .unwrap_or(State::Taken)
    }

    fn put(&mut self, place: usize, entry: Entry) {
        if let Some(old) = self.entries.get_mut(place) {
            *old = entry;
        }
        if let Some(state) = self.states.get_mut(entry.vertex as usize) {
            *state = State::Waiting(place.min(u32::MAX as usize) as u32);
        }
    }
}
