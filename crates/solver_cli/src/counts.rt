// What is counted of a run that is watched: the lines of a text that it reads, or the clause numbers of the proof that it writes and the
// cubes that it answers. It makes the lines that tell of it, and keeps the last bytes of a proof for an explanation.
use crate::comment::Comment;
use crate::excerpt::{Excerpt, line_ends};
use crate::notes::{binary_note, cube_note, line_note};
use crate::numbers::Numbers;
use cube_queries::Reading;
use host_io::Role;

// It is told each time so many more lines were read.
const STRIDE: u64 = 1_000_000;

/// What a run is measured by.
#[derive(Clone, Copy)]
pub enum Measure {
    /// The lines of the formula that it reads.
    Formula,
    /// The lines of the proof that it reads.
    Proof,
    /// The cubes that it answers.
    Cubes,
}

/// The counts of one run.
#[derive(Drop)]
pub struct Counts {
    measure: Measure,
    lines: u64,
    numbers: Numbers,
    // Whether the file that is counted was opened or created, and whether its last count was told.
    is_open: bool,
    is_over: bool,
    excerpt: Excerpt,
}

impl Counts {
    /// Nothing was read or written yet. An excerpt is kept where it is wanted.
    pub fn new(measure: Measure, is_wanted: bool) -> Counts {
        Counts {
            measure,
            lines: 0,
            numbers: Numbers::behind(0),
            is_open: false,
            is_over: false,
            excerpt: Excerpt::new(is_wanted),
        }
    }

    /// A file was opened or created in this role.
    pub fn open(&mut self, role: Role) {
        if self.counts(role) {
            self.is_open = true;
        }
    }

    /// Takes bytes that were read, and answers what is to be told of them.
    pub fn read(&mut self, role: Role, bytes: &[u8]) -> Option<Comment> {
        if !self.counts(role) {
            return None;
        }
        let was_binary = self.excerpt.looks_binary();
        self.excerpt.look(bytes);
        self.excerpt.pass(bytes);
        let before = self.lines;
        let lines = before.wrapping_add(line_ends(bytes));
        self.lines = lines;
        if self.excerpt.looks_binary() && !was_binary {
            Some(binary_note())
        } else if lines / STRIDE > before / STRIDE {
            Some(line_note(lines))
        } else {
            None
        }
    }

    /// Takes bytes that were written, with how far the cubes are then, and answers what is to be told of them. With the answer the last
    /// counts are.
    pub fn write(&mut self, role: Role, bytes: &[u8], reading: &Reading) -> Option<Comment> {
        if let Role::Out = role {
            return self.end(reading);
        }
        if !self.counts(role) {
            return None;
        }
        self.numbers.raise(reading.clauses);
        let number = self.numbers.take(bytes)?;
        Some(cube_note(reading, number))
    }

    /// What is to be told at the end, once, with how far the cubes are then.
    pub fn end(&mut self, reading: &Reading) -> Option<Comment> {
        if self.is_over || !self.is_open {
            return None;
        }
        self.is_over = true;
        match self.measure {
            Measure::Formula | Measure::Proof => Some(line_note(self.lines)),
            Measure::Cubes => {
                self.numbers.raise(reading.clauses);
                Some(cube_note(reading, self.numbers.last()))
            }
        }
    }

    /// Makes the excerpt that of the proof, if one was opened.
    pub fn hand_over(self, excerpt: &mut Excerpt) {
        if let (Measure::Proof, true) = (self.measure, self.is_open) {
            *excerpt = self.excerpt;
        }
    }

    fn counts(&self, role: Role) -> bool {
        match (self.measure, role) {
            (Measure::Formula, Role::Cnf)
            | (Measure::Proof, Role::ProofIn)
            | (Measure::Cubes, Role::ProofOut) => true,
            _ => false,
        }
    }
}
