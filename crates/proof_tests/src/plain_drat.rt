// The plain judge of DRAT steps: one list of clauses, and passes of unit propagation over all of them until nothing changes. It is what tests
// hold the judge with watched literals against.
use cnf_base::OutOfMemory;
use drat_rules::Deletions;
use lrat_rules::Reason;
use std::alloc::Global;

// More passes aren't needed where fewer literals occur.
const MOST_PASSES: u32 = 64;

/// The literals of the clauses that stand, with a zero behind each clause; and those that are false.
#[derive(Drop)]
pub struct PlainJudge {
    clauses: Vec<i32>,
    falses: Vec<i32>,
}

impl PlainJudge {
    pub fn new(alloc: Global) -> Self {
        PlainJudge {
            clauses: Vec::new(alloc),
            falses: Vec::new(alloc),
        }
    }

    /// The clause at a place, from 0, where there is one.
    pub fn clause(&self, place: u64) -> Option<&[i32]> {
        let mut start = 0;
        for _ in 0..place {
            let own = clause_from(self.clauses.as_slice(), start)?;
            start = behind(start, own);
        }
        clause_from(self.clauses.as_slice(), start)
    }

    /// Puts a literal behind the others, or the zero of a clause.
    pub fn put(&mut self, number: i32) -> Result<(), OutOfMemory> {
        self.clauses.push(number)?;
        Ok(())
    }

    /// Why the clause isn't good, or nothing: then it is added.
    pub fn add(&mut self, clause: &[i32]) -> Result<Option<Reason>, OutOfMemory> {
        let fault = fault(self.clauses.as_slice(), &mut self.falses, clause)?;
        if fault.is_none() {
            self.clauses.extend_from_slice(clause)?;
            self.clauses.push(0)?;
        }
        Ok(fault)
    }

    /// The first clause that is told to be this one goes.
    pub fn delete(&mut self, deletions: Deletions, clause: &[i32]) {
        let mut start = 0;
        for _ in 0..self.clauses.len() {
            let Some(own) = clause_from(self.clauses.as_slice(), start) else {
                return;
            };
            let end = behind(start, own);
            if is_same(deletions, own, clause) {
                return cut_out(&mut self.clauses, start, end);
            }
            start = end;
        }
    }
}

// The clause whose first literal stands here.
fn clause_from(numbers: &[i32], start: usize) -> Option<&[i32]> {
    let rest = numbers.get(start..)?;
    let length = rest.iter().position(|number| *number == 0)?;
    rest.get(..length)
}

// The place behind a clause and its zero.
fn behind(start: usize, clause: &[i32]) -> usize {
    start.saturating_add(clause.len()).saturating_add(1)
}

fn cut_out(numbers: &mut Vec<i32>, start: usize, end: usize) {
    for _ in start..end {
        if start < numbers.len() {
            numbers.remove(start);
        }
    }
}

fn is_same(deletions: Deletions, clause: &[i32], other: &[i32]) -> bool {
    match deletions {
        Deletions::ByList => clause == other,
        Deletions::BySet => has_all(clause, other) && has_all(other, clause),
    }
}

fn has_all(clause: &[i32], literals: &[i32]) -> bool {
    for literal in literals {
        if !clause.contains(literal) {
            return false;
        }
    }
    true
}

fn fault(
    clauses: &[i32],
    falses: &mut Vec<i32>,
    clause: &[i32],
) -> Result<Option<Reason>, OutOfMemory> {
    if refutes(clauses, falses, clause, &[], 0)? {
        return Ok(None);
    }
    match clause.first() {
        None => Ok(Some(Reason::NoConflict)),
        Some(pivot) => candidates_fault(clauses, falses, clause, pivot.wrapping_neg()),
    }
}

fn candidates_fault(
    clauses: &[i32],
    falses: &mut Vec<i32>,
    clause: &[i32],
    negated: i32,
) -> Result<Option<Reason>, OutOfMemory> {
    let mut start = 0;
    for _ in 0..clauses.len() {
        let Some(other) = clause_from(clauses, start) else {
            return Ok(None);
        };
        start = behind(start, other);
        if other.contains(&negated) && !refutes(clauses, falses, clause, other, negated)? {
            return Ok(Some(Reason::CandidateOpen));
        }
    }
    Ok(None)
}

// Whether propagation comes to a conflict from the literals of a clause and of another one, but for one of that.
fn refutes(
    clauses: &[i32],
    falses: &mut Vec<i32>,
    clause: &[i32],
    other: &[i32],
    but: i32,
) -> Result<bool, OutOfMemory> {
    falses.clear();
    if assume(falses, clause, 0)? {
        return Ok(true);
    }
    if assume(falses, other, but)? {
        return Ok(true);
    }
    for _ in 0..MOST_PASSES {
        let count = falses.len();
        if pass(clauses, falses)? {
            return Ok(true);
        }
        if falses.len() == count {
            return Ok(false);
        }
    }
    Ok(false)
}

// Makes a clause's literals false, but for one. The answer is whether that of one is already.
fn assume(falses: &mut Vec<i32>, clause: &[i32], but: i32) -> Result<bool, OutOfMemory> {
    for literal in clause {
        if *literal == but {
            continue;
        }
        if falses.contains(&literal.wrapping_neg()) {
            return Ok(true);
        }
        falses.push(*literal)?;
    }
    Ok(false)
}

// Makes the negation of each literal false that is the only open one of a clause. The answer is whether a clause has none.
fn pass(clauses: &[i32], falses: &mut Vec<i32>) -> Result<bool, OutOfMemory> {
    let mut open = 0;
    let mut is_unit = true;
    for number in clauses {
        if *number != 0 {
            if !falses.contains(number) {
                is_unit = open == 0 || is_unit && open == *number;
                open = *number;
            }
            continue;
        }
        if open == 0 {
            return Ok(true);
        }
        let negated = open.wrapping_neg();
        if is_unit && !falses.contains(&negated) {
            falses.push(negated)?;
        }
        open = 0;
        is_unit = true;
    }
    Ok(false)
}
