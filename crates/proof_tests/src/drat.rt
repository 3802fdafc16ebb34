// The judge of DRAT steps beside the plain one, on steps that are drawn: over four variables, with units, repetitions and tautologies, and
// deletions that mostly hit.
ghost use Rattle.std.specs.Prelude.{◌<◌};

use crate::plain_drat::PlainJudge;
use cnf_base::{Cnf, Lit, LitList, OutOfMemory};
use dimacs_reader::{Mode, read_cnf};
use drat_checker::DratJudge;
use drat_rules::Deletions;
use drat_text::DratStep;
use host_io::SliceSource;
use lrat_rules::Reason;
use std::alloc::Global;
use std::process::Abort;
use std::test::Fail;

const HEADER: &str = "p cnf 4 6 ";

const CLAUSES: &str = "1 2 3 0 -1 -2 0 2 -3 4 0 -4 -4 1 0 3 -3 2 0 -2 3 0";

// A row of drawn numbers. (Knuth: The Art of Computer Programming 2, 3.3.4: linear congruence.)
#[derive(Drop)]
struct Draw {
    state: u64,
}

impl Draw {
    // The next number, below a bound.
    fn below(&mut self, bound: u64) -> u64
        requires { 0 < bound }
        ensures { result < bound }
    {
        self.state = self
            .state
            .wrapping_mul(6364136223846793005)
            .wrapping_add(1442695040888963407);
        (self.state >> 33) % bound
    }

    fn literal(&mut self) -> i32 {
        let var = self.below(4) as i32 + 1;
        if self.below(2) == 0 { var } else { -var }
    }

    // A clause of at most three literals, one in sixteen empty.
    fn clause(&mut self, clause: &mut Vec<i32>) -> Result<(), OutOfMemory> {
        clause.clear();
        if self.below(16) == 0 {
            return Ok(());
        }
        for _ in 0..self.below(3) + 1 {
            clause.push(self.literal())?;
        }
        Ok(())
    }

    // Mostly a clause that stands, half of them in another order.
    fn deletion(&mut self, clause: &mut Vec<i32>, plain: &PlainJudge) -> Result<(), OutOfMemory> {
        match plain.clause(self.below(12)) {
            None => self.clause(clause),
            Some(own) => turn(clause, own, self.below(2) == 0),
        }
    }
}

// The literals of a clause, where it is asked for the last one in front.
fn turn(clause: &mut Vec<i32>, own: &[i32], turns: bool) -> Result<(), OutOfMemory> {
    clause.clear();
    clause.extend_from_slice(own)?;
    if !turns {
        return Ok(());
    }
    if let Some(last) = clause.pop() {
        clause.insert(0, last)?;
    }
    Ok(())
}

fn lits_of(alloc: Global, numbers: &[i32]) -> Result<LitList, Fail> {
    let mut lits = LitList::new(alloc);
    for number in numbers {
        lits.push(Lit::new(*number).ok_or("no literal")?)?;
    }
    Ok(lits)
}

fn added(
    alloc: Global,
    judge: &mut DratJudge,
    deletions: Deletions,
    numbers: &[i32],
) -> Result<Option<Reason>, Fail> {
    let lits = lits_of(alloc, numbers)?;
    Ok(judge.step(deletions, &DratStep::Add { lits })?)
}

fn deleted(
    alloc: Global,
    judge: &mut DratJudge,
    deletions: Deletions,
    numbers: &[i32],
) -> Result<Option<Reason>, Fail> {
    let lits = lits_of(alloc, numbers)?;
    Ok(judge.step(deletions, &DratStep::Delete { lits })?)
}

// Both judges answer the same to a step, which is drawn into a clause.
fn same_answer(
    rt: &impl Abort,
    alloc: Global,
    deletions: Deletions,
    draw: &mut Draw,
    clause: &mut Vec<i32>,
    judge: &mut DratJudge,
    plain: &mut PlainJudge,
) -> Result<(), Fail> {
    if draw.below(3) == 0 {
        draw.deletion(clause, plain)?;
        plain.delete(deletions, clause.as_slice());
        let answer = deleted(alloc, judge, deletions, clause.as_slice())?;
        assert!(rt; answer.is_none());
        return Ok(());
    }
    draw.clause(clause)?;
    let answer = added(alloc, judge, deletions, clause.as_slice())?;
    assert!(rt; answer == plain.add(clause.as_slice())?);
    Ok(())
}

// And to each of some steps.
fn same_answers(
    rt: &impl Abort,
    alloc: Global,
    deletions: Deletions,
    seed: u64,
    judge: &mut DratJudge,
    plain: &mut PlainJudge,
) -> Result<(), Fail> {
    let mut draw = Draw { state: seed };
    let mut clause = Vec::new(alloc);
    for _ in 0..40 {
        same_answer(rt, alloc, deletions, &mut draw, &mut clause, judge, plain)?;
    }
    Ok(())
}

fn formula(alloc: Global) -> Result<Cnf, Fail> {
    let text = format!(in alloc; "{HEADER}{CLAUSES}")?;
    let mut source = SliceSource::new(text.as_bytes(), 64);
    match read_cnf(alloc, &mut source, Mode::Strict) {
        Ok(formula) => Ok(formula),
        Err(_) => Err(Fail::from("no formula")),
    }
}

fn plain(alloc: Global) -> Result<PlainJudge, Fail> {
    let mut plain = PlainJudge::new(alloc);
    for word in CLAUSES.split_whitespace() {
        plain.put(word.parse::<i32>()?)?;
    }
    Ok(plain)
}

// (Each exit that lets a judge go is dear for the prover.)
fn same_beside(
    rt: &impl Abort,
    alloc: Global,
    formula: &Cnf,
    deletions: Deletions,
    seed: u64,
    plain: &mut PlainJudge,
) -> Result<(), Fail> {
    let mut judge = DratJudge::open(alloc, formula)?;
    same_answers(rt, alloc, deletions, seed, &mut judge, plain)
}

fn same_from(
    rt: &impl Abort,
    alloc: Global,
    formula: &Cnf,
    deletions: Deletions,
    seed: u64,
) -> Result<(), Fail> {
    let mut plain = plain(alloc)?;
    same_beside(rt, alloc, formula, deletions, seed, &mut plain)
}

#[test]
fn both_judges(rt: HostRuntime) -> Result<(), Fail> {
    let formula = formula(rt.alloc())?;
    for seed in 0..100 {
        same_from(&rt, rt.alloc(), &formula, Deletions::ByList, seed)?;
        same_from(&rt, rt.alloc(), &formula, Deletions::BySet, seed)?;
    }
    Ok(())
}
