// Each call of a role fails in turn, from the first to the one behind the last, where a call moves one byte and where it moves all:
// the run ends by the fault, what was written before stands, and behind the last call comes the plain answer.
ghost use Rattle.std.specs.Prelude.{◌<◌};

use crate::support::{ended, halves, number_of, part, role_of};
use std::alloc::Global;
use std::process::Abort;
use std::test::Fail;

// A piece that is longer than each text.
const WHOLE: usize = 4096;

// A row is a role and how many calls it has that move one byte each and whose failure shows; the words; what stands where a call
// fails, with a star for the role's own text behind a bar; that text as a run without failure writes it, or its front with two
// dots; what such a run leaves, or the front of it.
//
// The formula is opened, read byte by byte, and read again at its end. A proof is created, written and flushed. An answer is
// written and flushed; by then the proof is whole. Where the plan is found, the trials before touch no file. A fault of standard
// error changes no status, and that of its flush nothing at all.
const CALLS: &str = "\
    Cnf 21;bddsat solve both --proof out.lrat;ReadFault*|none|error: read failed/;|;Unsat|s UNSATISFIABLE/|3 2 -1 0 0/\n\
    Order 8;bddsat solve chain --proof out.lrat --order natural --schedule moves;ReadFault*|none|error: read failed/;|;\
    Sat|s SATISFIABLE/v 1 2 3 0/|\n\
    Buckets 8;bddsat solve chain --proof out.lrat --order natural --buckets turned;ReadFault*|none|error: read failed/;\
    |;Sat|s SATISFIABLE/v 1 2 3 0/|\n\
    Schedule 34;bddsat solve chain --proof out.lrat --order natural --schedule moves;ReadFault*|none|error: read failed/\
    ;|;Sat|s SATISFIABLE/v 1 2 3 0/|\n\
    ProofOut 124;bddsat solve both --proof out.lrat;WriteFault|*|error: write failed/;|3 2 -1 0 0/4 -2 1 0 -3 0/5 2 0 \
    3 1 0/6 3 1 0 0/7 -3 -1 0 -6 0/8 3 0 6 2 0/9 -1 -2 -3 0 7 0/10 -2 -3 0 9 4 0/11 0 5 8 10 0/;Unsat|s UNSATISFIABLE/\
    |3 2 -1 0 0/4 -2 1 0 -3 0/5 2 0 3 1 0/6 3 1 0 0/7 -3 -1 0 -6 0/8 3 0 6 2 0/9 -1 -2 -3 0 7 0/10 -2 -3 0 9 4 0/11 0 \
    5 8 10 0/|\n\
    Out 17;bddsat solve both --proof out.lrat;WriteFault*|3 2 -1 0 0/4 -2 1 0 -3 0/5 2 0 3 1 0/6 3 1 0 0/7 -3 -1 0 -6 0/\
    8 3 0 6 2 0/9 -1 -2 -3 0 7 0/10 -2 -3 0 9 4 0/11 0 5 8 10 0/|error: write failed/;|s UNSATISFIABLE/;Unsat|s \
    UNSATISFIABLE/|\n\
    Cubes 11;bddsat ask chain --cubes cubes --proof out.lrat --order natural;ReadFault*|none|error: read failed/;|;\
    Answered|c cube 1/s UNSATISFIABLE/c cube 2/s SATISFIABLE/v 1 2 3 0/|\n\
    Out 28;bddsat ask none --cubes hollow --proof out.lrat;WriteFault*||error: write failed/;|c cube 1/s SATISFIABLE/v 0/\
    ;Answered|c cube 1/s SATISFIABLE/v 0/||\n\
    ProofIn 12;bddsat check both good;ReadFault*|none|error: read failed/;|;Verified|s VERIFIED/|none|\n\
    ProofIn 8;bddsat check both hintless --format drat;ReadFault*|none|error: read failed/;|;Verified|s VERIFIED/|none|\n\
    ProofIn 12;bddsat drat both good --out out.lrat;ReadFault|*|error: read failed/;|0/;Verified|s VERIFIED/|0/|\n\
    ProofOut 4;bddsat drat both good --out out.lrat;WriteFault|*|error: write failed/;|0/;Verified|s VERIFIED/|0/|\n\
    ProofIn 4;bddsat lrat both plain --out out.lrat;ReadFault|*|error: read failed/;|3 0 1 2 0/;Verified|s VERIFIED/|3 0 1 2 0/|\n\
    ProofOut 12;bddsat lrat both plain --out out.lrat;WriteFault|*|error: write failed/;|3 0 1 2 0/;Verified|s VERIFIED/|\
    3 0 1 2 0/|\n\
    Made 155;bddsat make board 3 --part cnf --out out.lrat;WriteFault|*|error: write failed/;|p cnf 8 19/1 2 0/-1 -2 0/\
    1 3 0/-1 -3 0/4 5 0/-4 -5 0/2 4 6 7 0/-2 -4 0/-2 -6 0/-2 -7 0/-4 -6 0/-4 -7 0/-6 -7 0/3 6 0/-3 -6 0/5 8 0/-5 -8 0/\
    7 8 0/-7 -8 0/;Done||p cnf 8 19/1 2 0/-1 -2 0/1 3 0/-1 -3 0/4 5 0/-4 -5 0/2 4 6 7 0/-2 -4 0/-2 -6 0/-2 -7 0/-4 -6 0/\
    -4 -7 0/-6 -7 0/3 6 0/-3 -6 0/5 8 0/-5 -8 0/7 8 0/-7 -8 0/|\n\
    ProofOut 124;bddsat solve both --proof out.lrat --search;WriteFault|*|error: write failed/;|3 2 -1 0 0/4 -2 1 0 -3 \
    0/5 2 0 3 1 0/6 3 1 0 0/7 -3 -1 0 -6 0/8 3 0 6 2 0/9 -1 -2 -3 0 7 0/10 -2 -3 0 9 4 0/11 0 5 8 10 0/;Unsat|s \
    UNSATISFIABLE/|3 2 -1 0 0/4 -2 1 0 -3 0/5 2 0 3 1 0/6 3 1 0 0/7 -3 -1 0 -6 0/8 3 0 6 2 0/9 -1 -2 -3 0 7 0/10 -2 -3 \
    0 9 4 0/11 0 5 8 10 0/|\n\
    Made 8;bddsat order chain --by levels --out out.lrat;WriteFault|*|error: write failed/;|1 2 3/;Done||1 2 3/|\n\
    Err 17;bddsat solve a --proof a;Usage||none*;|error: bad usage/;Usage||none|error: bad usage/\n\
    Out 1385;bddsat solve --help;WriteFault*|none|error: write failed/;|Decide FILE and write the proof ..;\
    Help|Decide FILE and write the proof ";

// What was written stands, and nothing else but the fault is told. No file is there where its creation failed.
fn is_cut(row: &str, found: &str, number: u64) -> bool {
    let (before, after) = halves(part(row, ';', 2), '*');
    match inner(found, before, after) {
        Some(own) => is_front(own, part(row, ';', 3)) || number == 1 && own == "|none",
        None => false,
    }
}

fn inner<'a>(text: &'a str, before: &str, after: &str) -> Option<&'a str> {
    match text.strip_prefix(before) {
        Some(rest) => rest.strip_suffix(after),
        None => None,
    }
}

// Whether a text is a front of the other one; of one that ends in two dots only a front is known.
fn is_front(own: &str, text: &str) -> bool {
    match text.strip_suffix("..") {
        Some(front) => front.starts_with(own) || own.starts_with(front),
        None => text.starts_with(own),
    }
}

// Whether the role has a call of this number, which failed then. Else the answer is the plain one.
fn is_met(
    rt: &impl Abort,
    alloc: Global,
    row: &str,
    piece: usize,
    number: u64,
) -> Result<bool, Fail>
    requires { 0 < piece }
{
    let found = ended(alloc, part(row, ';', 1), piece, role_of(row), number)?;
    let is_plain = found.as_str().starts_with(part(row, ';', 4));
    assert!(rt;
        is_plain || is_cut(row, found.as_str(), number),
        "{number} {found}"
    );
    Ok(!is_plain)
}

// How many calls the role has, at most so many. Each fails in turn.
fn calls_met(
    rt: &impl Abort,
    alloc: Global,
    row: &str,
    piece: usize,
    most: u64,
) -> Result<u64, Fail>
    requires { 0 < piece }
{
    for before in 0..=most {
        if !is_met(rt, alloc, row, piece, before.saturating_add(1))? {
            return Ok(before);
        }
    }
    Ok(u64::MAX)
}

fn expect_calls(rt: &impl Abort, alloc: Global, row: &str) -> Result<(), Fail> {
    let calls = number_of(part(row, ';', 0));
    let single = calls_met(rt, alloc, row, 1, calls)?;
    let whole = calls_met(rt, alloc, row, WHOLE, calls)?;
    assert!(rt;
        single == calls && 0 < whole && whole < calls,
        "{single} {whole} {row}"
    );
    Ok(())
}

#[test]
fn calls(rt: HostRuntime) -> Result<(), Fail> {
    for row in CALLS.lines() {
        expect_calls(&rt, rt.alloc(), row)?;
    }
    Ok(())
}
