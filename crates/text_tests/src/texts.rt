// What is read: tokens, formulas, orders, cubes, schedules and the first step of a proof, in pieces of one byte and whole. The expected
// answers are those of the formats' rules.
use crate::support::{
    cut, push_clauses, push_cubes, push_ids, push_literals, push_moves, push_order, text_of,
};
use cnf_base::{Cnf, OutOfMemory, Step};
use cube_text::read_cubes;
use dimacs_reader::{Mode, read_cnf};
use host_io::SliceSource;
use lrat_text::{StepError, StepReader};
use schedule_plan::{Order, Plan};
use std::alloc::{AllocError, Global};
use std::fmt::Display;
use std::process::Abort;
use std::test::Fail;
use text_scan::{Scanner, Token};

// Each variable follows from the next, and the last is true.
const FORMULA: &[u8] = b"p cnf 3 3\n1 -2 0\n2 -3 0\n3 0";

// A format, a text, and what it is. Each token stands behind its line, a long one marked; a formula behind the number of its variables;
// an order and cubes are of three variables; a schedule is one for the formula above. A step is told by its line, its number, `+` with
// the literals and the positive hints, or `-` with the numbers. Behind tokens stands the end or the error, and which line is told. Behind
// `=` stands how many bytes the text may have. The last row has the texts of errors that no text leads to.
const TEXTS: &str = "\
tokens=9;; end 1
tokens=9;/ \t\r/; end 3
tokens=9;p cnf/ 1; 1:p 1:cnf 2:1 end 2
tokens=9;1\r/\r/2\r/; 1:1 3:2 end 4
tokens=99;c x/1 c/\tcc y/2/; 2:1 2:c 4:2 end 5
tokens=9;1/cc; 1:1 end 2
tokens=4;1 2 3; 1:1 1:2 the text is too long 1
tokens=4;1 23; 1:1 1:23 end 1
tokens=3;12 3; 1:12 the text is too long 1
tokens=2;12 3; the text is too long 1
tokens=3;1//2; 1:1 the text is too long 3
tokens=5;c/c 2/3; the text is too long 2
tokens=0;a; the text is too long 1
tokens=0;; end 1
tokens=99;1234567890123456789012345678901234567890123456789012345678901234; 1:1234567890123456789012345678901234567890123456789012345678901234 end 1
tokens=99;12345678901234567890123456789012345678901234567890123456789012345; 1:1234567890123456789012345678901234567890123456789012345678901234* end 1
tokens=99;123456789012345678901234567890123456789012345678901234567890123455; 1:1234567890123456789012345678901234567890123456789012345678901234* end 1
tokens=99;1234567890123456789012345678901234567890123456789012345678901234555; 1:1234567890123456789012345678901234567890123456789012345678901234* end 1
strict;p cnf 0 0/;0:
strict;p cnf 0 1/0/;0: 0
strict;p cnf 2 1/1 -1 0/;2: 1 -1 0
strict;p cnf 2 2\r/1\r/c note\r/2 0\r/-1 0\r/%\r/0\r/;2: 1 2 0 -1 0
strict;c/ p\tcnf/ 3 /3/1 -2 0 2/-3 0 3 0;3: 1 -2 0 2 -3 0 3 0
strict;p cnf 1 3/1 1 0 1 1 0 0/;1: 1 1 0 1 1 0 0
strict;p cnf 1 1/1 0/%/x;1: 1 0
strict;p cnf 007 1/-0007 00/;7: -7 0
strict;p cnf 1000000 0;1000000:
strict;p cnf 2 1/1 2/;line 3: NoEndingZero
strict;p cnf 2 2/1 0/;line 3: ClauseMissing
strict;p cnf 1 0/1 0/-1 0/;line 2: TooManyClauses
strict;p cnf 1 0/2;line 2: TooManyClauses
strict;p cnf 1 1/1 0/x/;line 3: BadToken
lax;p cnf 0 0/;0:
lax;p cnf 0 1/0/;0: 0
lax;p cnf 2 1/1 -1 0/;2: 1 -1 0
lax;p cnf 2 2\r/1\r/c note\r/2 0\r/-1 0\r/%\r/0\r/;2: 1 2 0 -1 0
lax;c/ p\tcnf/ 3 /3/1 -2 0 2/-3 0 3 0;3: 1 -2 0 2 -3 0 3 0
lax;p cnf 1 3/1 1 0 1 1 0 0/;1: 1 1 0 1 1 0 0
lax;p cnf 1 1/1 0/%/x;1: 1 0
lax;p cnf 007 1/-0007 00/;7: -7 0
lax;p cnf 1000000 0;1000000:
lax;p cnf 2 1/1 2/;2: 1 2 0
lax;p cnf 2 2/1 0/;2: 1 0
lax;p cnf 1 0/1 0/-1 0/;1: 1 0 -1 0
lax;p cnf 1 0/2;line 2: LiteralRange
lax;p cnf 1 1/1 0/x/;line 3: BadToken
lax;;line 1: NoHeader
lax;p;line 1: BadHeader
lax;p ;line 1: BadHeader
lax;p c;line 1: BadHeader
lax;p cn;line 1: BadHeader
lax;p cnf;line 1: BadHeader
lax;p cnf ;line 1: BadHeader
lax;p cnf 2;line 1: BadHeader
lax;p cnf 2 ;line 1: BadHeader
lax;p cnf 2 9;2:
lax;p cnf 2 9/;2:
lax;p cnf 2 9/1;2: 1 0
lax;p cnf 2 9/1 ;2: 1 0
lax;p cnf 2 9/1 -;line 2: BadToken
lax;p cnf 2 9/1 -2;2: 1 -2 0
lax;p cnf 2 9/1 -2 ;2: 1 -2 0
lax;p cnf 2 9/1 -2 0;2: 1 -2 0
lax;p cnf 2 9/1 -2 0/;2: 1 -2 0
lax;p cnf 2 9/1 -2 0/2;2: 1 -2 0 2 0
lax;p cnf 2 9/1 -2 0/2/;2: 1 -2 0 2 0
order;3 2 1/;[3, 2, 1]
order;# top first/2 003/ # x/1;[2, 3, 1]
order;2 1 1/;line 1: Repeated
order;2 1/;line 2: Missing
order;2 1 4/;line 1: Range
order;2 x 1/;line 1: BadNumber
order;2 1/3 0/;line 2: Range
order;-1 2 3/;line 1: BadNumber
order;1 2 3 3/;line 1: Repeated
order;;line 1: Missing
cubes;;
cubes;# none but this/0/; 0
cubes;1 -2 0/3 0 0/; 1 -2 0 3 0 0
cubes;1/# between/ 2\r/0 -3 0; 1 2 0 -3 0
cubes;1 1 02 0; 1 1 2 0
cubes;1 0 -1 0; 1 0 -1 0
cubes;1 2 -1 0;line 1: BothSigns
cubes;1 -2 0/-3 2/3 0/;line 3: BothSigns
cubes;1 0/-4 0/;line 2: LiteralRange
cubes;1 0/2/;line 3: NoEndingZero
cubes;1 0/% 0/;line 2: BadToken
schedule;c 1/q 1/c 2/a 2/q 2/c 3/a 2/q 3/;Push(1) Exists(1) Push(2) And Exists(2) Push(3) And Exists(3) 
schedule;# all at once// c 3 1 002/  # a/a 3/q 3 1 2;Push(3) Push(1) Push(2) And And Exists(3) Exists(1) Exists(2) 
schedule;c 1/q 1 1/c 2 3/a 2/a 2/;Push(1) Exists(1) Exists(1) Push(2) Push(3) And And 
schedule;c/;line 1: Syntax
schedule;c 1 2/a 1/;line 2: Syntax
schedule;c 1 2/a 2 2/;line 2: Syntax
schedule;q/;line 1: Syntax
schedule;cc 1/;line 1: Syntax
schedule;c 9 x/;line 1: Syntax
schedule;/c -1/;line 2: Syntax
schedule;c 0/;line 1: ClauseRange
schedule;c 1/c 4/;line 2: ClauseRange
schedule;c 99999999999999999999999999/;line 1: ClauseRange
schedule;c 1 4 1/;line 1: ClauseRange
schedule;c 1 2/# c 2/c 2/;line 3: ClauseTwice
schedule;c 1 1 4/;line 1: ClauseTwice
schedule;a 2/;line 1: StackShort
schedule;c 1 2/a 3/;line 2: StackShort
schedule;c 1 2/a 99999999999999999999999999/;line 2: StackShort
schedule;q 1/;line 1: StackShort
schedule;q 4/;line 1: StackShort
schedule;c 1 2 3/a 3/q 4/;line 3: VariableRange
schedule;c 1 2 3/a 3/q 1 0/;line 3: VariableRange
schedule;c 1/q 2/;line 2: VariableInUse
schedule;c 1 2/q 2/;line 2: VariableInUse
schedule;c 1 2/q 1 3/;line 2: VariableInUse
schedule;c 1 2 3/a 3/e 3 1 2/;Push(1) Push(2) Push(3) And And ExistsAll(Variables { numbers: [3, 1, 2] }) 
schedule;c 1 2 3/a 3/e 1 1/;Push(1) Push(2) Push(3) And And ExistsAll(Variables { numbers: [1, 1] }) 
schedule;c 1/e 1/c 2/a 2/q 2/c 3/a 2/e 3/;Push(1) ExistsAll(Variables { numbers: [1] }) Push(2) And Exists(2) Push(3) And ExistsAll(Variables { numbers: [3] }) 
schedule;e/;line 1: Syntax
schedule;c 1/e x/;line 2: Syntax
schedule;e 1/;line 1: StackShort
schedule;e 1 9/;line 1: StackShort
schedule;c 1 2 3/a 3/e 4/;line 3: VariableRange
schedule;c 1/e 2 9/;line 2: VariableRange
schedule;c 1/e 99999999999999999999999999 2/;line 2: VariableRange
schedule;c 1/e 1 2/;line 2: VariableInUse
schedule;c 1 2 3/a 2/e 1 2/;line 3: VariableInUse
schedule;c 1 2/a 2/;line 3: ClauseUnused
schedule;c 1 2/;line 2: ClauseUnused
schedule;;line 1: ClauseUnused
schedule;c 1 2 3//a 2/;line 4: TermsLeft
step=99;6 -4 1 3 0 7 -4 8 -5 0; 1:6 + -4 1 3 | 7
step=99;/c x/3 d 2 0; 3:3 - 2
step=99;/;no step
step=99;3 d -1 0;line 1 is no step of a proof
step=5;1 0 0/;the text is too long
memory;;out of memory, out of memory";

// The same, where a read of the last byte would fail. The byte behind the deciding token was read; a line of a schedule is judged
// by the token behind it and one byte more. A token is given once it is ended, a step once the token behind its line is.
const DECIDED: &str = "\
tokens=99;1/2 3 4; 1:1 2:2 2:3 a read failed 2
strict;q 1;line 1: NoHeader
strict;p dnf 1;line 1: BadHeader
strict;p cnf x 1;line 1: BadHeader
strict;p cnf 1000001 1;line 1: Limit
strict;p cnf 1 x 1;line 1: BadHeader
strict;p cnf 1 10000001 1;line 1: Limit
strict;p cnf 1 1/x 1;line 2: BadToken
strict;p cnf 1 1/2 1;line 2: LiteralRange
strict;p cnf 1 1/1 0 0 1;line 2: TooManyClauses
strict;p cnf 1 1/1 % 1;line 2: NoEndingZero
strict;p cnf 1 1/% 1;line 2: ClauseMissing
strict;p cnf 1 1/1 0/% 1;1: 1 0
lax;q 1;line 1: NoHeader
lax;p dnf 1;line 1: BadHeader
lax;p cnf x 1;line 1: BadHeader
lax;p cnf 1000001 1;line 1: Limit
lax;p cnf 1 x 1;line 1: BadHeader
lax;p cnf 1 10000001 1;line 1: Limit
lax;p cnf 1 1/x 1;line 2: BadToken
lax;p cnf 1 1/2 1;line 2: LiteralRange
lax;p cnf 1 1/1 0 0 1;a read failed
lax;p cnf 1 1/1 % 1;1: 1 0
lax;p cnf 1 1/% 1;1:
lax;p cnf 1 1/1 0/% 1;1: 1 0
order;2 x 1;line 1: BadNumber
order;4 1;line 1: Range
order;2/2 1;line 2: Repeated
cubes;1 0 x 1;line 1: BadToken
cubes;1/4 1;line 2: LiteralRange
cubes;1 2/-1 0;line 2: BothSigns
schedule;c 4/a 2;line 1: ClauseRange
schedule;# x/q 1/c 1;line 2: StackShort
schedule;c 1/q 2/x x;line 2: VariableInUse
step=99;3 1 0 2 0/4 d; 1:3 + 1 | 2
step=99;3 1 0 2 0/4;a read failed";

// Numbers that lie in what was read, with at least 11 bytes from there on, are taken at once: their line stands before a sign of equality.
const NUMBERS: &str = "\
numbers;12 -7 x/5 07 -0 -y 1 c/c 3 in a comment/44 ; 1:12 1=-7 1:x 2=5 2=7 2:-0 2:-y 2=1 2:c 4:44 end 4
numbers;1 0 +2 3x 4-/-/c 3 in a comment/8; 1:1 1=0 1:+2 1:3x 1:4- 2:- 4:8 end 4
numbers;1 2 3 4 5 6 7 8 9 100 ; 1:1 1=2 1=3 1=4 1=5 1=6 1:7 1:8 1:9 1:100 end 1
numbers;1 99999999 999999999 1000000000 1000000000000000000/; 1:1 1=99999999 1=999999999 1:1000000000 1:1000000000000000000 end 2
numbers;1 0000000000000000000000000000000000000000000000000000000000000000000007 0000000007 000000007/ ; \
1:1 1:0000000000000000000000000000000000000000000000000000000000000000* 1:0000000007 1=7 end 2";

fn push_token(out: &mut String, token: &Token) -> Result<(), AllocError> {
    let line = token.line();
    let text = str::from_utf8(token.bytes()).unwrap_or("no text");
    let mark = if token.is_long() { "*" } else { "" };
    write!(out, " {line}:{text}{mark}")
}

fn push_end<E: Display + Drop>(
    out: &mut String,
    error: Option<E>,
    line: u64,
) -> Result<(), AllocError> {
    match error {
        None => write!(out, " end {line}"),
        Some(error) => write!(out, " {error} {line}"),
    }
}

// The next number of this line or of a later one, with its line.
fn next_number(scanner: &mut Scanner) -> Option<(u64, i64)> {
    let line = scanner.line();
    let mut places = [0; 1];
    if scanner.numbers_on(line, &mut places) == 1 {
        return Some((line, places[0]));
    }
    let number = scanner.number_past(line)?;
    Some((scanner.line(), number))
}

fn push_numbers(out: &mut String, scanner: &mut Scanner) -> Result<(), AllocError> {
    for _ in 0..100 {
        match next_number(scanner) {
            Some((line, number)) => write!(out, " {line}={number}")?,
            None => return Ok(()),
        }
    }
    Ok(())
}

// The tokens, where it is asked for with the numbers that can be taken at once.
fn push_tokens(
    out: &mut String,
    mut scanner: Scanner,
    source: &mut SliceSource,
    has_numbers: bool,
) -> Result<(), AllocError> {
    for _ in 0..100 {
        if has_numbers {
            push_numbers(out, &mut scanner)?;
        }
        match scanner.next(source) {
            Ok(Some(token)) => push_token(out, &token)?,
            end => return push_end(out, end.err(), scanner.line()),
        }
    }
    Ok(())
}

fn push_cnf(out: &mut String, formula: &Cnf) -> Result<(), AllocError> {
    let vars = formula.vars();
    write!(out, "{vars}:")?;
    push_clauses(out, formula)
}

fn formula(
    alloc: Global,
    out: &mut String,
    mode: Mode,
    source: &mut SliceSource,
) -> Result<(), AllocError> {
    match read_cnf(alloc, source, mode) {
        Ok(formula) => push_cnf(out, &formula),
        Err(error) => write!(out, "{error}"),
    }
}

fn order(alloc: Global, out: &mut String, source: &mut SliceSource) -> Result<(), AllocError> {
    match Order::read(alloc, 3, source) {
        Ok(order) => push_order(out, &order),
        Err(error) => write!(out, "{error}"),
    }
}

fn cubes(alloc: Global, out: &mut String, source: &mut SliceSource) -> Result<(), AllocError> {
    match read_cubes(alloc, 3, source) {
        Ok(cubes) => push_cubes(out, &cubes),
        Err(error) => write!(out, "{error}"),
    }
}

fn plan_for(
    alloc: Global,
    out: &mut String,
    formula: &Cnf,
    source: &mut SliceSource,
) -> Result<(), AllocError> {
    match Plan::read(alloc, formula, source) {
        Ok(plan) => push_moves(out, &plan),
        Err(error) => write!(out, "{error}"),
    }
}

fn schedule(alloc: Global, out: &mut String, source: &mut SliceSource) -> Result<(), AllocError> {
    let mut text = SliceSource::new(FORMULA, usize::MAX);
    match read_cnf(alloc, &mut text, Mode::Strict) {
        Ok(formula) => plan_for(alloc, out, &formula, source),
        Err(error) => write!(out, "no formula: {error}"),
    }
}

fn push_step(out: &mut String, step: &Step, line: u64) -> Result<(), AllocError> {
    match step {
        Step::Add { id, lits, pos, .. } => {
            let id = id.get();
            write!(out, " {line}:{id} +")?;
            push_literals(out, lits.as_slice())?;
            out.push_str(" |")?;
            push_ids(out, pos.as_slice())
        }
        Step::Delete { id, ids } => {
            let id = id.get();
            write!(out, " {line}:{id} -")?;
            push_ids(out, ids.as_slice())
        }
    }
}

fn push_first(
    out: &mut String,
    reader: &mut StepReader,
    source: &mut SliceSource,
) -> Result<(), AllocError> {
    match reader.next(source) {
        Ok(Some((step, line))) => push_step(out, &step, line),
        Ok(None) => out.push_str("no step"),
        Err(error) => write!(out, "{error}"),
    }
}

fn first_step(
    alloc: Global,
    out: &mut String,
    limit: u32,
    source: &mut SliceSource,
) -> Result<(), AllocError> {
    let mut reader = StepReader::new(alloc, u64::from(limit));
    push_first(out, &mut reader, source)
}

fn push_answer(
    alloc: Global,
    out: &mut String,
    format: &str,
    limit: u32,
    source: &mut SliceSource,
) -> Result<(), AllocError> {
    match format {
        "tokens" => push_tokens(out, Scanner::new(b'c', u64::from(limit)), source, false),
        "numbers" => push_tokens(out, Scanner::new(b'c', 999), source, true),
        "strict" => formula(alloc, out, Mode::Strict, source),
        "lax" => formula(alloc, out, Mode::Lax, source),
        "order" => order(alloc, out, source),
        "cubes" => cubes(alloc, out, source),
        "schedule" => schedule(alloc, out, source),
        "step" => first_step(alloc, out, limit, source),
        _ => write!(out, "{OutOfMemory}, {}", StepError::OutOfMemory),
    }
}

// The format's name, and how many bytes the text may have.
fn name_and_limit(format: &str) -> (&str, u32) {
    match format.split_once('=') {
        Some((name, limit)) => (name, limit.parse::<u32>().unwrap_or(0)),
        None => (format, 0),
    }
}

// The answer, and how many reads failed.
fn is_answer(given: &str, source: &SliceSource, wanted: &str) -> bool {
    let faults = if wanted.contains("a read failed") {
        1
    } else {
        0
    };
    given == wanted && source.faults() == faults
}

fn expect_answer(
    rt: &impl Abort,
    alloc: Global,
    format: &str,
    source: &mut SliceSource,
    wanted: &str,
) -> Result<(), AllocError> {
    let (name, limit) = name_and_limit(format);
    let mut given = String::new(alloc);
    push_answer(alloc, &mut given, name, limit, source)?;
    assert!(rt;
        is_answer(given.as_str(), source, wanted),
        "{given} for {wanted}"
    );
    Ok(())
}

// A read gives at most so many bytes, and fails where so many are left.
fn expect_row(
    rt: &impl Abort,
    alloc: Global,
    row: &str,
    piece: usize,
    left: Option<usize>,
) -> Result<(), Fail> {
    let (format, rest) = cut(row)?;
    let (text, wanted) = cut(rest)?;
    let text = text_of(alloc, text)?;
    let mut source = SliceSource::new(text.as_bytes(), piece);
    source.fail_at(left);
    Ok(expect_answer(rt, alloc, format, &mut source, wanted)?)
}

fn expect_rows(
    rt: &impl Abort,
    alloc: Global,
    rows: &str,
    piece: usize,
    left: Option<usize>,
) -> Result<(), Fail> {
    for row in rows.lines() {
        expect_row(rt, alloc, row, piece, left)?;
    }
    Ok(())
}

#[test]
fn texts_in_pieces(rt: HostRuntime) -> Result<(), Fail> {
    expect_rows(&rt, rt.alloc(), TEXTS, 1, None)?;
    expect_rows(&rt, rt.alloc(), TEXTS, usize::MAX, None)
}

#[test]
fn numbers_at_once(rt: HostRuntime) -> Result<(), Fail> {
    expect_rows(&rt, rt.alloc(), NUMBERS, usize::MAX, None)
}

#[test]
fn reads_no_further(rt: HostRuntime) -> Result<(), Fail> {
    expect_rows(&rt, rt.alloc(), DECIDED, 1, Some(1))
}
