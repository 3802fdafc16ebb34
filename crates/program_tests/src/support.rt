// What the tests share: hosts in memory, lists of words, parts of rows, and what a run left, as one line of text.
ghost use Rattle.std.specs.Prelude.{◌≡◌, ◌<◌, IfOk, OnOk};
ghost use Rattle.host_io.specs.declared.role.Role.{Role};
ghost use Rattle.host_io.specs.Memory.{channel_of, fresh};

use host_io::{FailingHost, MemoryHost, Role};
use solver_cli::{Status, run};
use std::alloc::Global;
use std::process::Abort;
use std::test::Fail;

// The files that lie there, each with a slash for each line end.
const FILES: &str = "\
both=p cnf 1 2/1 0/-1 0/
chain=p cnf 3 3/1 -2 0/2 -3 0/3 0/
empty=p cnf 0 1/0/
none=p cnf 0 0/
tautology=p cnf 2 1/1 -1 0/
cubes=-1 0/3 0/
hollow=0/
split=1 -1 0/
good=3 0 1 2 0/
bad=3 0 1 0/
worse=3 0 1 2 0/4 1 0 9 0/
early=3 0 1 0/4 0 1 2 0/
hintless=1 0/0/
plain=0/
order=
natural=1 2 3/
turned=3 2 1/
schedule=c 1/
moves=c 1/q 1/c 2/a 2/q 2/c 3/a 2/q 3/";

/// A host that has these files.
pub fn host_of(alloc: Global) -> Result<MemoryHost, Fail>
    ensures { IfOk result (λ host. (role : Role) → channel_of host role ≡ fresh) }
{
    let mut host = MemoryHost::new(alloc);
    for row in FILES.lines() {
        add_file(alloc, &mut host, row)?;
    }
    Ok(host)
}

fn add_file(alloc: Global, host: &mut MemoryHost, row: &str) -> Result<(), Fail>
    requires { (role : Role) → channel_of host.old role ≡ fresh }
    ensures { OnOk result ((role : Role) → channel_of host.new role ≡ fresh) }
{
    let content = unslashed(alloc, part(row, '=', 1))?;
    host.add_file(part(row, '=', 0), content.as_bytes())?;
    Ok(())
}

fn unslashed(alloc: Global, text: &str) -> Result<String, Fail> {
    let mut lines = String::new(alloc);
    for letter in text.chars() {
        lines.push(if letter == '/' { '\n' } else { letter })?;
    }
    Ok(lines)
}

/// The part of a row in this place, of those between such characters; empty where there is none.
pub fn part(row: &str, between: char, place: usize) -> &str {
    match row.split(between).nth(place) {
        Some(part) => part,
        None => "",
    }
}

/// A text before and behind the first such character.
pub fn halves(text: &str, between: char) -> (&str, &str) {
    match text.split_once(between) {
        Some(halves) => halves,
        None => (text, ""),
    }
}

/// The number behind the role of a call.
pub fn number_of(call: &str) -> u64 {
    match part(call, ' ', 1).parse::<u64>() {
        Ok(number) => number,
        Err(_) => 0,
    }
}

/// The role of a call.
pub fn role_of(call: &str) -> Role {
    match part(call, ' ', 0) {
        "Cnf" => Role::Cnf,
        "Order" => Role::Order,
        "Buckets" => Role::Buckets,
        "Schedule" => Role::Schedule,
        "ProofIn" => Role::ProofIn,
        "ProofOut" => Role::ProofOut,
        "Cubes" => Role::Cubes,
        "Made" => Role::Made,
        "Out" => Role::Out,
        _ => Role::Err,
    }
}

/// The text that was found for a row is the one that was expected.
pub fn expect_same(rt: &impl Abort, found: &str, expected: &str, row: &str) {
    assert_eq!(rt; found, expected, "{row}");
}

/// The words of this line.
pub fn words_of(alloc: Global, line: &str) -> Result<Vec<String>, Fail> {
    let mut words = Vec::new(alloc);
    for word in line.split_whitespace() {
        words.push(word.to_string(alloc)?)?;
    }
    Ok(words)
}

/// Adds the bytes with a slash for each line end, behind a bar.
pub fn push_bytes(out: &mut String, bytes: &[u8]) -> Result<(), Fail> {
    out.push('|')?;
    for byte in bytes {
        out.push(slashed(*byte))?;
    }
    Ok(())
}

fn slashed(byte: u8) -> char {
    if byte == b'\n' { '/' } else { char::from(byte) }
}

/// What a run of these words leaves, where calls move at most so many bytes, and the call of this number of a role fails; none
/// for the number 0.
pub fn ended(
    alloc: Global,
    line: &str,
    piece: usize,
    role: Role,
    number: u64,
) -> Result<String, Fail>
    requires { 0 < piece }
{
    let words = words_of(alloc, line)?;
    let fails = vec![in alloc; (role, number)]?;
    let mut host = FailingHost::new(host_of(alloc)?, fails, piece);
    let status = run(alloc, &words, &mut host);
    left_by(alloc, status, &host)
}

// The status, and behind bars what stands on standard output, in the file that is made (`none` where there is none) and on
// standard error.
fn left_by(alloc: Global, status: Status, host: &FailingHost) -> Result<String, Fail> {
    let mut out = format!(in alloc; "{status:?}")?;
    push_bytes(&mut out, host.output(Role::Out))?;
    push_bytes(&mut out, host.file("out.lrat").unwrap_or(b"none"))?;
    push_bytes(&mut out, host.output(Role::Err))?;
    Ok(out)
}
