// What no run of the program can be made to show: texts that are too long, want of memory, and words that can't be had; and runs
// over a host in memory.
use crate::support::{expect_same, halves, host_of, push_bytes, role_of, words_of};
use host_io::{MemoryHost, Role};
use solver_cli::{Status, complain, run_in_memory, run_with};
use std::alloc::Global;
use std::io::ErrorKind;
use std::process::{Abort, ExitCode};
use std::test::Fail;
use std::vec::IntoIter;

// The exit code, standard output and standard error.
fn expect_left(
    rt: &impl Abort,
    alloc: Global,
    host: &MemoryHost,
    code: u8,
    expected: &str,
) -> Result<(), Fail> {
    let mut found = format!(in alloc; "{code}")?;
    push_bytes(&mut found, host.output(Role::Out))?;
    push_bytes(&mut found, host.output(Role::Err))?;
    expect_same(rt, found.as_str(), expected, expected);
    Ok(())
}

// A status: a role, or `Memory`. Its exit code, and what stands on standard error.
const COMPLAINTS: &str = "\
Cnf;2||error: cnf too long/
Order;2||error: order too long/
Buckets;2||error: buckets too long/
Schedule;2||error: schedule too long/
ProofIn;2||error: proof too long/
Memory;5||error: out of memory/";

fn status_of(word: &str) -> Status {
    match word {
        "Memory" => Status::OutOfMemory,
        _ => Status::TooLong(role_of(word)),
    }
}

fn expect_complaint(rt: &impl Abort, alloc: Global, row: &str) -> Result<(), Fail> {
    let (word, expected) = halves(row, ';');
    let mut host = MemoryHost::new(alloc);
    let status = status_of(word);
    complain(&mut host, status);
    expect_left(rt, alloc, &host, status.code(), expected)
}

#[test]
fn complaints(rt: HostRuntime) -> Result<(), Fail> {
    for row in COMPLAINTS.lines() {
        expect_complaint(&rt, rt.alloc(), row)?;
    }
    Ok(())
}

#[test]
fn in_memory(rt: HostRuntime) -> Result<(), Fail> {
    let words = words_of(rt.alloc(), "bddsat solve tautology --proof out.lrat")?;
    let mut host = host_of(rt.alloc())?;
    let status = run_in_memory(rt.alloc(), &words, &mut host);
    expect_left(
        &rt,
        rt.alloc(),
        &host,
        status.code(),
        "10|s SATISFIABLE/v -1 -2 0/|",
    )
}

#[test]
fn with_words(rt: HostRuntime) -> Result<(), Fail> {
    let words = words_of(rt.alloc(), "bddsat solve tautology --proof out.lrat")?;
    let came: Result<IntoIter<String>, ErrorKind> = Ok(words.into_iter());
    let mut host = host_of(rt.alloc())?;
    let code = run_with(rt.alloc(), came, &mut host);
    assert!(&rt; code == ExitCode::from(10));
    expect_left(&rt, rt.alloc(), &host, 10, "10|s SATISFIABLE/v -1 -2 0/|")
}

fn expect_unread(
    rt: &impl Abort,
    alloc: Global,
    kind: ErrorKind,
    code: u8,
    expected: &str,
) -> Result<(), Fail> {
    let mut host = MemoryHost::new(alloc);
    let came: Result<IntoIter<String>, ErrorKind> = Err(kind);
    let ended = run_with(alloc, came, &mut host);
    assert!(rt; ended == ExitCode::from(code));
    expect_left(rt, alloc, &host, code, expected)
}

/// The words can't be had.
#[test]
fn without_words(rt: HostRuntime) -> Result<(), Fail> {
    let alloc = rt.alloc();
    expect_unread(
        &rt,
        alloc,
        ErrorKind::InvalidData,
        6,
        "6||error: bad usage/",
    )?;
    expect_unread(
        &rt,
        alloc,
        ErrorKind::OutOfMemory,
        5,
        "5||error: out of memory/",
    )
}
