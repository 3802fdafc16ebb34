// lrat_write: a line comes out byte for byte as the format has it, by one call of the sink.
ghost use Rattle.std.specs.Prelude.{◌≡◌};
ghost use Rattle.std.specs.List.{list_all};
ghost use Rattle.cnf_base.specs.ProofText.{is_id};

use crate::support::cut;
use cnf_base::{Id, Lit};
use host_io::{FailingHost, HostSink, MemoryHost, Role, Sink};
use lrat_write::{write_add, write_define};
use std::alloc::{AllocError, Global};
use std::process::Abort;
use std::test::Fail;

// The number, the literals, and the hints of an addition or the candidates of a definition; and the line.
const LINES: &str = "\
add;2;;1;2 0 1 0
add;7;-3;5 6;7 -3 0 5 6 0
add;9;4 -1 2147483647;;9 4 -1 2147483647 0 0
add;999999999999999999;-2147483647;999999999999999998;999999999999999999 -2147483647 0 999999999999999998 0
define;2;3 -2;;2 3 -2 0 0
define;6;-4 1 3;4 5;6 -4 1 3 0 -4 -5 0
define;8;1;999999999999999999;8 1 0 -999999999999999999 0";

fn literals(alloc: Global, text: &str) -> Result<Vec<Lit>, Fail> {
    let mut literals = Vec::new(alloc);
    for word in text.split_whitespace() {
        let literal = Lit::new(word.parse::<i32>()?);
        literals.push(literal.ok_or("no literal")?)?;
    }
    Ok(literals)
}

fn ids(alloc: Global, text: &str) -> Result<Vec<Id>, Fail> {
    let mut ids = Vec::new(alloc);
    for word in text.split_whitespace() {
        ids.push(Id(word.parse::<u64>()?))?;
    }
    Ok(ids)
}

fn are_ids(ids: &[Id]) -> bool
    ensures { result ≡ list_all is_id ids.now }
{
    ids.iter()
        .all(|id| id.get() > 0 && id.get() <= 999999999999999999)
}

// Whether the line was written.
fn is_written<S: Sink>(sink: &mut S, call: &str, id: Id, literals: &[Lit], ids: &[Id]) -> bool {
    if call == "add" {
        return write_add(sink, id, literals, ids).is_ok();
    }
    are_ids(ids) && write_define(sink, id, literals, ids).is_ok()
}

// The same, with the clause's literals.
fn write_with<S: Sink>(
    alloc: Global,
    sink: &mut S,
    call: &str,
    id: Id,
    literals: &[Lit],
    numbers: &str,
) -> Result<bool, Fail> {
    let ids = ids(alloc, numbers)?;
    Ok(is_written(sink, call, id, literals, &ids))
}

fn write<S: Sink>(alloc: Global, sink: &mut S, call: &str, parts: &str) -> Result<bool, Fail> {
    let (id, rest) = cut(parts)?;
    let (clause, numbers) = cut(rest)?;
    let id = Id(id.parse::<u64>()?);
    let literals = literals(alloc, clause)?;
    write_with(alloc, sink, call, id, &literals, numbers)
}

// A host whose second call fails.
fn failing_host(alloc: Global) -> Result<FailingHost, AllocError> {
    let fails = vec![in alloc; (Role::Out, 2)]?;
    Ok(FailingHost::new(MemoryHost::new(alloc), fails, 1000))
}

fn written_to(
    alloc: Global,
    host: &mut FailingHost,
    call: &str,
    parts: &str,
) -> Result<bool, Fail> {
    let mut sink = HostSink::new(host, Role::Out);
    write(alloc, &mut sink, call, parts)
}

// What stands behind the last semicolon is the line, without its line feed.
fn expect_line(rt: &impl Abort, alloc: Global, row: &str) -> Result<(), Fail> {
    let (call, rest) = cut(row)?;
    let (parts, wanted) = rest.rsplit_once(';').ok_or("no line")?;
    let mut host = failing_host(alloc)?;
    let is_written = written_to(alloc, &mut host, call, parts)?;
    let text = str::from_utf8(host.output(Role::Out)).unwrap_or("no text");
    assert!(rt;
        is_written && text.strip_suffix('\n') == Some(wanted),
        "{text} {row}"
    );
    Ok(())
}

/// Each by one call.
#[test]
fn lines(rt: HostRuntime) -> Result<(), Fail> {
    for row in LINES.lines() {
        expect_line(&rt, rt.alloc(), row)?;
    }
    Ok(())
}
