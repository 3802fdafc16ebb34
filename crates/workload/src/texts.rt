// The texts of a formula and of an order.
ghost use Rattle.std.specs.Prelude.{◌≡◌, decimal, map};
ghost use Rattle.std.specs.List.{flat_map, join_with_byte};
ghost use Rattle.host_io.specs.Channel.{WritesAll};
ghost use Rattle.host_io.specs.Emitted.{Emits};
ghost use Rattle.workload.specs.Texts.{cnf_text, clause_line, literal_text, order_text, spaced};

use cnf_base::{Cnf, Lit};
use host_io::{Failed, HeldBytes, Sink, emit, emit_number, write_all};
use schedule_plan::Order;

/// Writes a formula in the DIMACS format. Where a write fails, a front of the text was written. Takes no memory.
pub fn write_cnf<S: Sink>(sink: &mut S, formula: &Cnf) -> Result<(), Failed>
    ensures writes { WritesAll S.tells (S.channel sink.old) (S.channel sink.new) (cnf_text formula.now) result }
    ensures beside { S.beside sink.new ≡ S.beside sink.old }
{
    let mut held = HeldBytes::new();
    emit_cnf(sink, &mut held, formula)?;
    write_all(sink, held.as_slice())
}

fn emit_cnf<S: Sink>(sink: &mut S, held: &mut HeldBytes, formula: &Cnf) -> Result<(), Failed>
    ensures emits { Emits S.tells (S.channel sink.old) (S.channel sink.new) held.old.items held.new.items (cnf_text formula.now) result }
    ensures beside { S.beside sink.new ≡ S.beside sink.old }
{
    emit_number(sink, held, b"p cnf ", formula.vars())?;
    emit_number(sink, held, b" ", formula.len())?;
    emit(sink, held, b"\n")?;
    emit_clauses(sink, held, formula)
}

fn emit_clauses<S: Sink>(sink: &mut S, held: &mut HeldBytes, formula: &Cnf) -> Result<(), Failed>
    ensures emits { Emits S.tells (S.channel sink.old) (S.channel sink.new) held.old.items held.new.items
        (flat_map clause_line formula.now.clauses) result }
    ensures beside { S.beside sink.new ≡ S.beside sink.old }
{
    for place in 0..formula.len() {
        emit_clause(sink, held, formula.clause(place + 1))?;
    }
    Ok(())
}

fn emit_clause<S: Sink>(sink: &mut S, held: &mut HeldBytes, clause: &[Lit]) -> Result<(), Failed>
    ensures emits { Emits S.tells (S.channel sink.old) (S.channel sink.new) held.old.items held.new.items (clause_line clause.now) result }
    ensures beside { S.beside sink.new ≡ S.beside sink.old }
{
    emit_literals(sink, held, clause)?;
    emit(sink, held, b"0\n")
}

fn emit_literals<S: Sink>(sink: &mut S, held: &mut HeldBytes, clause: &[Lit]) -> Result<(), Failed>
    ensures emits { Emits S.tells (S.channel sink.old) (S.channel sink.new) held.old.items held.new.items
        (flat_map literal_text clause.now) result }
    ensures beside { S.beside sink.new ≡ S.beside sink.old }
{
    for literal in clause {
        emit_literal(sink, held, *literal)?;
    }
    Ok(())
}

fn emit_literal<S: Sink>(sink: &mut S, held: &mut HeldBytes, literal: Lit) -> Result<(), Failed>
    ensures emits { Emits S.tells (S.channel sink.old) (S.channel sink.new) held.old.items held.new.items (literal_text literal) result }
    ensures beside { S.beside sink.new ≡ S.beside sink.old }
{
    emit_number(sink, held, b"", literal.get())?;
    emit(sink, held, b" ")
}

/// Writes an order: its variables on one line. Where a write fails, a front of the text was written. Takes no memory.
pub fn write_order<S: Sink>(sink: &mut S, order: &Order) -> Result<(), Failed>
    ensures writes { WritesAll S.tells (S.channel sink.old) (S.channel sink.new) (order_text order.now) result }
    ensures beside { S.beside sink.new ≡ S.beside sink.old }
{
    let mut held = HeldBytes::new();
    emit_order(sink, &mut held, order.as_slice())?;
    write_all(sink, held.as_slice())
}

fn emit_order<S: Sink>(sink: &mut S, held: &mut HeldBytes, order: &[u32]) -> Result<(), Failed>
    ensures emits { Emits S.tells (S.channel sink.old) (S.channel sink.new) held.old.items held.new.items (order_text order.now) result }
    ensures beside { S.beside sink.new ≡ S.beside sink.old }
{
    emit_row(sink, held, order)?;
    emit(sink, held, b"\n")
}

fn emit_row<S: Sink>(sink: &mut S, held: &mut HeldBytes, order: &[u32]) -> Result<(), Failed>
    ensures emits { Emits S.tells (S.channel sink.old) (S.channel sink.new) held.old.items held.new.items
        (join_with_byte 32 (map decimal order.now)) result }
    ensures beside { S.beside sink.new ≡ S.beside sink.old }
{
    if let Some((first, more)) = order.split_first() {
        emit_number(sink, held, b"", *first)?;
        emit_spaced(sink, held, more)
    } else {
        Ok(())
    }
}

/// Puts numbers, each behind a space.
pub fn emit_spaced<S: Sink>(
    sink: &mut S,
    held: &mut HeldBytes,
    numbers: &[u32],
) -> Result<(), Failed>
    ensures emits { Emits S.tells (S.channel sink.old) (S.channel sink.new) held.old.items held.new.items
        (flat_map spaced numbers.now) result }
    ensures beside { S.beside sink.new ≡ S.beside sink.old }
{
    for number in numbers {
        emit_number(sink, held, b" ", *number)?;
    }
    Ok(())
}
