// The core of a refutation: the numbers of the formula's clauses that it needs, and its text, a number a line. (Goldberg, Novikov:
// Verification of Proofs of Unsatisfiability for CNF Formulas, DATE 2003.)
ghost use Rattle.std.specs.Prelude.{◌≡◌, [], ◌∷◌, ◌++◌, decimal, IfOk, OnOk, if◌then◌else◌};
ghost use Rattle.std.specs.List.{filter, range_with_len};
ghost use Rattle.host_io.specs.Channel.{WritesAll};
ghost use Rattle.host_io.specs.Emitted.{Emits};
ghost use Rattle.proof_trim.specs.Core.{core_text};
ghost use Rattle.proof_trim.specs.Numbers.{has};

use crate::numbers::Numbers;
use crate::row::Row;
use cnf_base::{Id, OutOfMemory};
use host_io::{Failed, HeldBytes, Sink, emit, emit_number, write_all};
use std::alloc::Global;
use std::marker::Model;

/// The numbers of clauses that a refutation needs, in little memory; seen as their text.
#[derive(Drop)]
pub struct Core {
    row: Row,
}

impl Model for Core {
    ghost use Rattle.std.specs.Prelude.{List, ℕ};
    ghost use Rattle.proof_trim.specs.Core.{core_text};

    ghost Value = { List ℕ };

    ghost view = { λ core. core_text core.row };
}

impl Core {
    /// Those of a formula's clauses, of which there are so many, that are among these numbers.
    pub(crate) fn of(alloc: Global, numbers: &Numbers, count: u64) -> Result<Core, OutOfMemory>
        ensures { IfOk result (λ core. core ≡ core_text (filter (has numbers.now) (range_with_len 1 count))) }
    {
        let row = needed_up_to(alloc, numbers, count)?;
        Ok(Core { row })
    }

    /// Writes the lines, and lets go what was written. Where a write fails, a front of them was written. Takes no memory.
    pub fn write<S: Sink>(&mut self, sink: &mut S) -> Result<(), Failed>
        ensures writes { WritesAll S.tells (S.channel sink.old) (S.channel sink.new) self.old result }
        ensures beside { S.beside sink.new ≡ S.beside sink.old }
    {
        write_numbers(&mut self.row, sink)
    }
}

// Those of the numbers 1 to the count, the least on top.
fn needed_up_to(alloc: Global, numbers: &Numbers, count: u64) -> Result<Row, OutOfMemory>
    ensures { IfOk result (λ row. row ≡ filter (has numbers.now) (range_with_len 1 count)) }
{
    let mut row = Row::new(alloc);
    let mut id = count;
    'numbers: while id > 0 {
        push_needed(&mut row, numbers, id)?;
        id -= 1;
    }
    Ok(row)
}

fn push_needed(row: &mut Row, numbers: &Numbers, id: u64) -> Result<(), OutOfMemory>
    ensures { OnOk result (row.new ≡ (if has numbers.now id then id ∷ row.old else row.old)) }
{
    if numbers.has(Id(id)) {
        row.push(id)?;
    }
    Ok(())
}

fn write_numbers<S: Sink>(row: &mut Row, sink: &mut S) -> Result<(), Failed>
    ensures writes { WritesAll S.tells (S.channel sink.old) (S.channel sink.new) (core_text row.old) result }
    ensures beside { S.beside sink.new ≡ S.beside sink.old }
{
    let mut held = HeldBytes::new();
    'numbers: loop {
        match row.pop() {
            Some(id) => emit_line(sink, &mut held, id)?,
            None => return write_all(sink, held.as_slice()),
        }
    }
}

fn emit_line<S: Sink>(sink: &mut S, held: &mut HeldBytes, id: u64) -> Result<(), Failed>
    ensures emits { Emits S.tells (S.channel sink.old) (S.channel sink.new) held.old.items held.new.items (decimal id ++ 10 ∷ [])
        result }
    ensures beside { S.beside sink.new ≡ S.beside sink.old }
{
    emit_number(sink, held, b"", id)?;
    emit(sink, held, b"\n")
}
