// The line of each kind of step.
ghost use Rattle.std.specs.Prelude.{◌≡◌};
ghost use Rattle.std.specs.List.{flat_map};
ghost use Rattle.host_io.specs.Channel.{WritesAll};
ghost use Rattle.host_io.specs.Emitted.{Emits};
ghost use Rattle.drat_text.specs.DratText.{line_of_drat, step_on};
ghost use Rattle.drat_text.specs.LineText.{word_of, literal_text, clause_text, step_text};

use cnf_base::Lit;
use host_io::{Failed, HeldBytes, Sink, emit, emit_number, write_all};

/// Writes the line of a step: `lit .. 0` adds the clause, `d lit .. 0` deletes it. Where a write fails, a front of the
/// line was written. Takes no memory.
pub fn write_drat<S: Sink>(sink: &mut S, deleted: bool, clause: &[Lit]) -> Result<(), Failed>
    ensures writes { WritesAll S.tells (S.channel sink.old) (S.channel sink.new) (line_of_drat (step_on deleted clause.now)) result }
    ensures beside { S.beside sink.new ≡ S.beside sink.old }
{
    let mut held = HeldBytes::new();
    emit_step(sink, &mut held, deleted, clause)?;
    write_all(sink, held.as_slice())
}

fn emit_step<S: Sink>(
    sink: &mut S,
    held: &mut HeldBytes,
    deleted: bool,
    clause: &[Lit],
) -> Result<(), Failed>
    ensures emits { Emits S.tells (S.channel sink.old) (S.channel sink.new) held.old.items held.new.items
        (step_text deleted clause.now) result }
    ensures beside { S.beside sink.new ≡ S.beside sink.old }
{
    emit(sink, held, word_before(deleted))?;
    emit_clause(sink, held, clause)
}

// What is before the clause.
fn word_before(deleted: bool) -> &'static [u8]
    ensures { result.now ≡ word_of deleted }
{
    if deleted { b"d " } else { b"" }
}

fn emit_clause<S: Sink>(sink: &mut S, held: &mut HeldBytes, clause: &[Lit]) -> Result<(), Failed>
    ensures emits { Emits S.tells (S.channel sink.old) (S.channel sink.new) held.old.items held.new.items (clause_text clause.now) result }
    ensures beside { S.beside sink.new ≡ S.beside sink.old }
{
    emit_literals(sink, held, clause)?;
    emit(sink, held, b"0\n")
}

fn emit_literals<S: Sink>(sink: &mut S, held: &mut HeldBytes, clause: &[Lit]) -> Result<(), Failed>
    ensures emits { Emits S.tells (S.channel sink.old) (S.channel sink.new) held.old.items held.new.items
        (flat_map literal_text clause.now) result }
    ensures beside { S.beside sink.new ≡ S.beside sink.old }
{
    for literal in clause {
        emit_literal(sink, held, *literal)?;
    }
    Ok(())
}

fn emit_literal<S: Sink>(sink: &mut S, held: &mut HeldBytes, literal: Lit) -> Result<(), Failed>
    ensures emits { Emits S.tells (S.channel sink.old) (S.channel sink.new) held.old.items held.new.items (literal_text literal) result }
    ensures beside { S.beside sink.new ≡ S.beside sink.old }
{
    emit_number(sink, held, b"", literal.get())?;
    emit(sink, held, b" ")
}
