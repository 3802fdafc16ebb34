// The line of a step by the names of its variables. A new name is written in the place of a literal's own, so that a line takes no memory.
ghost use Rattle.std.specs.Prelude.{◌≡◌, map};
ghost use Rattle.std.specs.List.{flat_map};
ghost use Rattle.host_io.specs.Channel.{WritesAll};
ghost use Rattle.host_io.specs.Emitted.{Emits};
ghost use Rattle.drat_text.specs.DratText.{line_of_drat, step_on};
ghost use Rattle.drat_text.specs.LineText.{word_of, literal_text, clause_text, step_text};
ghost use Rattle.fresh_names.specs.Fresh.{named};
ghost use Rattle.fresh_names.specs.Renaming.{name_of};
ghost use Rattle.drat_proof.specs.Naming.{names_ahead, step_by};

use crate::naming::Naming;
use cnf_base::Lit;
use drat_text::write_drat;
use fresh_names::Renaming;
use host_io::{Failed, HeldBytes, Sink, emit, emit_number, write_all};

/// Writes the line of a step by these names, as `write_drat` does.
pub fn write_step<S: Sink>(
    sink: &mut S,
    naming: &Naming,
    deleted: bool,
    clause: &[Lit],
) -> Result<(), Failed>
    ensures writes { WritesAll S.tells (S.channel sink.old) (S.channel sink.new)
        (line_of_drat (step_by (names_ahead naming.now) (step_on deleted clause.now))) result }
    ensures beside { S.beside sink.new ≡ S.beside sink.old }
{
    match naming {
        Naming::Own => write_drat(sink, deleted, clause),
        Naming::Fresh(renaming) => write_renamed(sink, renaming, deleted, clause),
    }
}

fn write_renamed<S: Sink>(
    sink: &mut S,
    renaming: &Renaming,
    deleted: bool,
    clause: &[Lit],
) -> Result<(), Failed>
    ensures writes { WritesAll S.tells (S.channel sink.old) (S.channel sink.new)
        (line_of_drat (step_on deleted (map (named (name_of renaming.now)) clause.now))) result }
    ensures beside { S.beside sink.new ≡ S.beside sink.old }
{
    let mut held = HeldBytes::new();
    emit_step(sink, &mut held, renaming, deleted, clause)?;
    write_all(sink, held.as_slice())
}

fn emit_step<S: Sink>(
    sink: &mut S,
    held: &mut HeldBytes,
    renaming: &Renaming,
    deleted: bool,
    clause: &[Lit],
) -> Result<(), Failed>
    ensures emits { Emits S.tells (S.channel sink.old) (S.channel sink.new) held.old.items held.new.items
        (step_text deleted (map (named (name_of renaming.now)) clause.now)) result }
    ensures beside { S.beside sink.new ≡ S.beside sink.old }
{
    emit(sink, held, word_before(deleted))?;
    emit_clause(sink, held, renaming, clause)
}

// What is before the clause.
fn word_before(deleted: bool) -> &'static [u8]
    ensures { result.now ≡ word_of deleted }
{
    if deleted { b"d " } else { b"" }
}

fn emit_clause<S: Sink>(
    sink: &mut S,
    held: &mut HeldBytes,
    renaming: &Renaming,
    clause: &[Lit],
) -> Result<(), Failed>
    ensures emits { Emits S.tells (S.channel sink.old) (S.channel sink.new) held.old.items held.new.items
        (clause_text (map (named (name_of renaming.now)) clause.now)) result }
    ensures beside { S.beside sink.new ≡ S.beside sink.old }
{
    emit_literals(sink, held, renaming, clause)?;
    emit(sink, held, b"0\n")
}

fn emit_literals<S: Sink>(
    sink: &mut S,
    held: &mut HeldBytes,
    renaming: &Renaming,
    clause: &[Lit],
) -> Result<(), Failed>
    ensures emits { Emits S.tells (S.channel sink.old) (S.channel sink.new) held.old.items held.new.items
        (flat_map literal_text (map (named (name_of renaming.now)) clause.now)) result }
    ensures beside { S.beside sink.new ≡ S.beside sink.old }
{
    for literal in clause {
        emit_literal(sink, held, renaming.literal(*literal))?;
    }
    Ok(())
}

fn emit_literal<S: Sink>(sink: &mut S, held: &mut HeldBytes, literal: Lit) -> Result<(), Failed>
    ensures emits { Emits S.tells (S.channel sink.old) (S.channel sink.new) held.old.items held.new.items (literal_text literal) result }
    ensures beside { S.beside sink.new ≡ S.beside sink.old }
{
    emit_number(sink, held, b"", literal.get())?;
    emit(sink, held, b" ")
}
