// The line of each kind of step that the solver writes.
ghost use Rattle.std.specs.Prelude.{◌≡◌, [], IsTrue};
ghost use Rattle.std.specs.List.{list_all};
ghost use Rattle.cnf_base.specs.declared.step.Step.TheVariants.{Add, Delete};
ghost use Rattle.cnf_base.specs.ProofText.{line_of_step, is_id, max_literal};
ghost use Rattle.cnf_base.specs.Truth.{is_literal_of};
ghost use Rattle.host_io.specs.Channel.{WritesAll};
ghost use Rattle.host_io.specs.Emitted.{Emits};
ghost use Rattle.lrat_write.specs.LineText.{line_text, deletion_text, bare_groups, lead};

use crate::backward::{BUFFER, put_deletion, put_line};
use crate::numbers::{emit_ids, emit_literals};
use cnf_base::{Id, Lit};
use host_io::{Failed, HeldBytes, Sink, emit, write_all};
use itoa::Buffer;

/// Writes the line of an addition with positive hints: `id lit .. 0 hint .. 0`. Where a write fails, a front of
/// the line was written. Takes no memory.
pub fn write_add<S: Sink>(sink: &mut S, id: Id, clause: &[Lit], hints: &[Id]) -> Result<(), Failed>
    ensures writes { WritesAll S.tells (S.channel sink.old) (S.channel sink.new) (line_of_step (Add id clause.now hints.now [])) result }
    ensures range { IsTrue (list_all (is_literal_of max_literal) clause.now) }
    ensures beside { S.beside sink.new ≡ S.beside sink.old }
{
    write_line(sink, id, clause, false, hints)
}

/// Writes the line of an addition with candidates that want no hints: `id lit .. 0 -candidate .. 0`. Where a write
/// fails, a front of the line was written. Takes no memory.
pub fn write_define<S: Sink>(
    sink: &mut S,
    id: Id,
    clause: &[Lit],
    candidates: &[Id],
) -> Result<(), Failed>
    requires { IsTrue (list_all is_id candidates.now) }
    ensures writes { WritesAll S.tells (S.channel sink.old) (S.channel sink.new)
        (line_of_step (Add id clause.now [] (bare_groups candidates.now))) result }
    ensures range { IsTrue (list_all (is_literal_of max_literal) clause.now) }
    ensures beside { S.beside sink.new ≡ S.beside sink.old }
{
    write_line(sink, id, clause, true, candidates)
}

/// Writes the line of a deletion: `id d id .. 0`. Where a write fails, a front of the line was written. Takes no memory.
pub fn write_delete<S: Sink>(sink: &mut S, id: Id, ids: &[Id]) -> Result<(), Failed>
    ensures writes { WritesAll S.tells (S.channel sink.old) (S.channel sink.new) (line_of_step (Delete id ids.now)) result }
    ensures beside { S.beside sink.new ≡ S.beside sink.old }
{
    write_deletion(sink, id, ids)
}

fn write_deletion<S: Sink>(sink: &mut S, id: Id, ids: &[Id]) -> Result<(), Failed>
    ensures writes { WritesAll S.tells (S.channel sink.old) (S.channel sink.new) (deletion_text id ids.now) result }
    ensures beside { S.beside sink.new ≡ S.beside sink.old }
{
    let mut buffer = [0; BUFFER];
    match put_deletion(&mut buffer, id, ids) {
        Some(start) => write_all(sink, &buffer[start..]),
        None => write_long_deletion(sink, id, ids),
    }
}

// The same of any length.
fn write_long_deletion<S: Sink>(sink: &mut S, id: Id, ids: &[Id]) -> Result<(), Failed>
    ensures writes { WritesAll S.tells (S.channel sink.old) (S.channel sink.new) (deletion_text id ids.now) result }
    ensures beside { S.beside sink.new ≡ S.beside sink.old }
{
    let mut rest = HeldBytes::new();
    emit_deletion(sink, &mut rest, id, ids)?;
    write_all(sink, rest.as_slice())
}

fn emit_deletion<S: Sink>(
    sink: &mut S,
    held: &mut HeldBytes,
    id: Id,
    ids: &[Id],
) -> Result<(), Failed>
    ensures emits { Emits S.tells (S.channel sink.old) (S.channel sink.new) held.old.items held.new.items
        (deletion_text id ids.now) result }
    ensures beside { S.beside sink.new ≡ S.beside sink.old }
{
    emit(sink, held, Buffer::new().format(id.get()).as_bytes())?;
    emit(sink, held, b" d")?;
    emit_ids(sink, held, false, ids)?;
    emit(sink, held, b" 0\n")
}

// Writes a line whose numbers behind the clause are negative or not.
fn write_line<S: Sink>(
    sink: &mut S,
    id: Id,
    clause: &[Lit],
    minus: bool,
    ids: &[Id],
) -> Result<(), Failed>
    ensures writes { WritesAll S.tells (S.channel sink.old) (S.channel sink.new) (line_text id clause.now (lead minus) ids.now) result }
    ensures range { IsTrue (list_all (is_literal_of max_literal) clause.now) }
    ensures beside { S.beside sink.new ≡ S.beside sink.old }
{
    let mut buffer = [0; BUFFER];
    match put_line(&mut buffer, id, clause, minus, ids) {
        Some(start) => write_all(sink, &buffer[start..]),
        None => write_long_line(sink, id, clause, minus, ids),
    }
}

// The same of any length.
fn write_long_line<S: Sink>(
    sink: &mut S,
    id: Id,
    clause: &[Lit],
    minus: bool,
    ids: &[Id],
) -> Result<(), Failed>
    ensures writes { WritesAll S.tells (S.channel sink.old) (S.channel sink.new) (line_text id clause.now (lead minus) ids.now) result }
    ensures range { IsTrue (list_all (is_literal_of max_literal) clause.now) }
    ensures beside { S.beside sink.new ≡ S.beside sink.old }
{
    look_at(clause);
    let mut held = HeldBytes::new();
    emit_line(sink, &mut held, id, clause, minus, ids)?;
    write_all(sink, held.as_slice())
}

// Looks at each literal, also where a write fails before its turn: the type of a literal gives its range. It is the one loop that
// runs for the prover alone; a line that fits the buffer shows the range where its literals are written.
fn look_at(clause: &[Lit])
    ensures range { IsTrue (list_all (is_literal_of max_literal) clause.now) }
{
    for literal in clause {
        let _var = literal.var();
    }
}

fn emit_line<S: Sink>(
    sink: &mut S,
    held: &mut HeldBytes,
    id: Id,
    clause: &[Lit],
    minus: bool,
    ids: &[Id],
) -> Result<(), Failed>
    ensures emits { Emits S.tells (S.channel sink.old) (S.channel sink.new) held.old.items held.new.items
        (line_text id clause.now (lead minus) ids.now) result }
    ensures beside { S.beside sink.new ≡ S.beside sink.old }
{
    emit(sink, held, Buffer::new().format(id.get()).as_bytes())?;
    emit_literals(sink, held, clause)?;
    emit(sink, held, b" 0")?;
    emit_ids(sink, held, minus, ids)?;
    emit(sink, held, b" 0\n")
}
