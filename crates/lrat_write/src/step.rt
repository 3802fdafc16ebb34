// The line of any step, as that of a proof that was read: an addition may have hints and groups at once.
ghost use Rattle.std.specs.Prelude.{◌≡◌};
ghost use Rattle.cnf_base.specs.declared.step.Step.TheVariants.{Add};
ghost use Rattle.cnf_base.specs.ProofText.{line_of_step};
ghost use Rattle.host_io.specs.Channel.{WritesAll};
ghost use Rattle.host_io.specs.Emitted.{Emits};
ghost use Rattle.lrat_write.specs.LineText.{addition_text};

use crate::line::{write_add, write_delete};
use crate::numbers::{emit_hints, emit_literals};
use cnf_base::{Group, Id, Lit, Step};
use host_io::{Failed, HeldBytes, Sink, emit, write_all};
use itoa::Buffer;

/// Writes the line of a step: `id lit .. 0 hint .. -candidate hint .. 0`, or `id d id .. 0`. Where a write fails, a front of the
/// line was written. Takes no memory.
pub fn write_step<S: Sink>(sink: &mut S, step: &Step) -> Result<(), Failed>
    ensures writes { WritesAll S.tells (S.channel sink.old) (S.channel sink.new) (line_of_step step.now) result }
    ensures beside { S.beside sink.new ≡ S.beside sink.old }
{
    match step {
        Step::Add {
            id,
            lits,
            pos,
            groups,
        } => write_addition(
            sink,
            *id,
            lits.as_slice(),
            pos.as_slice(),
            groups.as_slice(),
        ),
        Step::Delete { id, ids } => write_delete(sink, *id, ids.as_slice()),
    }
}

// Most additions have no group: their lines are short, and made at once.
fn write_addition<S: Sink>(
    sink: &mut S,
    id: Id,
    clause: &[Lit],
    hints: &[Id],
    groups: &[Group],
) -> Result<(), Failed>
    ensures writes { WritesAll S.tells (S.channel sink.old) (S.channel sink.new)
        (line_of_step (Add id clause.now hints.now groups.now)) result }
    ensures beside { S.beside sink.new ≡ S.beside sink.old }
{
    if groups.is_empty() {
        return write_add(sink, id, clause, hints);
    }
    write_grouped(sink, id, clause, hints, groups)
}

fn write_grouped<S: Sink>(
    sink: &mut S,
    id: Id,
    clause: &[Lit],
    hints: &[Id],
    groups: &[Group],
) -> Result<(), Failed>
    ensures writes { WritesAll S.tells (S.channel sink.old) (S.channel sink.new)
        (addition_text id clause.now hints.now groups.now) result }
    ensures beside { S.beside sink.new ≡ S.beside sink.old }
{
    let mut held = HeldBytes::new();
    emit_addition(sink, &mut held, id, clause, hints, groups)?;
    write_all(sink, held.as_slice())
}

fn emit_addition<S: Sink>(
    sink: &mut S,
    held: &mut HeldBytes,
    id: Id,
    clause: &[Lit],
    hints: &[Id],
    groups: &[Group],
) -> Result<(), Failed>
    ensures emits { Emits S.tells (S.channel sink.old) (S.channel sink.new) held.old.items held.new.items
        (addition_text id clause.now hints.now groups.now) result }
    ensures beside { S.beside sink.new ≡ S.beside sink.old }
{
    emit(sink, held, Buffer::new().format(id.get()).as_bytes())?;
    emit_literals(sink, held, clause)?;
    emit(sink, held, b" 0")?;
    emit_hints(sink, held, hints, groups)?;
    emit(sink, held, b" 0\n")
}
