// The numbers of a long line: literals, the numbers of clauses, and groups.
ghost use Rattle.std.specs.Prelude.{◌≡◌};
ghost use Rattle.std.specs.List.{flat_map};
ghost use Rattle.host_io.specs.Emitted.{Emits};
ghost use Rattle.lrat_write.specs.LineText.{lead, led_number, literals_text, ids_text, group_text, hints_text};

use crate::backward::{BUFFER, put_ids, put_number};
use cnf_base::{Group, Id, Lit};
use host_io::{Failed, HeldBytes, Sink, emit};

// So many numbers a buffer holds, however long they are.
const PIECE: usize = 11;

/// Puts the literals of a clause, each behind a space.
pub fn emit_literals<S: Sink>(
    sink: &mut S,
    held: &mut HeldBytes,
    literals: &[Lit],
) -> Result<(), Failed>
    ensures emits { Emits S.tells (S.channel sink.old) (S.channel sink.new) held.old.items held.new.items
        (literals_text literals.now) result }
    ensures beside { S.beside sink.new ≡ S.beside sink.old }
{
    let mut buffer = [0; BUFFER];
    for literal in literals {
        emit_led(
            sink,
            held,
            &mut buffer,
            literal.is_negative(),
            u64::from(literal.var()),
        )?;
    }
    Ok(())
}

/// Puts clause numbers, each behind a space, and negative or not.
pub fn emit_ids<S: Sink>(
    sink: &mut S,
    held: &mut HeldBytes,
    minus: bool,
    ids: &[Id],
) -> Result<(), Failed>
    ensures emits { Emits S.tells (S.channel sink.old) (S.channel sink.new) held.old.items held.new.items
        (ids_text (lead minus) ids.now) result }
    ensures beside { S.beside sink.new ≡ S.beside sink.old }
{
    let mut buffer = [0; BUFFER];
    let mut rest = ids;
    'pieces: while !rest.is_empty() {
        let (piece, more) = rest.split_at(rest.len().min(PIECE));
        emit_piece(sink, held, &mut buffer, minus, piece)?;
        rest = more;
    }
    Ok(())
}

/// Puts positive hints, and groups behind them: of each its candidate's number with a minus sign, and its hints.
pub fn emit_hints<S: Sink>(
    sink: &mut S,
    held: &mut HeldBytes,
    hints: &[Id],
    groups: &[Group],
) -> Result<(), Failed>
    ensures emits { Emits S.tells (S.channel sink.old) (S.channel sink.new) held.old.items held.new.items
        (hints_text hints.now groups.now) result }
    ensures beside { S.beside sink.new ≡ S.beside sink.old }
{
    emit_ids(sink, held, false, hints)?;
    emit_groups(sink, held, groups)
}

fn emit_groups<S: Sink>(sink: &mut S, held: &mut HeldBytes, groups: &[Group]) -> Result<(), Failed>
    ensures emits { Emits S.tells (S.channel sink.old) (S.channel sink.new) held.old.items held.new.items
        (flat_map group_text groups.now) result }
    ensures beside { S.beside sink.new ≡ S.beside sink.old }
{
    for group in groups {
        emit_group(sink, held, group)?;
    }
    Ok(())
}

fn emit_group<S: Sink>(sink: &mut S, held: &mut HeldBytes, group: &Group) -> Result<(), Failed>
    ensures emits { Emits S.tells (S.channel sink.old) (S.channel sink.new) held.old.items held.new.items
        (group_text group.now) result }
    ensures beside { S.beside sink.new ≡ S.beside sink.old }
{
    let mut buffer = [0; BUFFER];
    let id = group.id.get();
    emit_led(sink, held, &mut buffer, 0 < id, id)?;
    emit_ids(sink, held, false, group.hints.as_slice())
}

// Puts as many of them as one buffer holds, in a buffer whose bytes are of no use.
fn emit_piece<S: Sink>(
    sink: &mut S,
    held: &mut HeldBytes,
    buffer: &mut [u8; BUFFER],
    minus: bool,
    ids: &[Id],
) -> Result<(), Failed>
    ensures emits { Emits S.tells (S.channel sink.old) (S.channel sink.new) held.old.items held.new.items
        (ids_text (lead minus) ids.now) result }
    ensures beside { S.beside sink.new ≡ S.beside sink.old }
{
    match put_ids(buffer, BUFFER, minus, ids) {
        Some(start) => emit(sink, held, &buffer[start..]),
        None => emit_each(sink, held, buffer, minus, ids),
    }
}

fn emit_each<S: Sink>(
    sink: &mut S,
    held: &mut HeldBytes,
    buffer: &mut [u8; BUFFER],
    minus: bool,
    ids: &[Id],
) -> Result<(), Failed>
    ensures emits { Emits S.tells (S.channel sink.old) (S.channel sink.new) held.old.items held.new.items
        (ids_text (lead minus) ids.now) result }
    ensures beside { S.beside sink.new ≡ S.beside sink.old }
{
    for id in ids {
        emit_led(sink, held, buffer, minus, id.get())?;
    }
    Ok(())
}

// Puts one number behind a space, made in a buffer whose bytes are of no use.
fn emit_led<S: Sink>(
    sink: &mut S,
    held: &mut HeldBytes,
    buffer: &mut [u8; BUFFER],
    minus: bool,
    number: u64,
) -> Result<(), Failed>
    ensures emits { Emits S.tells (S.channel sink.old) (S.channel sink.new) held.old.items held.new.items (led_number minus number) result }
    ensures beside { S.beside sink.new ≡ S.beside sink.old }
{
    let start = put_number(buffer, BUFFER, minus, number);
    emit(sink, held, &buffer[start..])
}
