// The text of the column schedule.
ghost use Rattle.std.specs.Prelude.{◌≡◌, ◌+◌, ◌≤◌, ◌<◌, [], ◌∷◌, ◌++◌, map, codes, OnOk, IsTrue};
ghost use Rattle.std.specs.List.{flat_map};
ghost use Rattle.cnf_base.specs.Limits.{max_clauses};
ghost use Rattle.host_io.specs.Channel.{WritesAll};
ghost use Rattle.host_io.specs.Emitted.{Emits};
ghost use Rattle.workload.specs.Board.{number, first_square, dominoes_of, most_columns};
ghost use Rattle.workload.specs.Schedule.{following, column_clauses, ending, column_commands, conjoining, quantifying, terms_in_column};
ghost use Rattle.workload.specs.Schedule.{Clauses};
ghost use Rattle.workload.specs.Cursor.{StandsAt};
ghost use Rattle.workload.specs.declared.schedule.Way.{Way as QuantifyWay};
ghost use Rattle.workload.specs.Texts.{schedule_text, sets_text, text_by, command_line, letter_of, spaced};

use crate::cursor::{Cursor, first_cursor, terms_in_column};
use crate::square::{Domino, Square, clause_count, is_domino, number, stays};
use host_io::{Failed, HeldBytes, Sink, emit, emit_number, write_all};

/// How the variables of a line are quantified: one after another, or as a set at once.
#[derive(Clone, Copy)]
enum Way {
    InTurn,
    AtOnce,
}

// The letter of the command that quantifies so.
fn letter(way: Way) -> &'static [u8]
    ensures { result.now ≡ letter_of way }
{
    match way {
        Way::InTurn => b"q",
        Way::AtOnce => b"e",
    }
}

/// Writes the column schedule of the board of n by n squares, n from 2 to 100. Where a write fails, a front of the text
/// was written. Takes no memory.
pub fn write_columns<S: Sink>(sink: &mut S, n: u32) -> Result<(), Failed>
    requires least { 2 ≤ n }
    requires most { n ≤ most_columns }
    ensures writes { WritesAll S.tells (S.channel sink.old) (S.channel sink.new) (schedule_text n) result }
    ensures beside { S.beside sink.new ≡ S.beside sink.old }
{
    write_by(sink, n, Way::InTurn)
}

/// As `write_columns`, of the schedule that quantifies the variables of each column as a set at once.
pub fn write_sets<S: Sink>(sink: &mut S, n: u32) -> Result<(), Failed>
    requires least { 2 ≤ n }
    requires most { n ≤ most_columns }
    ensures writes { WritesAll S.tells (S.channel sink.old) (S.channel sink.new) (sets_text n) result }
    ensures beside { S.beside sink.new ≡ S.beside sink.old }
{
    write_by(sink, n, Way::AtOnce)
}

fn write_by<S: Sink>(sink: &mut S, n: u32, way: Way) -> Result<(), Failed>
    requires least { 2 ≤ n }
    requires most { n ≤ most_columns }
    ensures writes { WritesAll S.tells (S.channel sink.old) (S.channel sink.new) (text_by way n) result }
    ensures beside { S.beside sink.new ≡ S.beside sink.old }
{
    let mut held = HeldBytes::new();
    emit_columns(sink, &mut held, n, way)?;
    write_all(sink, held.as_slice())
}

fn emit_columns<S: Sink>(sink: &mut S, held: &mut HeldBytes, n: u32, way: Way) -> Result<(), Failed>
    requires least { 2 ≤ n }
    requires most { n ≤ most_columns }
    ensures emits { Emits S.tells (S.channel sink.old) (S.channel sink.new) held.old.items held.new.items (text_by way n) result }
    ensures beside { S.beside sink.new ≡ S.beside sink.old }
{
    let mut cursor = first_cursor(n);
    for column in 1..n + 1 {
        emit_column(sink, held, n, column, way, &mut cursor)?;
    }
    Ok(())
}

// Puts the lines of a column.
fn emit_column<S: Sink>(
    sink: &mut S,
    held: &mut HeldBytes,
    n: u32,
    column: u32,
    way: Way,
    cursor: &mut Cursor,
) -> Result<(), Failed>
    requires least { 2 ≤ n }
    requires most { n ≤ most_columns }
    requires column { (0 < column) × (column ≤ n) }
    requires cursor { StandsAt n column cursor.old }
    ensures emits { Emits S.tells (S.channel sink.old) (S.channel sink.new) held.old.items held.new.items
        (flat_map (command_line way) (column_commands n column)) result }
    ensures beside { S.beside sink.new ≡ S.beside sink.old }
    ensures cursor { OnOk result (StandsAt n (column + 1) cursor.new) }
{
    emit(sink, held, b"c")?;
    emit_clauses(sink, held, n, column, cursor)?;
    emit(sink, held, b"\n")?;
    emit_conjoining(sink, held, terms_in_column(n, column))?;
    emit_quantifying(sink, held, n, column, way)
}

// Puts the numbers of a column's clauses.
fn emit_clauses<S: Sink>(
    sink: &mut S,
    held: &mut HeldBytes,
    n: u32,
    column: u32,
    cursor: &mut Cursor,
) -> Result<(), Failed>
    requires most { n ≤ most_columns }
    requires column { (0 < column) × (column ≤ most_columns) }
    requires cursor { StandsAt n column cursor.old }
    ensures emits { Emits S.tells (S.channel sink.old) (S.channel sink.new) held.old.items held.new.items
        (flat_map spaced (column_clauses n column)) result }
    ensures beside { S.beside sink.new ≡ S.beside sink.old }
    ensures cursor { OnOk result (StandsAt n (column + 1) cursor.new) }
{
    for row in 1..n + 1 {
        if stays(n, row, column) {
            let count = clause_count(n, row, column);
            emit_following(sink, held, cursor[row as usize], count)?;
            cursor[row as usize] += count;
        }
    }
    Ok(())
}

fn emit_following<S: Sink>(
    sink: &mut S,
    held: &mut HeldBytes,
    start: u32,
    count: u32,
) -> Result<(), Failed>
    requires { start + count ≤ max_clauses }
    ensures emits { Emits S.tells (S.channel sink.old) (S.channel sink.new) held.old.items held.new.items
        (flat_map spaced (following start count)) result }
    ensures beside { S.beside sink.new ≡ S.beside sink.old }
{
    for clause in start..start + count {
        emit_number(sink, held, b" ", clause + 1)?;
    }
    Ok(())
}

// Puts the line that conjoins so many terms, where there are two.
fn emit_conjoining<S: Sink>(sink: &mut S, held: &mut HeldBytes, terms: u32) -> Result<(), Failed>
    ensures emits { (way : QuantifyWay) → Emits S.tells (S.channel sink.old) (S.channel sink.new) held.old.items held.new.items
        (flat_map (command_line way) (conjoining terms)) result }
    ensures beside { S.beside sink.new ≡ S.beside sink.old }
{
    if terms < 2 {
        return Ok(());
    }
    emit_number(sink, held, b"a ", terms)?;
    emit(sink, held, b"\n")
}

// Puts the line that quantifies the dominoes that end in a column, where there is one.
fn emit_quantifying<S: Sink>(
    sink: &mut S,
    held: &mut HeldBytes,
    n: u32,
    column: u32,
    way: Way,
) -> Result<(), Failed>
    requires least { 2 ≤ n }
    requires most { n ≤ most_columns }
    requires column { (0 < column) × (column ≤ n) }
    ensures emits { Emits S.tells (S.channel sink.old) (S.channel sink.new) held.old.items held.new.items
        (flat_map (command_line way) (quantifying (ending n column))) result }
    ensures beside { S.beside sink.new ≡ S.beside sink.old }
{
    if n < 3 {
        return Ok(());
    }
    emit(sink, held, letter(way))?;
    emit_ending(sink, held, n, column)?;
    emit(sink, held, b"\n")
}

// Puts the numbers of the dominoes that end in a column.
fn emit_ending<S: Sink>(
    sink: &mut S,
    held: &mut HeldBytes,
    n: u32,
    column: u32,
) -> Result<(), Failed>
    requires most { n ≤ most_columns }
    requires column { (0 < column) × (column ≤ most_columns) }
    ensures emits { Emits S.tells (S.channel sink.old) (S.channel sink.new) held.old.items held.new.items
        (flat_map spaced (ending n column)) result }
    ensures beside { S.beside sink.new ≡ S.beside sink.old }
{
    for row in 1..n + 1 {
        let left = Square {
            row,
            column: column - 1,
        };
        emit_domino(sink, held, n, Domino::Across(left))?;
    }
    for row in 1..n + 1 {
        emit_domino(sink, held, n, Domino::Down(Square { row, column }))?;
    }
    Ok(())
}

// Puts a domino's number, where it is one.
fn emit_domino<S: Sink>(
    sink: &mut S,
    held: &mut HeldBytes,
    n: u32,
    domino: Domino,
) -> Result<(), Failed>
    requires most { n ≤ most_columns }
    requires near { ((first_square domino).row ≤ most_columns) × ((first_square domino).column ≤ most_columns) }
    ensures emits { Emits S.tells (S.channel sink.old) (S.channel sink.new) held.old.items held.new.items
        (flat_map spaced (map (number n) (dominoes_of n (domino ∷ [])))) result }
    ensures beside { S.beside sink.new ≡ S.beside sink.old }
{
    if is_domino(n, domino) {
        emit_number(sink, held, b" ", number(n, domino))
    } else {
        Ok(())
    }
}
