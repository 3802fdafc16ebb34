// The trimmed form of a proof, as it is kept, and its lines.
ghost use Rattle.std.specs.Prelude.{◌≡◌, ◌≤◌, ℕ, Bool, ◌+◌, ◌||◌, ◌∷◌, ◌++◌, [], OnOk, decimal, false, length};
ghost use Rattle.host_io.specs.Channel.{WritesAll};
ghost use Rattle.host_io.specs.Emitted.{Emits};
ghost use Rattle.proof_trim.specs.Lines.{IsOfCodes, Puts, behind_codes_at, head_of_deletion, part_at, text_from};
ghost use Rattle.proof_trim.specs.Numbers.{has};
ghost use Rattle.proof_trim.specs.Trimmed.{is_there};
ghost use Rattle.proof_trim.specs.Packed.{code_text, number_of};
ghost use Rattle.proof_trim.specs.declared.place.Place.TheVariants.{Between, Clause, Deleted};

use crate::line_buffer::LineBuffer;
use crate::numbers::Numbers;
use crate::place::Place;
use crate::row::Row;
use cnf_base::Id;
use host_io::{Failed, Sink, write_all};
use std::marker::Model;

/// The steps that a proof needs, in little memory; seen as their text.
#[derive(Drop)]
pub struct KeptSteps {
    row: Row,
    numbers: Numbers,
    count: u64,
}

impl Model for KeptSteps {
    ghost use Rattle.std.specs.Prelude.{List, ℕ};
    ghost use Rattle.proof_trim.specs.Lines.{text_from};
    ghost use Rattle.proof_trim.specs.Numbers.{has};
    ghost use Rattle.proof_trim.specs.Trimmed.{is_there};
    ghost use Rattle.proof_trim.specs.declared.place.Place.TheVariants.{Between};

    ghost Value = { List ℕ };

    ghost view = { λ kept. text_from (is_there kept.count (has kept.numbers)) Between kept.row };
}

impl KeptSteps {
    /// Those of steps on a stack, whose deletions keep the numbers of a formula's clauses, of which there are so many, and these.
    pub(crate) fn of(row: Row, numbers: Numbers, count: u64) -> KeptSteps
        ensures { result ≡ text_from (is_there count (has numbers)) Between row }
    {
        KeptSteps {
            row,
            numbers,
            count,
        }
    }

    /// Writes the lines, and lets go what was written. Where a write fails, a front of them was written. Takes no memory.
    pub fn write<S: Sink>(&mut self, sink: &mut S) -> Result<(), Failed>
        ensures writes { WritesAll S.tells (S.channel sink.old) (S.channel sink.new) self.old result }
        ensures beside { S.beside sink.new ≡ S.beside sink.old }
    {
        write_lines(&mut self.row, &self.numbers, self.count, sink)
    }
}

fn write_lines<S: Sink>(
    row: &mut Row,
    numbers: &Numbers,
    count: u64,
    sink: &mut S,
) -> Result<(), Failed>
    ensures writes { WritesAll S.tells (S.channel sink.old) (S.channel sink.new)
        (text_from (is_there count (has numbers.now)) Between row.old) result }
    ensures beside { S.beside sink.new ≡ S.beside sink.old }
{
    let mut held = LineBuffer::new();
    'steps: loop {
        match row.pop() {
            Some(kind) => emit_step(sink, &mut held, row, kind, numbers, count)?,
            None => return write_all(sink, held.as_slice()),
        }
    }
}

// The line of a step of this kind, if it has one.
#[inline(always)]
fn emit_step<S: Sink>(
    sink: &mut S,
    held: &mut LineBuffer,
    row: &mut Row,
    kind: u64,
    numbers: &Numbers,
    count: u64,
) -> Result<(), Failed>
    ensures puts { Puts S.tells (S.channel sink.old) (S.channel sink.new) held.old held.new
        (text_from (is_there count (has numbers.now)) Between (kind ∷ row.old))
        (text_from (is_there count (has numbers.now)) Between row.new) result }
    ensures beside { S.beside sink.new ≡ S.beside sink.old }
    ensures shorter { length row.new ≤ length row.old }
{
    match row.pop() {
        Some(id) => {
            if kind == 1 {
                return emit_deletion(sink, held, row, id, numbers, count);
            }
            emit_addition(sink, held, row, id)
        }
        None => Ok(()),
    }
}

// The line of an addition: its number, its clause, its hints.
#[inline(always)]
fn emit_addition<S: Sink>(
    sink: &mut S,
    held: &mut LineBuffer,
    row: &mut Row,
    id: u64,
) -> Result<(), Failed>
    ensures puts { (there : ℕ → Bool) → Puts S.tells (S.channel sink.old) (S.channel sink.new) held.old held.new
        (decimal id ++ text_from there Clause row.old) (text_from there Between row.new) result }
    ensures beside { S.beside sink.new ≡ S.beside sink.old }
    ensures shorter { length row.new ≤ length row.old }
{
    emit_part(sink, held, Place::Own(3), id, false)?;
    emit_codes(sink, held, row, Place::Clause)?;
    emit_codes(sink, held, row, Place::Hints)
}

// Codes, and the 0 behind them. (Inlined for each of both places, so that no code asks for its place.)
#[inline(always)]
fn emit_codes<S: Sink>(
    sink: &mut S,
    held: &mut LineBuffer,
    row: &mut Row,
    place: Place,
) -> Result<(), Failed>
    requires { IsOfCodes place }
    ensures puts { (there : ℕ → Bool) → Puts S.tells (S.channel sink.old) (S.channel sink.new) held.old held.new
        (text_from there place row.old) (text_from there (behind_codes_at place) row.new) result }
    ensures beside { S.beside sink.new ≡ S.beside sink.old }
    ensures shorter { length row.new ≤ length row.old }
{
    'codes: loop {
        match row.pop() {
            Some(code) => {
                emit_part(sink, held, place, code, false)?;
                if code == 0 {
                    return Ok(());
                }
            }
            None => return Ok(()),
        }
    }
}

// The line of a deletion, with the numbers that are there.
fn emit_deletion<S: Sink>(
    sink: &mut S,
    held: &mut LineBuffer,
    row: &mut Row,
    id: u64,
    numbers: &Numbers,
    count: u64,
) -> Result<(), Failed>
    ensures puts { Puts S.tells (S.channel sink.old) (S.channel sink.new) held.old held.new
        (text_from (is_there count (has numbers.now)) (Deleted id false) row.old)
        (text_from (is_there count (has numbers.now)) Between row.new) result }
    ensures beside { S.beside sink.new ≡ S.beside sink.old }
    ensures shorter { length row.new ≤ length row.old }
{
    let mut begun = false;
    'numbers: loop {
        match row.pop() {
            Some(code) => {
                let is_there = numbers.is_there(count, Id(number_of(code)));
                emit_part(sink, held, Place::Deleted(id, begun), code, is_there)?;
                if code == 0 {
                    return Ok(());
                }
                begun = is_begun(begun, is_there);
            }
            None => return Ok(()),
        }
    }
}

// Whether its line has begun then.
fn is_begun(begun: bool, is_there: bool) -> bool
    ensures { result ≡ (begun || is_there) }
{
    begun || is_there
}

/// What a code stands for.
#[inline(always)]
pub fn number_of(code: u64) -> u64
    ensures { result ≡ number_of code }
{
    code.saturating_sub(1) / 2
}

#[inline(always)]
fn emit_part<S: Sink>(
    sink: &mut S,
    held: &mut LineBuffer,
    place: Place,
    number: u64,
    is_there: bool,
) -> Result<(), Failed>
    ensures emits { Emits S.tells (S.channel sink.old) (S.channel sink.new) held.old held.new
        (part_at place number is_there) result }
    ensures beside { S.beside sink.new ≡ S.beside sink.old }
{
    make_room(sink, held)?;
    put_part(held, place, number, is_there);
    Ok(())
}

// Has the buffer take one part more: the longest is the head of a deletion with a number behind it, 44 bytes.
#[inline(always)]
fn make_room<S: Sink>(sink: &mut S, held: &mut LineBuffer) -> Result<(), Failed>
    ensures emits { Emits S.tells (S.channel sink.old) (S.channel sink.new) held.old held.new [] result }
    ensures room { OnOk result (length held.new ≤ 4048) }
    ensures beside { S.beside sink.new ≡ S.beside sink.old }
{
    if held.len() <= 4048 {
        return Ok(());
    }
    write_out(sink, held)
}

#[cold]
#[inline(never)]
fn write_out<S: Sink>(sink: &mut S, held: &mut LineBuffer) -> Result<(), Failed>
    ensures emits { Emits S.tells (S.channel sink.old) (S.channel sink.new) held.old held.new [] result }
    ensures room { OnOk result (length held.new ≤ 4048) }
    ensures beside { S.beside sink.new ≡ S.beside sink.old }
{
    write_all(sink, held.as_slice())?;
    held.clear();
    Ok(())
}

#[inline(always)]
fn put_part(held: &mut LineBuffer, place: Place, number: u64, is_there: bool)
    requires { length held.old ≤ 4048 }
    ensures { held.new ≡ held.old ++ part_at place number is_there }
{
    match place {
        Place::Between => {}
        Place::Own(1) => {}
        Place::Own(_) => held.put_number(number),
        Place::Clause if number == 0 => held.put_two(b' ', b'0'),
        Place::Clause => held.put_code(number),
        Place::Hints if number == 0 => put_end(held),
        Place::Hints => held.put_code(number),
        Place::Deleted(id, begun) => put_deleted(held, id, begun, number, is_there),
    }
}

// The 0 that ends a line.
#[inline(always)]
fn put_end(held: &mut LineBuffer)
    requires { length held.old ≤ 4048 }
    ensures { held.new ≡ held.old ++ 32 ∷ 48 ∷ 10 ∷ [] }
{
    held.put_two(b' ', b'0');
    held.put_byte(b'\n');
}

fn put_deleted(held: &mut LineBuffer, id: u64, begun: bool, number: u64, is_there: bool)
    requires { length held.old ≤ 4048 }
    ensures { held.new ≡ held.old ++ part_at (Deleted id begun) number is_there }
{
    if number == 0 {
        if begun {
            put_end(held);
        }
        return;
    }
    if is_there {
        put_listed(held, id, begun, number);
    }
}

// A number of a deletion, behind the head of its line where it is the first.
fn put_listed(held: &mut LineBuffer, id: u64, begun: bool, number: u64)
    requires { length held.old ≤ 4048 }
    ensures { held.new ≡ held.old ++ (head_of_deletion begun id ++ code_text number) }
{
    if begun {
        held.put_code(number);
        return;
    }
    put_head(held, id);
    held.put_code(number);
}

fn put_head(held: &mut LineBuffer, id: u64)
    requires { length held.old ≤ 4048 }
    ensures text { held.new ≡ held.old ++ head_of_deletion false id }
    ensures room { length held.new ≤ 4074 }
{
    held.put_number(id);
    held.put_two(b' ', b'd');
}
