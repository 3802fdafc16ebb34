// The lines of an outcome.
ghost use Rattle.std.specs.Prelude.{◌≡◌, ◌++◌, decimal, codes};
ghost use Rattle.host_io.specs.Channel.{WritesAll};
ghost use Rattle.answer_text.specs.Status.{unsat_line, verified_line, sat_text, node_limit_text, id_limit_text, refused_text, reason_name};
ghost use Rattle.answer_text.specs.Status.{board_line, cube_line, kept_line, last_line, trimmed_text};

use crate::model::write_model;
use host_io::{Failed, Sink, write_all};
use itoa::Buffer;
use lrat_rules::Reason;

/// Writes that the formula is satisfiable, and its model.
pub fn write_sat<S: Sink>(sink: &mut S, values: &[bool]) -> Result<(), Failed>
    ensures writes { WritesAll S.tells (S.channel sink.old) (S.channel sink.new) (sat_text values.now) result }
    ensures beside { S.beside sink.new ≡ S.beside sink.old }
{
    write_all(sink, b"s SATISFIABLE\n")?;
    write_model(sink, values)
}

/// Writes that the formula is unsatisfiable.
pub fn write_unsat<S: Sink>(sink: &mut S) -> Result<(), Failed>
    ensures writes { WritesAll S.tells (S.channel sink.old) (S.channel sink.new) unsat_line result }
    ensures beside { S.beside sink.new ≡ S.beside sink.old }
{
    write_all(sink, b"s UNSATISFIABLE\n")
}

/// Writes that the limit of nodes was reached.
pub fn write_node_limit<S: Sink>(sink: &mut S, n: u64) -> Result<(), Failed>
    ensures writes { WritesAll S.tells (S.channel sink.old) (S.channel sink.new) (node_limit_text n) result }
    ensures beside { S.beside sink.new ≡ S.beside sink.old }
{
    write_limit(sink, b"c node limit ", n)
}

/// Writes that the limit of identifiers was reached.
pub fn write_id_limit<S: Sink>(sink: &mut S, n: u64) -> Result<(), Failed>
    ensures writes { WritesAll S.tells (S.channel sink.old) (S.channel sink.new) (id_limit_text n) result }
    ensures beside { S.beside sink.new ≡ S.beside sink.old }
{
    write_limit(sink, b"c identifier limit ", n)
}

/// Writes that a proof was verified.
pub fn write_verified<S: Sink>(sink: &mut S) -> Result<(), Failed>
    ensures writes { WritesAll S.tells (S.channel sink.old) (S.channel sink.new) verified_line result }
    ensures beside { S.beside sink.new ≡ S.beside sink.old }
{
    write_all(sink, b"s VERIFIED\n")
}

/// Writes that a proof was not verified, behind the line that was refused and why.
pub fn write_refused<S: Sink>(sink: &mut S, line: u64, reason: Reason) -> Result<(), Failed>
    ensures writes { WritesAll S.tells (S.channel sink.old) (S.channel sink.new) (refused_text line reason) result }
    ensures beside { S.beside sink.new ≡ S.beside sink.old }
{
    write_all(sink, b"c line ")?;
    write_all(sink, Buffer::new().format(line).as_bytes())?;
    write_all(sink, b" ")?;
    write_all(sink, reason_name(reason))?;
    write_all(sink, b"\ns NOT VERIFIED\n")
}

/// Writes how large the board of a workload is: squares a side, variables and clauses.
pub fn write_board<S: Sink>(
    sink: &mut S,
    size: u32,
    variables: u32,
    clauses: usize,
) -> Result<(), Failed>
    ensures writes { WritesAll S.tells (S.channel sink.old) (S.channel sink.new) (board_line size variables clauses) result }
    ensures beside { S.beside sink.new ≡ S.beside sink.old }
{
    write_count(sink, b"c board ", size as u64)?;
    write_count(sink, b" variables ", variables as u64)?;
    write_count(sink, b" clauses ", clauses as u64)?;
    write_all(sink, b"\n")
}

/// Writes the greatest identifier of a proof.
pub fn write_last_identifier<S: Sink>(sink: &mut S, id: u64) -> Result<(), Failed>
    ensures writes { WritesAll S.tells (S.channel sink.old) (S.channel sink.new) (last_line id) result }
    ensures beside { S.beside sink.new ≡ S.beside sink.old }
{
    write_count(sink, b"c last identifier ", id)?;
    write_all(sink, b"\n")
}

/// Writes which cube the next answer is of.
pub fn write_cube<S: Sink>(sink: &mut S, number: u64) -> Result<(), Failed>
    ensures writes { WritesAll S.tells (S.channel sink.old) (S.channel sink.new) (cube_line number) result }
    ensures beside { S.beside sink.new ≡ S.beside sink.old }
{
    write_count(sink, b"c cube ", number)?;
    write_all(sink, b"\n")
}

/// Writes that a proof was verified, behind how many of its additions were kept.
pub fn write_trimmed<S: Sink>(sink: &mut S, kept: u64, total: u64) -> Result<(), Failed>
    ensures writes { WritesAll S.tells (S.channel sink.old) (S.channel sink.new) (trimmed_text kept total) result }
    ensures beside { S.beside sink.new ≡ S.beside sink.old }
{
    write_kept(sink, kept, total)?;
    write_verified(sink)
}

// Writes how many additions of a proof were kept, and of how many.
fn write_kept<S: Sink>(sink: &mut S, kept: u64, total: u64) -> Result<(), Failed>
    ensures writes { WritesAll S.tells (S.channel sink.old) (S.channel sink.new) (kept_line kept total) result }
    ensures beside { S.beside sink.new ≡ S.beside sink.old }
{
    write_count(sink, b"c kept ", kept)?;
    write_count(sink, b" of ", total)?;
    write_all(sink, b"\n")
}

// Writes words and a number behind them.
fn write_count<S: Sink>(sink: &mut S, words: &[u8], n: u64) -> Result<(), Failed>
    ensures writes { WritesAll S.tells (S.channel sink.old) (S.channel sink.new) (words.now ++ decimal n) result }
    ensures beside { S.beside sink.new ≡ S.beside sink.old }
{
    write_all(sink, words)?;
    write_all(sink, Buffer::new().format(n).as_bytes())
}

fn reason_name(reason: Reason) -> &'static [u8]
    ensures { result.now ≡ reason_name reason }
{
    match reason {
        Reason::Syntax => b"Syntax",
        Reason::IdNotGreater => b"IdNotGreater",
        Reason::HintNotLive => b"HintNotLive",
        Reason::HintNotUnit => b"HintNotUnit",
        Reason::NoConflict => b"NoConflict",
        Reason::CandidateOpen => b"CandidateOpen",
        Reason::GroupStray => b"GroupStray",
        Reason::NoEmptyClause => b"NoEmptyClause",
    }
}

// Writes which limit was reached, and that the answer is unknown.
fn write_limit<S: Sink>(sink: &mut S, limit: &[u8], n: u64) -> Result<(), Failed>
    ensures writes { WritesAll S.tells (S.channel sink.old) (S.channel sink.new) (limit.now
        ++ (decimal n ++ codes " reached\ns UNKNOWN\n")) result }
    ensures beside { S.beside sink.new ≡ S.beside sink.old }
{
    write_all(sink, limit)?;
    write_all(sink, Buffer::new().format(n).as_bytes())?;
    write_all(sink, b" reached\ns UNKNOWN\n")
}
