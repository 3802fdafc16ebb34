// The answer, or the help, on standard output.
ghost use Rattle.std.specs.Prelude.{◌≡◌, Some};
ghost use Rattle.host_io.specs.declared.role.Role.TheVariants.{Out};
ghost use Rattle.host_io.specs.Channel.{WritesAll};
ghost use Rattle.host_io.specs.Files.{Kept};
ghost use Rattle.solver_cli.specs.Answer.{ending_text, heading, last_text, outcome_text};
ghost use Rattle.solver_cli.specs.Phases.{PutsText};

use crate::answer::Shape;
use answer_text::{
    write_board, write_id_limit, write_last_identifier, write_node_limit, write_sat, write_unsat,
};
use host_io::{Failed, Host, HostSink, Role, Sink, beside_kept, write_all};
use schedule_plan::Limits;
use term_runner::{Outcome, Run};

/// Prints the answer that was found within these limits, behind the heading of a board, if it is of one, and flushes
/// standard output.
pub fn put_answer<H: Host>(
    host: &mut H,
    ending: &Run,
    limits: Limits,
    shape: Option<Shape>,
) -> Result<(), Failed>
    ensures puts { PutsText H.tells (H.channel host.old Out) (H.channel host.new Out) (ending_text shape limits ending.now) result }
    ensures kept { Kept Out (H.channel host.old Out).name (H.channel host.old) (H.channel host.new) (H.files host.old) (H.files host.new) }
{
    beside_kept::<H>();
    let mut sink = HostSink::new(host, Role::Out);
    print_answer(&mut sink, ending, limits, shape)
}

/// Prints this text and flushes standard output.
pub fn put_text<H: Host>(host: &mut H, text: &str) -> Result<(), Failed>
    ensures puts { PutsText H.tells (H.channel host.old Out) (H.channel host.new Out) text.now result }
    ensures kept { Kept Out (H.channel host.old Out).name (H.channel host.old) (H.channel host.new) (H.files host.old) (H.files host.new) }
{
    beside_kept::<H>();
    let mut sink = HostSink::new(host, Role::Out);
    print_text(&mut sink, text)
}

fn print_text<S: Sink>(sink: &mut S, text: &str) -> Result<(), Failed>
    ensures puts { PutsText S.tells (S.channel sink.old) (S.channel sink.new) text.now result }
    ensures beside { S.beside sink.new ≡ S.beside sink.old }
{
    write_all(sink, text.as_bytes())?;
    sink.flush()
}

fn print_answer<S: Sink>(
    sink: &mut S,
    ending: &Run,
    limits: Limits,
    shape: Option<Shape>,
) -> Result<(), Failed>
    ensures puts { PutsText S.tells (S.channel sink.old) (S.channel sink.new) (ending_text shape limits ending.now) result }
    ensures beside { S.beside sink.new ≡ S.beside sink.old }
{
    write_ending(sink, ending, limits, shape)?;
    sink.flush()
}

fn write_ending<S: Sink>(
    sink: &mut S,
    ending: &Run,
    limits: Limits,
    shape: Option<Shape>,
) -> Result<(), Failed>
    ensures writes { WritesAll S.tells (S.channel sink.old) (S.channel sink.new) (ending_text shape limits ending.now) result }
    ensures beside { S.beside sink.new ≡ S.beside sink.old }
{
    match shape {
        Some(shape) => write_headed(sink, ending, limits, shape),
        None => write_answer(sink, &ending.outcome, limits),
    }
}

fn write_headed<S: Sink>(
    sink: &mut S,
    ending: &Run,
    limits: Limits,
    shape: Shape,
) -> Result<(), Failed>
    ensures writes { WritesAll S.tells (S.channel sink.old) (S.channel sink.new) (ending_text (Some shape) limits ending.now) result }
    ensures beside { S.beside sink.new ≡ S.beside sink.old }
{
    write_heading(sink, shape, ending)?;
    write_answer(sink, &ending.outcome, limits)
}

// Writes how large the board is, and the greatest identifier of a refutation.
fn write_heading<S: Sink>(sink: &mut S, shape: Shape, ending: &Run) -> Result<(), Failed>
    ensures writes { WritesAll S.tells (S.channel sink.old) (S.channel sink.new) (heading (Some shape) ending.now) result }
    ensures beside { S.beside sink.new ≡ S.beside sink.old }
{
    write_board(sink, shape.size, shape.vars, shape.clauses)?;
    write_last(sink, ending)
}

fn write_last<S: Sink>(sink: &mut S, ending: &Run) -> Result<(), Failed>
    ensures writes { WritesAll S.tells (S.channel sink.old) (S.channel sink.new) (last_text ending.now) result }
    ensures beside { S.beside sink.new ≡ S.beside sink.old }
{
    match ending.outcome {
        Outcome::Unsat => write_last_identifier(sink, ending.last_id),
        _ => Ok(()),
    }
}

fn write_answer<S: Sink>(sink: &mut S, outcome: &Outcome, limits: Limits) -> Result<(), Failed>
    ensures writes { WritesAll S.tells (S.channel sink.old) (S.channel sink.new) (outcome_text limits outcome.now) result }
    ensures beside { S.beside sink.new ≡ S.beside sink.old }
{
    match outcome {
        Outcome::Sat(values) => write_sat(sink, values.as_slice()),
        Outcome::Unsat => write_unsat(sink),
        Outcome::NodeLimit => write_node_limit(sink, u64::from(limits.max_nodes)),
        Outcome::IdLimit => write_id_limit(sink, limits.max_ids),
    }
}
