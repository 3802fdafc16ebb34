// The answers to cubes on standard output.
ghost use Rattle.std.specs.Prelude.{◌≡◌, ◌++◌};
ghost use Rattle.host_io.specs.declared.role.Role.TheVariants.{Out};
ghost use Rattle.host_io.specs.Channel.{WritesAll};
ghost use Rattle.host_io.specs.Files.{Kept};
ghost use Rattle.answer_text.specs.Status.{cube_line};
ghost use Rattle.solver_cli.specs.Phases.{PutsText};
ghost use Rattle.solver_cli.specs.Replies.{answer_lines, answers_from, replies_text, status_of_replies};

use crate::status::{Status, Why};
use answer_text::{write_cube, write_id_limit, write_node_limit, write_sat, write_unsat};
use cube_queries::{Answer, Outcome};
use host_io::{Failed, Host, HostSink, Role, Sink, beside_kept};
use schedule_plan::Limits;

/// Prints the answer to each cube, or the limit that was reached, and flushes standard output.
pub fn put_replies<H: Host>(host: &mut H, found: &Outcome, limits: Limits) -> Result<(), Failed>
    ensures puts { PutsText H.tells (H.channel host.old Out) (H.channel host.new Out) (replies_text limits found.now) result }
    ensures kept { Kept Out (H.channel host.old Out).name (H.channel host.old) (H.channel host.new) (H.files host.old) (H.files host.new) }
{
    beside_kept::<H>();
    let mut sink = HostSink::new(host, Role::Out);
    print_replies(&mut sink, found, limits)
}

fn print_replies<S: Sink>(sink: &mut S, found: &Outcome, limits: Limits) -> Result<(), Failed>
    ensures puts { PutsText S.tells (S.channel sink.old) (S.channel sink.new) (replies_text limits found.now) result }
    ensures beside { S.beside sink.new ≡ S.beside sink.old }
{
    write_replies(sink, found, limits)?;
    sink.flush()
}

fn write_replies<S: Sink>(sink: &mut S, found: &Outcome, limits: Limits) -> Result<(), Failed>
    ensures writes { WritesAll S.tells (S.channel sink.old) (S.channel sink.new) (replies_text limits found.now) result }
    ensures beside { S.beside sink.new ≡ S.beside sink.old }
{
    match found {
        Outcome::Answered(answers) => write_answers(sink, answers.as_slice()),
        Outcome::NodeLimit => write_node_limit(sink, u64::from(limits.max_nodes)),
        Outcome::IdLimit => write_id_limit(sink, limits.max_ids),
    }
}

fn write_answers<S: Sink>(sink: &mut S, answers: &[Answer]) -> Result<(), Failed>
    ensures writes { WritesAll S.tells (S.channel sink.old) (S.channel sink.new) (answers_from 1 answers.now) result }
    ensures beside { S.beside sink.new ≡ S.beside sink.old }
{
    for (place, answer) in answers.iter().enumerate() {
        write_numbered(sink, place as u64 + 1, answer)?;
    }
    Ok(())
}

// Writes an answer behind the number of its cube.
fn write_numbered<S: Sink>(sink: &mut S, number: u64, answer: &Answer) -> Result<(), Failed>
    ensures writes { WritesAll S.tells (S.channel sink.old) (S.channel sink.new) (cube_line number ++ answer_lines answer.now) result }
    ensures beside { S.beside sink.new ≡ S.beside sink.old }
{
    write_cube(sink, number)?;
    write_reply(sink, answer)
}

fn write_reply<S: Sink>(sink: &mut S, answer: &Answer) -> Result<(), Failed>
    ensures writes { WritesAll S.tells (S.channel sink.old) (S.channel sink.new) (answer_lines answer.now) result }
    ensures beside { S.beside sink.new ≡ S.beside sink.old }
{
    match answer {
        Answer::Unsat => write_unsat(sink),
        Answer::Sat(values) => write_sat(sink, values.as_slice()),
    }
}

/// The status of a run that printed what a session came to.
pub fn status_of_replies(found: &Outcome) -> Status
    ensures { result ≡ status_of_replies found.now }
{
    match found {
        Outcome::Answered(_) => Status::Answered,
        Outcome::NodeLimit => Status::Unknown(Why::NodeLimit),
        Outcome::IdLimit => Status::Unknown(Why::IdLimit),
    }
}
