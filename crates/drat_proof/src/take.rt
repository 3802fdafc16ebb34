// One step of the proof: judged, and where it is good taken, and written as what it becomes.
ghost use Rattle.std.specs.Prelude.{◌≡◌, ◌≢◌, None, OnOk};
ghost use Rattle.std.specs.Option.{option_copied};
ghost use Rattle.std.specs.FinMap as map;
ghost use Rattle.host_io.specs.declared.role.Role.TheVariants.{ProofOut};
ghost use Rattle.host_io.specs.Channel.{WritesAll};
ghost use Rattle.host_io.specs.Files.{Kept};
ghost use Rattle.lrat_rules.specs.State.{clause_at, without_clauses};
ghost use Rattle.drat_text.specs.DratText.{drat_text};
ghost use Rattle.drat_proof.specs.Drat.{deletion_of, deletions};
ghost use Rattle.drat_proof.specs.Naming.{behind_all, named_by, names_ahead};
ghost use Rattle.drat_proof.specs.Conversion.{Takes, WritesAddition, step_answer};

use crate::error::ConvertError;
use crate::line::write_step;
use crate::naming::Naming;
use cnf_base::{Id, Lit, Step};
use host_io::{Failed, Host, HostSink, Role, Sink, beside_kept};
use lrat_checker::Judge;
use lrat_rules::Reason;

/// Judges a step, and where it is good takes it and writes it, in the role that was created for the proof.
pub fn take_step<H: Host>(
    judge: &mut Judge,
    naming: &mut Naming,
    step: &Step,
    host: &mut H,
) -> Result<Option<Reason>, ConvertError>
    requires created { (H.channel host.old ProofOut).name ≢ None }
    ensures takes { Takes H.tells (H.channel host.old ProofOut) (H.channel host.new ProofOut) judge.old judge.new
        (names_ahead naming.old) (names_ahead naming.new) step.now result }
    ensures kept { Kept ProofOut (H.channel host.old ProofOut).name (H.channel host.old) (H.channel host.new) (H.files host.old)
        (H.files host.new) }
{
    beside_kept::<H>();
    let mut sink = HostSink::new(host, Role::ProofOut);
    take_into(judge, naming, step, &mut sink)
}

fn take_into<S: Sink>(
    judge: &mut Judge,
    naming: &mut Naming,
    step: &Step,
    sink: &mut S,
) -> Result<Option<Reason>, ConvertError>
    ensures takes { Takes S.tells (S.channel sink.old) (S.channel sink.new) judge.old judge.new (names_ahead naming.old)
        (names_ahead naming.new) step.now result }
    ensures beside { S.beside sink.new ≡ S.beside sink.old }
{
    match step {
        Step::Add { lits, .. } => match judge.step(step) {
            Ok(None) => write_addition(naming, lits.as_slice(), sink),
            Ok(Some(reason)) => Ok(Some(reason)),
            Err(_) => Err(ConvertError::OutOfMemory),
        },
        Step::Delete { ids, .. } => answer_by(delete_all(judge, naming, ids.as_slice(), sink)),
    }
}

// Writes a good addition's clause, with a name for each variable that comes into use.
fn write_addition<S: Sink>(
    naming: &mut Naming,
    clause: &[Lit],
    sink: &mut S,
) -> Result<Option<Reason>, ConvertError>
    ensures writes { WritesAddition S.tells (S.channel sink.old) (S.channel sink.new) (names_ahead naming.old)
        (names_ahead naming.new) clause.now result }
    ensures beside { S.beside sink.new ≡ S.beside sink.old }
{
    naming.enter(clause)?;
    answer_by(write_step(sink, naming, false, clause))
}

// The answer for a good step, by how its write ended.
fn answer_by(written: Result<(), Failed>) -> Result<Option<Reason>, ConvertError>
    ensures { result ≡ step_answer written }
{
    match written {
        Ok(()) => Ok(None),
        Err(_) => Err(ConvertError::WriteFault),
    }
}

// Takes out the clauses of these numbers that are live, each at its turn, and writes their deletions, the line before its clause goes.
// So a number that is named twice is written once.
fn delete_all<S: Sink>(
    judge: &mut Judge,
    naming: &mut Naming,
    ids: &[Id],
    sink: &mut S,
) -> Result<(), Failed>
    ensures writes { WritesAll S.tells (S.channel sink.old) (S.channel sink.new)
        (drat_text (named_by (names_ahead naming.old) (deletions judge.old.live ids.now))) result }
    ensures removed { OnOk result (judge.new ≡ record judge.old { live = without_clauses judge.old.live ids.now }) }
    ensures named { OnOk result (names_ahead naming.new ≡ behind_all (names_ahead naming.old) (deletions judge.old.live ids.now)) }
    ensures beside { S.beside sink.new ≡ S.beside sink.old }
{
    for id in ids {
        delete_one(judge, naming, *id, sink)?;
    }
    Ok(())
}

// The same of one number.
fn delete_one<S: Sink>(
    judge: &mut Judge,
    naming: &mut Naming,
    id: Id,
    sink: &mut S,
) -> Result<(), Failed>
    ensures writes { WritesAll S.tells (S.channel sink.old) (S.channel sink.new)
        (drat_text (named_by (names_ahead naming.old) (deletion_of (clause_at judge.old.live id)))) result }
    ensures removed { OnOk result (judge.new ≡ record judge.old { live = map.remove judge.old.live id }) }
    ensures named { names_ahead naming.new ≡ behind_all (names_ahead naming.old) (deletion_of (clause_at judge.old.live id)) }
    ensures beside { S.beside sink.new ≡ S.beside sink.old }
{
    write_deletion(sink, naming, judge.clause(id))?;
    judge.remove(id);
    Ok(())
}

// Writes the deletion of a clause, where there is one.
fn write_deletion<S: Sink>(
    sink: &mut S,
    naming: &mut Naming,
    clause: Option<&[Lit]>,
) -> Result<(), Failed>
    ensures writes { WritesAll S.tells (S.channel sink.old) (S.channel sink.new)
        (drat_text (named_by (names_ahead naming.old) (deletion_of (option_copied clause.entry)))) result }
    ensures named { names_ahead naming.new ≡ behind_all (names_ahead naming.old) (deletion_of (option_copied clause.entry)) }
    ensures beside { S.beside sink.new ≡ S.beside sink.old }
{
    match clause {
        Some(clause) => {
            naming.leave(clause);
            write_step(sink, naming, true, clause)
        }
        None => Ok(()),
    }
}
