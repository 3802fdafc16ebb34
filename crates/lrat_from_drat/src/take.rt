// One step of the proof: judged, and where it is good taken, and written as the line that it becomes. Tautologies have none: no tautology
// is a clause of the LRAT proof, since a candidate that is one has no group that refutes it.
ghost use Rattle.std.specs.Prelude.{◌≡◌, ◌≢◌, ◌∷◌, [], None, Some, is_none, nat_le, Err, IfOk, OnErr, IsTrue};
ghost use Rattle.cnf_base.specs.declared.step.Step.TheVariants.{Add, Delete};
ghost use Rattle.cnf_base.specs.ProofText.{max_id};
ghost use Rattle.host_io.specs.declared.role.Role.TheVariants.{ProofOut};
ghost use Rattle.host_io.specs.Files.{Kept};
ghost use Rattle.drat_text.specs.declared.step.DratStep.TheVariants.{Add as adds, Delete as deletes};
ghost use Rattle.drat_rules.specs.Clauses.{equality_of};
ghost use Rattle.drat_proof.specs.declared.error.ConvertError.TheVariants.{OutOfMemory};
ghost use Rattle.drat_proof.specs.Conversion.{step_answer};
ghost use Rattle.drat_checker.specs.Places.{place_at};
ghost use Rattle.drat_checker.specs.Hints.{plain};
ghost use Rattle.lrat_from_drat.specs.Writing.{Takes, WritesLine};

use cnf_base::{Id, Lit};
use drat_checker::{LineHints, NumberedJudge, id_of};
use drat_proof::ConvertError;
use drat_rules::Deletions;
use drat_text::DratStep;
use host_io::{Failed, Host, HostSink, Role, Sink, beside_kept};
use lrat_rules::{Reason, live_law};
use lrat_write::{write_delete, write_step};

/// Judges a step, and where it is good takes it and writes it, in the role that was created for the proof.
pub fn take_step<H: Host>(
    judge: &mut NumberedJudge,
    line: &mut LineHints,
    deletions: Deletions,
    step: &DratStep,
    host: &mut H,
) -> Result<Option<Reason>, ConvertError>
    requires created { (H.channel host.old ProofOut).name ≢ None }
    requires wanted { IsTrue line.old.is_wanted }
    ensures wanted { line.new.is_wanted ≡ line.old.is_wanted }
    ensures takes { Takes H.tells (H.channel host.old ProofOut) (H.channel host.new ProofOut) (equality_of deletions) judge.old judge.new
        step.now result }
    ensures kept { Kept ProofOut (H.channel host.old ProofOut).name (H.channel host.old) (H.channel host.new) (H.files host.old)
        (H.files host.new) }
{
    beside_kept::<H>();
    let mut sink = HostSink::new(host, Role::ProofOut);
    take_into(judge, line, deletions, step, &mut sink)
}

fn take_into<S: Sink>(
    judge: &mut NumberedJudge,
    line: &mut LineHints,
    deletions: Deletions,
    step: &DratStep,
    sink: &mut S,
) -> Result<Option<Reason>, ConvertError>
    requires wanted { IsTrue line.old.is_wanted }
    ensures wanted { line.new.is_wanted ≡ line.old.is_wanted }
    ensures takes { Takes S.tells (S.channel sink.old) (S.channel sink.new) (equality_of deletions) judge.old judge.new step.now result }
    ensures beside { S.beside sink.new ≡ S.beside sink.old }
{
    match step {
        DratStep::Add { lits } => add_into(judge, line, deletions, lits.as_slice(), sink),
        DratStep::Delete { lits } => delete_into(judge, line, deletions, lits.as_slice(), sink),
    }
}

// An addition gets the number behind the last one, a tautology too.
fn add_into<S: Sink>(
    judge: &mut NumberedJudge,
    line: &mut LineHints,
    deletions: Deletions,
    clause: &[Lit],
    sink: &mut S,
) -> Result<Option<Reason>, ConvertError>
    requires wanted { IsTrue line.old.is_wanted }
    ensures wanted { line.new.is_wanted ≡ line.old.is_wanted }
    ensures takes { Takes S.tells (S.channel sink.old) (S.channel sink.new) (equality_of deletions) judge.old judge.new (adds clause.now)
        result }
    ensures beside { S.beside sink.new ≡ S.beside sink.old }
{
    live_law();
    let number = judge.count()?;
    let id = id_of(number);
    let tautology = line.tautology(clause)?;
    let fault = judge.add(line, clause)?;
    if let Some(reason) = fault {
        return Ok(Some(reason));
    }
    if tautology {
        return Ok(None);
    }
    write_addition(line, id, clause, sink)
}

fn write_addition<S: Sink>(
    line: &mut LineHints,
    id: Id,
    clause: &[Lit],
    sink: &mut S,
) -> Result<Option<Reason>, ConvertError>
    ensures wanted { line.new.is_wanted ≡ line.old.is_wanted }
    ensures writes { WritesLine S.tells (S.channel sink.old) (S.channel sink.new)
        (Add id clause.now line.old.hints line.old.groups) result }
    ensures beside { S.beside sink.new ≡ S.beside sink.old }
{
    let step = line.take_step(id, clause)?;
    answer_by(write_step(sink, &step))
}

// The answer for a good step, by how its write ended.
fn answer_by(written: Result<(), Failed>) -> Result<Option<Reason>, ConvertError>
    ensures { result ≡ step_answer written }
{
    match written {
        Ok(()) => Ok(None),
        Err(_) => Err(ConvertError::WriteFault),
    }
}

// A deletion names the number of the clause that goes, where one does.
fn delete_into<S: Sink>(
    judge: &mut NumberedJudge,
    line: &mut LineHints,
    deletions: Deletions,
    clause: &[Lit],
    sink: &mut S,
) -> Result<Option<Reason>, ConvertError>
    ensures wanted { line.new.is_wanted ≡ line.old.is_wanted }
    ensures takes { Takes S.tells (S.channel sink.old) (S.channel sink.new) (equality_of deletions) judge.old judge.new (deletes clause.now)
        result }
    ensures beside { S.beside sink.new ≡ S.beside sink.old }
{
    match judge.find(deletions, clause) {
        None => {
            judge.postpone(clause);
            Ok(None)
        }
        Some(number) => {
            let id = id_of(number);
            let gone = is_gone(judge, line, number)?;
            let count = judge.count()?;
            let last = last_of(count);
            judge.clear(number);
            if gone {
                return Ok(None);
            }
            write_deletion(last, id, sink)
        }
    }
}

// Whether the clause of a number is none of the LRAT proof: none stands there, or it is a tautology.
fn is_gone(judge: &NumberedJudge, line: &mut LineHints, number: u32) -> Result<bool, ConvertError>
    ensures wanted { line.new.is_wanted ≡ line.old.is_wanted }
    ensures gone { IfOk result (λ gone. gone ≡ is_none (plain (place_at judge.now number))) }
    ensures memory { OnErr result (result ≡ Err OutOfMemory) }
{
    match judge.clause(number) {
        None => Ok(true),
        Some(own) => {
            let tautology = line.tautology(own)?;
            Ok(tautology)
        }
    }
}

/// The last number that was given to an addition or a clause of the formula: a deletion's line begins with it.
pub fn last_of(count: u32) -> Id
    ensures value { result ≡ count }
    ensures range { IsTrue (nat_le count max_id) }
{
    Id(u64::from(count))
}

fn write_deletion<S: Sink>(last: Id, id: Id, sink: &mut S) -> Result<Option<Reason>, ConvertError>
    ensures writes { WritesLine S.tells (S.channel sink.old) (S.channel sink.new) (Delete last (id ∷ [])) result }
    ensures beside { S.beside sink.new ≡ S.beside sink.old }
{
    answer_by(write_delete(sink, last, &[id]))
}
