// The beginning of the proof: the formula's tautologies are deleted, in one line, where there are any.
ghost use Rattle.std.specs.Prelude.{◌≡◌, ◌≢◌, None, ℤ, List, map, length, Some, Err, IfOk, OnErr};
ghost use Rattle.host_io.specs.declared.role.Role.TheVariants.{ProofOut};
ghost use Rattle.host_io.specs.Files.{Kept};
ghost use Rattle.drat_proof.specs.declared.error.ConvertError.TheVariants.{OutOfMemory};
ghost use Rattle.drat_checker.specs.Places.{place_at};
ghost use Rattle.lrat_from_drat.specs.Starting.{AreDropped, Begins};
ghost use Rattle.lrat_from_drat.specs.Lrat.{is_dropped, tautologies_of};

use crate::take::last_of;
use cnf_base::IdList;
use drat_checker::{LineHints, NumberedJudge, id_of};
use drat_proof::ConvertError;
use host_io::{Host, HostSink, Role, Sink, beside_kept};
use lrat_rules::start_law;
use lrat_write::write_delete;
use std::alloc::Global;

/// Deletes the tautologies among the formula's clauses, which stand, in the role that was created for the proof.
pub fn begin_in<H: Host>(
    alloc: Global,
    judge: &NumberedJudge,
    line: &mut LineHints,
    host: &mut H,
) -> Result<(), ConvertError>
    requires created { (H.channel host.old ProofOut).name ≢ None }
    ensures wanted { line.new.is_wanted ≡ line.old.is_wanted }
    ensures begins { (clauses : List (List ℤ)) → judge.now ≡ map Some clauses
        → Begins H.tells (H.channel host.old ProofOut) (H.channel host.new ProofOut) clauses result }
    ensures kept { Kept ProofOut (H.channel host.old ProofOut).name (H.channel host.old) (H.channel host.new) (H.files host.old)
        (H.files host.new) }
{
    beside_kept::<H>();
    let mut sink = HostSink::new(host, Role::ProofOut);
    begin(alloc, judge, line, &mut sink)
}

fn begin<S: Sink>(
    alloc: Global,
    judge: &NumberedJudge,
    line: &mut LineHints,
    sink: &mut S,
) -> Result<(), ConvertError>
    ensures wanted { line.new.is_wanted ≡ line.old.is_wanted }
    ensures begins { (clauses : List (List ℤ)) → judge.now ≡ map Some clauses
        → Begins S.tells (S.channel sink.old) (S.channel sink.new) clauses result }
    ensures beside { S.beside sink.new ≡ S.beside sink.old }
{
    start_law();
    let count = judge.count()?;
    let last = last_of(count);
    let ids = tautologies(alloc, judge, line, count)?;
    if ids.as_slice().is_empty() {
        return Ok(());
    }
    match write_delete(sink, last, ids.as_slice()) {
        Ok(()) => Ok(()),
        Err(_) => Err(ConvertError::WriteFault),
    }
}

// The numbers of the tautologies.
fn tautologies(
    alloc: Global,
    judge: &NumberedJudge,
    line: &mut LineHints,
    count: u32,
) -> Result<IdList, ConvertError>
    requires { count ≡ length judge.now }
    ensures wanted { line.new.is_wanted ≡ line.old.is_wanted }
    ensures dropped { IfOk result (λ ids. AreDropped judge.now ids) }
    ensures all { IfOk result (λ ids. ids ≡ tautologies_of judge.now) }
    ensures memory { OnErr result (result ≡ Err OutOfMemory) }
{
    let mut ids = IdList::new(alloc);
    for number in 0..count {
        let dropped = is_tautology(judge, line, number)?;
        if !dropped {
            continue;
        }
        ids.push(id_of(number))?;
    }
    Ok(ids)
}

// Whether a tautology stands under a number.
fn is_tautology(
    judge: &NumberedJudge,
    line: &mut LineHints,
    number: u32,
) -> Result<bool, ConvertError>
    ensures wanted { line.new.is_wanted ≡ line.old.is_wanted }
    ensures answer { IfOk result (λ dropped. dropped ≡ is_dropped (place_at judge.now number)) }
    ensures memory { OnErr result (result ≡ Err OutOfMemory) }
{
    match judge.clause(number) {
        None => Ok(false),
        Some(own) => {
            let tautology = line.tautology(own)?;
            Ok(tautology)
        }
    }
}
