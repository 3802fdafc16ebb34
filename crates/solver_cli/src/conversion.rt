// Converting a proof: opening its file, creating that of the other proof, and writing what the proof becomes.
ghost use Rattle.std.specs.Prelude.{◌≡◌, ◌≢◌, None};
ghost use Rattle.host_io.specs.declared.role.Role.TheVariants.{ProofIn, ProofOut};
ghost use Rattle.drat_proof.specs.TwoRoles.{KeptButTwo};
ghost use Rattle.command_line.specs.declared.conversion.Conversion.TheVariants.{IntoLrat};
ghost use Rattle.solver_cli.specs.ConvertedProof.{Converts, ConvertsProof, RewritesProof};

use cnf_base::Cnf;
use command_line::Conversion;
use drat_proof::{ConvertError, convert};
use drat_rules::Deletions;
use host_io::{Host, Role};
use proof_judging::Verdict;
use std::alloc::Global;

/// Opens the file of the proof, creates the other one, judges the proof over the formula and writes it there in the other format.
pub fn rewrite<H: Host>(
    alloc: Global,
    host: &mut H,
    formula: &Cnf,
    proof: &str,
    out: &str,
    into: Conversion,
) -> Result<Verdict, ConvertError>
    requires unread { (H.channel host.old ProofIn).name ≡ None }
    requires unwritten { (H.channel host.old ProofOut).name ≡ None }
    ensures rewrites { RewritesProof H.tells (H.channel host.old ProofIn) (H.channel host.new ProofIn) (H.channel host.old ProofOut)
        (H.channel host.new ProofOut) (H.files host.old) proof.now out.now into formula.now result }
    ensures kept { KeptButTwo ProofIn ProofOut (H.channel host.new ProofOut).name (H.channel host.old) (H.channel host.new)
        (H.files host.old) (H.files host.new) }
{
    if host.open_read(Role::ProofIn, proof).is_err() {
        return Err(ConvertError::ReadFault);
    }
    if host.create(Role::ProofOut, out).is_err() {
        return Err(ConvertError::WriteFault);
    }
    convert_opened(alloc, host, formula, into)
}

fn convert_opened<H: Host>(
    alloc: Global,
    host: &mut H,
    formula: &Cnf,
    into: Conversion,
) -> Result<Verdict, ConvertError>
    requires opened { (H.channel host.old ProofIn).name ≢ None }
    requires created { (H.channel host.old ProofOut).name ≢ None }
    ensures converts { ConvertsProof H.tells (H.channel host.old ProofIn) (H.channel host.new ProofIn) (H.channel host.old ProofOut)
        (H.channel host.new ProofOut) into formula.now result }
    ensures kept { KeptButTwo ProofIn ProofOut (H.channel host.old ProofOut).name (H.channel host.old) (H.channel host.new)
        (H.files host.old) (H.files host.new) }
{
    let verdict = convert_into(alloc, host, formula, into)?;
    match host.flush(Role::ProofOut) {
        Ok(()) => Ok(verdict),
        Err(_) => Err(ConvertError::WriteFault),
    }
}

// Judges the opened proof and writes what it becomes, without a flush.
fn convert_into<H: Host>(
    alloc: Global,
    host: &mut H,
    formula: &Cnf,
    into: Conversion,
) -> Result<Verdict, ConvertError>
    requires opened { (H.channel host.old ProofIn).name ≢ None }
    requires created { (H.channel host.old ProofOut).name ≢ None }
    ensures converts { Converts H.tells (H.channel host.old ProofIn) (H.channel host.new ProofIn) (H.channel host.old ProofOut)
        (H.channel host.new ProofOut) into formula.now result }
    ensures kept { KeptButTwo ProofIn ProofOut (H.channel host.old ProofOut).name (H.channel host.old) (H.channel host.new)
        (H.files host.old) (H.files host.new) }
{
    match into {
        Conversion::IntoDrat { fresh } => convert(alloc, formula, fresh, host),
        Conversion::IntoLrat { any_order } => to_lrat(alloc, host, formula, any_order),
    }
}

// The same from DRAT to LRAT, where a deletion names its literals in any order or in the clause's.
fn to_lrat<H: Host>(
    alloc: Global,
    host: &mut H,
    formula: &Cnf,
    any_order: bool,
) -> Result<Verdict, ConvertError>
    requires opened { (H.channel host.old ProofIn).name ≢ None }
    requires created { (H.channel host.old ProofOut).name ≢ None }
    ensures converts { Converts H.tells (H.channel host.old ProofIn) (H.channel host.new ProofIn) (H.channel host.old ProofOut)
        (H.channel host.new ProofOut) (IntoLrat any_order) formula.now result }
    ensures kept { KeptButTwo ProofIn ProofOut (H.channel host.old ProofOut).name (H.channel host.old) (H.channel host.new)
        (H.files host.old) (H.files host.new) }
{
    if any_order {
        lrat_from_drat::convert(alloc, formula, Deletions::BySet, host)
    } else {
        lrat_from_drat::convert(alloc, formula, Deletions::ByList, host)
    }
}
