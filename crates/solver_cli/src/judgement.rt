// Judging a proof: opening its file and checking its text over the formula, by the rules of its format.
ghost use Rattle.std.specs.Prelude.{◌≡◌, ◌≢◌, ◌⊎◌, length, None, Err, IsTrue, true};
ghost use Rattle.host_io.specs.declared.role.Role.TheVariants.{ProofIn};
ghost use Rattle.host_io.specs.Channel.{Rose};
ghost use Rattle.host_io.specs.Files.{Kept};
ghost use Rattle.text_scan.specs.Decides.{gained, Decides, OnlyReads};
ghost use Rattle.proof_judging.specs.declared.verdict.CheckError.TheVariants.{ReadFault, OutOfMemory};
ghost use Rattle.proof_judging.specs.Verdict.{Answers};
ghost use Rattle.solver_cli.specs.Format.{may_want_memory_in, so_far_in, verdict_in};
ghost use Rattle.solver_cli.specs.Phases.{ChecksProof, JudgesProof};

use cnf_base::Cnf;
use command_line::ProofFormat;
use drat_checker::{check_drat, check_drat_by};
use drat_rules::Deletions;
use host_io::{Host, HostSource, Role, Source, beside_kept};
use lrat_checker::check;
use proof_judging::{CheckError, Verdict};
use std::alloc::Global;

/// Opens the file of this name and judges the proof in it over the formula.
pub fn judge<H: Host>(
    alloc: Global,
    host: &mut H,
    formula: &Cnf,
    name: &str,
    format: ProofFormat,
) -> Result<Verdict, CheckError>
    requires unread { (H.channel host.old ProofIn).name ≡ None }
    ensures judges { JudgesProof format H.tells (H.channel host.old ProofIn) (H.channel host.new ProofIn)
        (H.files host.old) name.now formula.now.clauses result }
    ensures kept { Kept ProofIn None (H.channel host.old) (H.channel host.new) (H.files host.old) (H.files host.new) }
{
    if host.open_read(Role::ProofIn, name).is_err() {
        return Err(CheckError::ReadFault);
    }
    check_opened(alloc, host, formula, format)
}

fn check_opened<H: Host>(
    alloc: Global,
    host: &mut H,
    formula: &Cnf,
    format: ProofFormat,
) -> Result<Verdict, CheckError>
    requires { (H.channel host.old ProofIn).name ≢ None }
    ensures checks { ChecksProof format H.tells (H.channel host.old ProofIn) (H.channel host.new ProofIn) formula.now.clauses result }
    ensures kept { Kept ProofIn None (H.channel host.old) (H.channel host.new) (H.files host.old) (H.files host.new) }
{
    beside_kept::<H>();
    let mut source = HostSource::new(host, Role::ProofIn);
    check_in(alloc, formula, format, &mut source)
}

// Judges a proof of this format, as its checker does.
fn check_in<S: Source>(
    alloc: Global,
    formula: &Cnf,
    format: ProofFormat,
    source: &mut S,
) -> Result<Verdict, CheckError>
    ensures decides { IsTrue S.tells → Decides (S.channel source.old) (S.channel source.new)
        (λ bytes more. Answers result (verdict_in format formula.now.clauses bytes)) }
    ensures undecided { IsTrue S.tells → result ≡ Err ReadFault →
        so_far_in format formula.now.clauses (gained (S.channel source.old) (S.channel source.new)) ≡ None }
    ensures fault { result ≡ Err ReadFault → Rose (S.channel source.old).faults (S.channel source.new).faults }
    ensures unfailed { result ≢ Err ReadFault → (S.channel source.new).faults ≡ (S.channel source.old).faults }
    ensures memory { IsTrue S.tells → result ≡ Err OutOfMemory → (S.channel source.new ≡ S.channel source.old)
        ⊎ Decides (S.channel source.old) (S.channel source.new)
        (λ bytes more. IsTrue (may_want_memory_in format formula.now.clauses (length more) bytes)) }

    ensures reads { OnlyReads (S.channel source.old) (S.channel source.new) }
    ensures beside { S.beside source.new ≡ S.beside source.old }
{
    match format {
        ProofFormat::Lrat => check(alloc, formula, source),
        ProofFormat::Drat => check_drat(alloc, formula, source),
        ProofFormat::DratBySet => check_drat_by(alloc, formula, Deletions::BySet, source),
    }
}
