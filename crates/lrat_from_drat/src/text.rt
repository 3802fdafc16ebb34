// From a DRAT proof to an LRAT proof: a reader gives the steps in turn, a judge takes them, and each is written.
ghost use Rattle.std.specs.Prelude.{◌≡◌, ◌≢◌, ◌⊎◌, ◌++◌, ℤ, List, length, map, None, Some, Ok, Err, IsTrue};
ghost use Rattle.host_io.specs.declared.role.Role.TheVariants.{ProofIn, ProofOut};
ghost use Rattle.host_io.specs.Channel.{Rose};
ghost use Rattle.text_scan.specs.Decides.{gained, Decides, OnlyReads};
ghost use Rattle.lrat_text.specs.declared.reader.ReaderStatus.TheVariants.{Reading};
ghost use Rattle.lrat_rules.specs.State.{State, start};
ghost use Rattle.lrat_rules.specs.Run.{Refutes};
ghost use Rattle.proof_judging.specs.declared.verdict.Verdict.TheVariants.{Verified};
ghost use Rattle.drat_rules.specs.Clauses.{equality_of};
ghost use Rattle.drat_proof.specs.declared.error.ConvertError.TheVariants.{ReadFault, OutOfMemory, WriteFault};
ghost use Rattle.drat_proof.specs.Conversion.{HasVerdict};
ghost use Rattle.drat_proof.specs.TwoRoles.{KeptButTwo, OnlyWrites, added};
ghost use Rattle.drat_checker.specs.DratVerdict.{drat_text_verdict_by, drat_verdict_so_far_by};
ghost use Rattle.drat_checker.specs.Memory.{drat_check_may_want_memory_by};
ghost use Rattle.lrat_from_drat.specs.Following.{Follows};
ghost use Rattle.lrat_from_drat.specs.Lrat.{lrat_steps};
ghost use Rattle.lrat_from_drat.specs.Conversion.{ConvertsFrom, ConvertsSteps, HasLines, HasSteps};
ghost use Rattle.lrat_from_drat.specs.Converting.{IsReady, converting_rules};

use crate::start::begin_in;
use crate::take::take_step;
use cnf_base::{Cnf, LitList};
use drat_checker::{LineHints, NumberedJudge, or_adds_empty};
use drat_proof::ConvertError;
use drat_rules::Deletions;
use drat_text::{DratLine, DratReader, DratStep};
use host_io::Host;
use lrat_rules::{Reason, steps_text_law};
use lrat_text::StepError;
use proof_judging::{CheckError, StepJudge, Verdict, judge_steps, read_step};
use std::alloc::Global;
use text_scan::MAX_BYTES;

/// Judges the DRAT proof that was opened in the role `ProofIn`, as `check_drat_by` does, and writes an LRAT proof of the same in the role
/// `ProofOut`, which was created. What was written is not flushed.
pub fn convert<H: Host>(
    alloc: Global,
    formula: &Cnf,
    deletions: Deletions,
    host: &mut H,
) -> Result<Verdict, ConvertError>
    requires opened { (H.channel host.old ProofIn).name ≢ None }
    requires created { (H.channel host.old ProofOut).name ≢ None }
    // The answer is that of the bytes that were taken and whatever may follow them, so of the whole text.
    ensures decides { IsTrue H.tells → Decides (H.channel host.old ProofIn) (H.channel host.new ProofIn)
        (λ bytes more. HasVerdict result (drat_text_verdict_by (equality_of deletions) formula.now.clauses bytes)) }
    // Where the proof is verified, what was written refutes the formula's clauses.
    ensures refutes { IsTrue H.tells → result ≡ Ok Verified → Refutes formula.now.clauses
        (added (H.channel host.old ProofOut) (H.channel host.new ProofOut)) }
    // At every exit it is good steps from the formula's clauses on, of which a front was written where a write failed.
    ensures written { IsTrue H.tells → HasSteps result (start formula.now.clauses)
        (added (H.channel host.old ProofOut) (H.channel host.new ProofOut)) }
    // Hints apart, it is the proof that the whole text becomes: all of it, or its first lines where a call failed or memory was refused.
    ensures lines { IsTrue H.tells → Decides (H.channel host.old ProofIn) (H.channel host.new ProofIn)
        (λ bytes more. HasLines result (lrat_steps (equality_of deletions) formula.now.clauses bytes)
        (added (H.channel host.old ProofOut) (H.channel host.new ProofOut))) }
    ensures appended { IsTrue H.tells → (H.channel host.new ProofOut).written
        ≡ (H.channel host.old ProofOut).written ++ added (H.channel host.old ProofOut) (H.channel host.new ProofOut) }
    // a read fails only where the bytes taken decide nothing yet
    ensures undecided { IsTrue H.tells → result ≡ Err ReadFault → drat_verdict_so_far_by (equality_of deletions) formula.now.clauses
        (gained (H.channel host.old ProofIn) (H.channel host.new ProofIn)) ≡ None }
    ensures read_fault { result ≡ Err ReadFault → Rose (H.channel host.old ProofIn).faults (H.channel host.new ProofIn).faults }
    ensures write_fault { result ≡ Err WriteFault → Rose (H.channel host.old ProofOut).faults (H.channel host.new ProofOut).faults }
    // no failed call is told as anything else
    ensures read { result ≢ Err ReadFault → (H.channel host.new ProofIn).faults ≡ (H.channel host.old ProofIn).faults }
    ensures unfailed { result ≢ Err WriteFault → (H.channel host.new ProofOut).faults ≡ (H.channel host.old ProofOut).faults }
    // Memory is wanted only where the check of the proof may want it, or before the first byte is taken.
    ensures memory { IsTrue H.tells → result ≡ Err OutOfMemory → (H.channel host.new ProofIn ≡ H.channel host.old ProofIn)
        ⊎ Decides (H.channel host.old ProofIn) (H.channel host.new ProofIn)
        (λ bytes more. IsTrue (drat_check_may_want_memory_by (equality_of deletions) formula.now.clauses (length more) bytes)) }
    ensures reads { OnlyReads (H.channel host.old ProofIn) (H.channel host.new ProofIn) }
    ensures writes { OnlyWrites (H.channel host.old ProofOut) (H.channel host.new ProofOut) }
    ensures kept { KeptButTwo ProofIn ProofOut (H.channel host.old ProofOut).name (H.channel host.old) (H.channel host.new)
        (H.files host.old) (H.files host.new) }
{
    steps_text_law();
    let judge = NumberedJudge::open(alloc, formula)?;
    let line = LineHints::new(alloc, true);
    let mut conversion = Conversion {
        judge,
        line,
        deletions,
    };
    let mut reader = DratReader::new(alloc, MAX_BYTES);
    let mut step = DratStep::Delete {
        lits: LitList::new(alloc),
    };
    convert_from(alloc, &mut conversion, &mut reader, &mut step, host)
}

// Begins the proof, and converts the steps.
fn convert_from<H: Host>(
    alloc: Global,
    conversion: &mut Conversion,
    reader: &mut DratReader,
    step: &mut DratStep,
    host: &mut H,
) -> Result<Verdict, ConvertError>
    requires opened { (H.channel host.old ProofIn).name ≢ None }
    requires created { (H.channel host.old ProofOut).name ≢ None }
    requires reading { reader.old.status ≡ Reading }
    requires wanted { IsTrue conversion.old.line.is_wanted }
    requires clauses { (clauses : List (List ℤ)) × (conversion.old.judge ≡ map Some clauses) }
    ensures converts { (clauses : List (List ℤ)) → conversion.old.judge ≡ map Some clauses → ConvertsFrom H.tells
        (H.channel host.old ProofIn) (H.channel host.new ProofIn) (H.channel host.old ProofOut) (H.channel host.new ProofOut)
        (equality_of conversion.old.deletions) clauses reader.old result }
    ensures kept { KeptButTwo ProofIn ProofOut (H.channel host.old ProofOut).name (H.channel host.old) (H.channel host.new)
        (H.files host.old) (H.files host.new) }
{
    match begin_in(alloc, &conversion.judge, &mut conversion.line, host) {
        Ok(()) => convert_steps(conversion, reader, step, host),
        Err(error) => Err(error),
    }
}

// Converts the steps that the reader still gives, each in the same place.
fn convert_steps<H: Host>(
    conversion: &mut Conversion,
    reader: &mut DratReader,
    step: &mut DratStep,
    host: &mut H,
) -> Result<Verdict, ConvertError>
    requires opened { (H.channel host.old ProofIn).name ≢ None }
    requires created { (H.channel host.old ProofOut).name ≢ None }
    requires reading { reader.old.status ≡ Reading }
    requires wanted { IsTrue conversion.old.line.is_wanted }
    requires followed { (state : State) × Follows state conversion.old.judge }
    ensures converts { ConvertsSteps H.tells (H.channel host.old ProofIn) (H.channel host.new ProofIn) (H.channel host.old ProofOut)
        (H.channel host.new ProofOut) (equality_of conversion.old.deletions) conversion.old.judge reader.old result }
    ensures kept { KeptButTwo ProofIn ProofOut (H.channel host.old ProofOut).name (H.channel host.old) (H.channel host.new)
        (H.files host.old) (H.files host.new) }
{
    judge_steps(conversion, reader, step, host)
}

// A judge, with what a line needs that is written, and what a deletion takes for its clause.
#[derive(Drop)]
struct Conversion {
    judge: NumberedJudge,
    line: LineHints,
    deletions: Deletions,
}

impl<H: Host> StepJudge<DratLine, H> for Conversion {
    type Error = ConvertError;

    ghost tells = { H.tells };

    ghost channel = { λ host. H.channel host ProofIn };

    ghost rules = { converting_rules H.tells (λ conversion. equality_of conversion.deletions) (λ conversion. conversion.judge) H.channel
        H.files };

    // both roles have their names, hints are wanted, and the clauses are followed
    ghost is_ready = { λ conversion host. IsReady (H.channel host ProofIn) (H.channel host ProofOut) conversion.line.is_wanted conversion.judge };

    fn told_law() {}

    fn next(
        &self,
        reader: &mut DratReader,
        step: &mut DratStep,
        host: &mut H,
    ) -> Result<Option<u64>, StepError> {
        read_step(reader, host, step)
    }

    fn take(
        &mut self,
        step: &DratStep,
        _has_empty: bool,
        host: &mut H,
    ) -> Result<Option<Reason>, ConvertError> {
        take_step(&mut self.judge, &mut self.line, self.deletions, step, host)
    }

    fn or_adds_empty(has_empty: bool, step: &DratStep) -> bool {
        or_adds_empty(has_empty, step)
    }

    fn error(error: CheckError) -> ConvertError {
        ConvertError::from(error)
    }
}
