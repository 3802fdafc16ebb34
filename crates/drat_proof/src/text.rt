// From an LRAT proof to a DRAT proof: a reader gives the steps in turn, a judge takes them, and each is written.
ghost use Rattle.std.specs.Prelude.{◌≡◌, ◌≢◌, ◌⊎◌, ◌++◌, length, None, Err, IsTrue};
ghost use Rattle.host_io.specs.declared.role.Role.TheVariants.{ProofIn, ProofOut};
ghost use Rattle.host_io.specs.Channel.{Rose};
ghost use Rattle.text_scan.specs.Decides.{gained, Decides, OnlyReads};
ghost use Rattle.lrat_text.specs.declared.reader.ReaderStatus.TheVariants.{Reading};
ghost use Rattle.lrat_checker.specs.Memory.{check_may_want_memory};
ghost use Rattle.lrat_checker.specs.TextVerdict.{text_verdict, verdict_so_far};
ghost use Rattle.drat_proof.specs.declared.error.ConvertError.TheVariants.{ReadFault, OutOfMemory, WriteFault};
ghost use Rattle.drat_proof.specs.Drat.{named_drat_steps};
ghost use Rattle.drat_proof.specs.Naming.{names_ahead};
ghost use Rattle.drat_proof.specs.Conversion.{HasVerdict, HasWritten, ConvertsSteps};
ghost use Rattle.drat_proof.specs.Converting.{converting_rules};
ghost use Rattle.drat_proof.specs.TwoRoles.{KeptButTwo, OnlyWrites, added};

use crate::error::ConvertError;
use crate::naming::Naming;
use crate::take::take_step;
use cnf_base::{Cnf, Id, IdList, Step};
use host_io::Host;
use lrat_checker::{Judge, or_adds_empty};
use lrat_rules::Reason;
use lrat_text::{LratLine, StepError, StepReader};
use proof_judging::{CheckError, StepJudge, Verdict, judge_steps, read_step};
use std::alloc::Global;
use text_scan::MAX_BYTES;

/// Judges the LRAT proof that was opened in the role `ProofIn`, as `check` does, and writes the DRAT proof that it becomes
/// in the role `ProofOut`, which was created; where this is asked for, with fresh names for the variables above the formula's. What
/// was written is not flushed.
pub fn convert<H: Host>(
    alloc: Global,
    formula: &Cnf,
    fresh: bool,
    host: &mut H,
) -> Result<Verdict, ConvertError>
    requires opened { (H.channel host.old ProofIn).name ≢ None }
    requires created { (H.channel host.old ProofOut).name ≢ None }
    // The answer is that of the bytes that were taken and whatever may follow them, so of the whole text, and so is what was
    // written.
    ensures decides { IsTrue H.tells → Decides (H.channel host.old ProofIn) (H.channel host.new ProofIn)
        (λ bytes more. HasVerdict result (text_verdict formula.now.clauses bytes)) }
    ensures written { IsTrue H.tells → Decides (H.channel host.old ProofIn) (H.channel host.new ProofIn)
        (λ bytes more. HasWritten result (added (H.channel host.old ProofOut) (H.channel host.new ProofOut))
        (named_drat_steps fresh formula.now bytes)) }
    ensures appended { IsTrue H.tells → (H.channel host.new ProofOut).written
        ≡ (H.channel host.old ProofOut).written ++ added (H.channel host.old ProofOut) (H.channel host.new ProofOut) }
    // a read fails only where the bytes taken decide nothing yet
    ensures undecided { IsTrue H.tells → result ≡ Err ReadFault →
        verdict_so_far formula.now.clauses (gained (H.channel host.old ProofIn) (H.channel host.new ProofIn)) ≡ None }
    ensures read_fault { result ≡ Err ReadFault → Rose (H.channel host.old ProofIn).faults (H.channel host.new ProofIn).faults }
    ensures write_fault { result ≡ Err WriteFault → Rose (H.channel host.old ProofOut).faults (H.channel host.new ProofOut).faults }
    // no failed call is told as anything else
    ensures read { result ≢ Err ReadFault → (H.channel host.new ProofIn).faults ≡ (H.channel host.old ProofIn).faults }
    ensures unfailed { result ≢ Err WriteFault → (H.channel host.new ProofOut).faults ≡ (H.channel host.old ProofOut).faults }
    // Memory is wanted only where the check of the proof may want it.
    ensures memory { IsTrue H.tells → result ≡ Err OutOfMemory → (H.channel host.new ProofIn ≡ H.channel host.old ProofIn)
        ⊎ Decides (H.channel host.old ProofIn) (H.channel host.new ProofIn)
        (λ bytes more. IsTrue (check_may_want_memory formula.now.clauses (length more) bytes)) }
    ensures reads { OnlyReads (H.channel host.old ProofIn) (H.channel host.new ProofIn) }
    ensures writes { OnlyWrites (H.channel host.old ProofOut) (H.channel host.new ProofOut) }
    ensures kept { KeptButTwo ProofIn ProofOut (H.channel host.old ProofOut).name (H.channel host.old) (H.channel host.new)
        (H.files host.old) (H.files host.new) }
{
    formula.formula_law();
    let judge = Judge::open(alloc, formula)?;
    let naming = Naming::new(alloc, formula.vars(), fresh);
    let mut conversion = Conversion { judge, naming };
    let mut reader = StepReader::new(alloc, MAX_BYTES);
    let mut step = Step::Delete {
        id: Id(0),
        ids: IdList::new(alloc),
    };
    convert_steps(&mut conversion, &mut reader, &mut step, host)
}

// Converts the steps that the reader still gives, each in the same place.
fn convert_steps<H: Host>(
    conversion: &mut Conversion,
    reader: &mut StepReader,
    step: &mut Step,
    host: &mut H,
) -> Result<Verdict, ConvertError>
    requires opened { (H.channel host.old ProofIn).name ≢ None }
    requires created { (H.channel host.old ProofOut).name ≢ None }
    requires reading { reader.old.status ≡ Reading }
    ensures converts { ConvertsSteps H.tells (H.channel host.old ProofIn) (H.channel host.new ProofIn) (H.channel host.old ProofOut)
        (H.channel host.new ProofOut) conversion.old.judge (names_ahead conversion.old.naming) reader.old result }
    ensures kept { KeptButTwo ProofIn ProofOut (H.channel host.old ProofOut).name (H.channel host.old) (H.channel host.new)
        (H.files host.old) (H.files host.new) }
{
    judge_steps(conversion, reader, step, host)
}

// A judge, with the names that variables have.
#[derive(Drop)]
struct Conversion {
    judge: Judge,
    naming: Naming,
}

impl<H: Host> StepJudge<LratLine, H> for Conversion {
    type Error = ConvertError;

    ghost tells = { H.tells };

    ghost channel = { λ host. H.channel host ProofIn };

    ghost rules = { converting_rules H.tells (λ conversion. conversion.judge) (λ conversion. names_ahead conversion.naming) H.channel H.files };

    // both roles have their names
    ghost is_ready = { λ conversion host. ((H.channel host ProofIn).name ≢ None) × ((H.channel host ProofOut).name ≢ None) };

    fn told_law() {}

    fn next(
        &self,
        reader: &mut StepReader,
        step: &mut Step,
        host: &mut H,
    ) -> Result<Option<u64>, StepError> {
        read_step(reader, host, step)
    }

    fn take(
        &mut self,
        step: &Step,
        _has_empty: bool,
        host: &mut H,
    ) -> Result<Option<Reason>, ConvertError> {
        take_step(&mut self.judge, &mut self.naming, step, host)
    }

    fn or_adds_empty(has_empty: bool, step: &Step) -> bool {
        or_adds_empty(has_empty, step)
    }

    fn error(error: CheckError) -> ConvertError {
        ConvertError::from(error)
    }
}
