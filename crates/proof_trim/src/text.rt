// Trimming a proof text: a reader gives its steps in turn, a judge takes them, and they are cut; at the end of a verified text what
// the refutation needs is kept.
ghost use Rattle.std.specs.Prelude.{◌≡◌, ◌≢◌, ◌≤◌, ◌⊎◌, length, None, Err, Ok, IsTrue};
ghost use Rattle.host_io.specs.Channel.{Rose};
ghost use Rattle.text_scan.specs.Decides.{gained, Decides, OnlyReads};
ghost use Rattle.proof_judging.specs.declared.verdict.Verdict.TheVariants.{Verified};
ghost use Rattle.proof_judging.specs.declared.verdict.CheckError.TheVariants.{ReadFault, OutOfMemory};
ghost use Rattle.proof_judging.specs.Verdict.{Answers};
ghost use Rattle.lrat_checker.specs.Memory.{check_may_want_memory};
ghost use Rattle.lrat_checker.specs.TextVerdict.{text_verdict, verdict_so_far};
ghost use Rattle.proof_trim.specs.Trimmed.{additions_of_text, trimmed};
ghost use Rattle.proof_trim.specs.Answer.{AnswersBy, Trims, WantsMemory, cut_of_text};
ghost use Rattle.proof_trim.specs.Core.{core};
ghost use Rattle.proof_trim.specs.Trimming.{trimming_rules};

use crate::core_numbers::Core;
use crate::cutting::{CutProof, take_step};
use crate::lines::KeptSteps;
use crate::numbers::Numbers;
use crate::sweep::sweep;
use cnf_base::{Cnf, Id, IdList, Step};
use host_io::Source;
use lrat_checker::{Judge, Uses, or_adds_empty};
use lrat_rules::Reason;
use lrat_text::{LratLine, StepError, StepReader};
use proof_judging::{CheckError, StepJudge, Verdict, judge_steps};
use std::alloc::Global;
use text_scan::MAX_BYTES;

/// What becomes of a proof.
#[derive(Drop)]
pub enum Trimmed {
    /// The proof is verified: its trimmed form, the formula's clauses that this needs, how many additions it has, and how many the proof
    /// has.
    Steps {
        steps: KeptSteps,
        core: Core,
        kept: u64,
        total: u64,
    },
    /// The first bad line, or that of the end where no line adds the empty clause.
    Refused {
        line: u64,
        reason: Reason,
    },
}

/// Judges a textual LRAT proof over a formula as `check` does, to its end or to the first bad line, and trims a verified one. A read
/// may fail, or memory be refused instead.
pub fn trim<S: Source>(alloc: Global, formula: &Cnf, source: &mut S) -> Result<Trimmed, CheckError>
    // The answer is that of the bytes that were taken and whatever may follow them, so of the whole text.
    ensures decides { IsTrue S.tells → Decides (S.channel source.old) (S.channel source.new)
        (λ bytes more. Trims result (text_verdict formula.now.clauses bytes) (trimmed formula.now.clauses bytes)
        (core formula.now.clauses bytes) (additions_of_text bytes)) }
    // a read fails only where the bytes taken decide nothing yet
    ensures undecided { IsTrue S.tells → result ≡ Err ReadFault →
        verdict_so_far formula.now.clauses (gained (S.channel source.old) (S.channel source.new)) ≡ None }
    ensures fault { result ≡ Err ReadFault → Rose (S.channel source.old).faults (S.channel source.new).faults }
    // no failed read is told as anything else
    ensures unfailed { result ≢ Err ReadFault → (S.channel source.new).faults ≡ (S.channel source.old).faults }
    // memory is wanted only before the first byte is taken, or where `check` may want it, or behind the verdict on a verified text
    ensures memory { IsTrue S.tells → result ≡ Err OutOfMemory → WantsMemory formula.now.clauses (S.channel source.old)
        (S.channel source.new) }

    ensures reads { OnlyReads (S.channel source.old) (S.channel source.new) }
    ensures beside { S.beside source.new ≡ S.beside source.old }
{
    let mut cut = CutProof::new(alloc);
    match cut_text(alloc, formula, &mut cut, source) {
        Ok(verdict) => answer_by(alloc, formula.len() as u64, &mut cut, verdict),
        Err(error) => Err(error),
    }
}

// Judges the whole text and cuts its steps. What the judge takes is given back at the end, before the sweep.
fn cut_text<S: Source>(
    alloc: Global,
    formula: &Cnf,
    cut: &mut CutProof,
    source: &mut S,
) -> Result<Verdict, CheckError>
    ensures decides { IsTrue S.tells → Decides (S.channel source.old) (S.channel source.new)
        (λ bytes more. Answers result (text_verdict formula.now.clauses bytes)) }
    ensures cut { IsTrue S.tells → result ≡ Ok Verified → Decides (S.channel source.old) (S.channel source.new)
        (λ bytes more. cut.new ≡ cut_of_text formula.now.clauses bytes) }
    ensures undecided { IsTrue S.tells → result ≡ Err ReadFault →
        verdict_so_far formula.now.clauses (gained (S.channel source.old) (S.channel source.new)) ≡ None }
    ensures fault { result ≡ Err ReadFault → Rose (S.channel source.old).faults (S.channel source.new).faults }
    ensures unfailed { result ≢ Err ReadFault → (S.channel source.new).faults ≡ (S.channel source.old).faults }
    ensures memory { IsTrue S.tells → result ≡ Err OutOfMemory → (S.channel source.new ≡ S.channel source.old)
        ⊎ Decides (S.channel source.old) (S.channel source.new)
        (λ bytes more. IsTrue (check_may_want_memory formula.now.clauses (length more) bytes)) }
    ensures reads { OnlyReads (S.channel source.old) (S.channel source.new) }
    ensures beside { S.beside source.new ≡ S.beside source.old }
{
    let judge = Judge::open(alloc, formula)?;
    let begun = CutProof::new(alloc);
    let mut trimming = Trimming {
        judge,
        uses: Uses::new(alloc),
        live: IdList::new(alloc),
        cut: begun,
    };
    let mut reader = StepReader::new(alloc, MAX_BYTES);
    let mut step = Step::Delete {
        id: Id(0),
        ids: IdList::new(alloc),
    };
    let answer = judge_steps(&mut trimming, &mut reader, &mut step, source);
    *cut = trimming.cut;
    answer
}

// A judge, with what was cut of the steps that it took, and lists that it uses again for each.
#[derive(Drop)]
struct Trimming {
    judge: Judge,
    uses: Uses,
    live: IdList,
    cut: CutProof,
}

impl<S: Source> StepJudge<LratLine, S> for Trimming {
    type Error = CheckError;

    ghost tells = { S.tells };

    ghost channel = { S.channel };

    ghost rules = { trimming_rules (λ trimming. trimming.judge) (λ trimming. trimming.cut) S.beside };

    // so that the count doesn't run over
    ghost is_ready = { λ trimming source. trimming.cut.total ≤ trimming.judge.top };

    fn told_law() {}

    fn next(
        &self,
        reader: &mut StepReader,
        step: &mut Step,
        source: &mut S,
    ) -> Result<Option<u64>, StepError> {
        reader.next_into(source, step)
    }

    fn take(
        &mut self,
        step: &Step,
        has_empty: bool,
        _source: &mut S,
    ) -> Result<Option<Reason>, CheckError> {
        Ok(take_step(
            &mut self.judge,
            step,
            has_empty,
            &mut self.uses,
            &mut self.live,
            &mut self.cut,
        )?)
    }

    fn or_adds_empty(has_empty: bool, step: &Step) -> bool {
        or_adds_empty(has_empty, step)
    }

    fn error(error: CheckError) -> CheckError {
        error
    }
}

// The answer for a proof that was read, over a formula of so many clauses.
fn answer_by(
    alloc: Global,
    count: u64,
    cut: &mut CutProof,
    verdict: Verdict,
) -> Result<Trimmed, CheckError>
    ensures { AnswersBy count cut.old verdict result }
{
    match verdict {
        Verdict::Refused { line, reason } => Ok(Trimmed::Refused { line, reason }),
        Verdict::Verified => {
            let mut numbers = Numbers::new(alloc);
            let back = sweep(alloc, &mut cut.steps, &mut numbers)?;
            let core = Core::of(alloc, &numbers, count)?;
            Ok(Trimmed::Steps {
                steps: KeptSteps::of(back.row, numbers, count),
                core,
                kept: back.additions,
                total: cut.total,
            })
        }
    }
}
