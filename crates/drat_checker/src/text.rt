// The check of a DRAT text: a reader gives its steps in turn, and a judge takes them.
ghost use Rattle.std.specs.Prelude.{◌≡◌, ◌≢◌, ◌||◌, ◌⊎◌, length, None, Err, IsTrue, ⊤};
ghost use Rattle.host_io.specs.Channel.{Rose};
ghost use Rattle.text_scan.specs.Decides.{gained, Decides, OnlyReads};
ghost use Rattle.proof_judging.specs.declared.verdict.CheckError.TheVariants.{ReadFault, OutOfMemory};
ghost use Rattle.proof_judging.specs.Verdict.{Answers};
ghost use Rattle.proof_judging.specs.Rules.{checking_rules};
ghost use Rattle.drat_rules.specs.Clauses.{equality_of};
ghost use Rattle.drat_rules.specs.Run.{adds_empty};
ghost use Rattle.drat_checker.specs.DratVerdict.{drat_format, drat_text_verdict, drat_text_verdict_by};
ghost use Rattle.drat_checker.specs.DratVerdict.{drat_verdict_so_far, drat_verdict_so_far_by};
ghost use Rattle.drat_checker.specs.Memory.{drat_check_may_want_memory, drat_check_may_want_memory_by, is_addition};

use crate::judge::DratJudge;
use cnf_base::{Cnf, LitList};
use drat_rules::Deletions;
use drat_text::{DratLine, DratReader, DratStep};
use host_io::Source;
use lrat_rules::Reason;
use lrat_text::StepError;
use proof_judging::{CheckError, StepJudge, Verdict, judge_steps};
use std::alloc::Global;
use text_scan::MAX_BYTES;

/// Judges a textual DRAT proof over a formula, line by line. The first bad line decides, and no read follows then;
/// lines behind the empty clause are judged too. A deletion takes out the first clause that is the same list of literals. Memory may be
/// refused instead, or a read may fail.
pub fn check_drat<S: Source>(
    alloc: Global,
    formula: &Cnf,
    source: &mut S,
) -> Result<Verdict, CheckError>
    // The answer is that of the bytes that were taken and whatever may follow them, so of the whole text.
    ensures decides { IsTrue S.tells → Decides (S.channel source.old) (S.channel source.new)
        (λ bytes more. Answers result (drat_text_verdict formula.now.clauses bytes)) }
    // a read fails only where the bytes taken decide nothing yet
    ensures undecided { IsTrue S.tells → result ≡ Err ReadFault →
        drat_verdict_so_far formula.now.clauses (gained (S.channel source.old) (S.channel source.new)) ≡ None }
    ensures fault { result ≡ Err ReadFault → Rose (S.channel source.old).faults (S.channel source.new).faults }
    // no failed read is told as anything else
    ensures unfailed { result ≢ Err ReadFault → (S.channel source.new).faults ≡ (S.channel source.old).faults }
    // Memory is wanted only before the first byte is taken, or for a number of a line of numbers or a step, behind good steps,
    // with no more numbers behind it in the bytes taken than a block can spell.
    ensures memory { IsTrue S.tells → result ≡ Err OutOfMemory → (S.channel source.new ≡ S.channel source.old)
        ⊎ Decides (S.channel source.old) (S.channel source.new)
        (λ bytes more. IsTrue (drat_check_may_want_memory formula.now.clauses (length more) bytes)) }

    ensures reads { OnlyReads (S.channel source.old) (S.channel source.new) }
    ensures beside { S.beside source.new ≡ S.beside source.old }
{
    check_drat_by(alloc, formula, Deletions::ByList, source)
}

/// The same where a deletion takes out the first clause that is told to be its own in this way.
pub fn check_drat_by<S: Source>(
    alloc: Global,
    formula: &Cnf,
    deletions: Deletions,
    source: &mut S,
) -> Result<Verdict, CheckError>
    // The answer is that of the bytes that were taken and whatever may follow them, so of the whole text.
    ensures decides { IsTrue S.tells → Decides (S.channel source.old) (S.channel source.new)
        (λ bytes more. Answers result (drat_text_verdict_by (equality_of deletions) formula.now.clauses bytes)) }
    // a read fails only where the bytes taken decide nothing yet
    ensures undecided { IsTrue S.tells → result ≡ Err ReadFault →
        drat_verdict_so_far_by (equality_of deletions) formula.now.clauses (gained (S.channel source.old) (S.channel source.new)) ≡ None }
    ensures fault { result ≡ Err ReadFault → Rose (S.channel source.old).faults (S.channel source.new).faults }
    // no failed read is told as anything else
    ensures unfailed { result ≢ Err ReadFault → (S.channel source.new).faults ≡ (S.channel source.old).faults }
    // Memory is wanted only before the first byte is taken, or for a number of a line of numbers or a step, behind good steps,
    // with no more numbers behind it in the bytes taken than a block can spell.
    ensures memory { IsTrue S.tells → result ≡ Err OutOfMemory → (S.channel source.new ≡ S.channel source.old)
        ⊎ Decides (S.channel source.old) (S.channel source.new)
        (λ bytes more. IsTrue (drat_check_may_want_memory_by (equality_of deletions) formula.now.clauses (length more) bytes)) }

    ensures reads { OnlyReads (S.channel source.old) (S.channel source.new) }
    ensures beside { S.beside source.new ≡ S.beside source.old }
{
    let judge = DratJudge::open(alloc, formula)?;
    let mut checking = Checking { judge, deletions };
    let mut reader = DratReader::new(alloc, MAX_BYTES);
    let mut step = DratStep::Delete {
        lits: LitList::new(alloc),
    };
    judge_steps(&mut checking, &mut reader, &mut step, source)
}

// A judge, with what a deletion takes for its clause.
#[derive(Drop)]
struct Checking {
    judge: DratJudge,
    deletions: Deletions,
}

impl<S: Source> StepJudge<DratLine, S> for Checking {
    type Error = CheckError;

    ghost tells = { S.tells };

    ghost channel = { S.channel };

    ghost rules = { checking_rules drat_format (λ place step. is_addition step)
        (λ checking. (equality_of checking.deletions, checking.judge)) S.beside };

    ghost is_ready = { λ checking source. ⊤ };

    fn told_law() {}

    fn next(
        &self,
        reader: &mut DratReader,
        step: &mut DratStep,
        source: &mut S,
    ) -> Result<Option<u64>, StepError> {
        reader.next_into(source, step)
    }

    fn take(
        &mut self,
        step: &DratStep,
        _has_empty: bool,
        _source: &mut S,
    ) -> Result<Option<Reason>, CheckError> {
        Ok(self.judge.step(self.deletions, step)?)
    }

    fn or_adds_empty(has_empty: bool, step: &DratStep) -> bool {
        or_adds_empty(has_empty, step)
    }

    fn error(error: CheckError) -> CheckError {
        error
    }
}

/// Whether an earlier step or this one adds the empty clause.
pub fn or_adds_empty(has_empty: bool, step: &DratStep) -> bool
    ensures { result ≡ (has_empty || adds_empty step.now) }
{
    has_empty
        || match step {
            DratStep::Add { lits } => lits.as_slice().is_empty(),
            DratStep::Delete { .. } => false,
        }
}
