// The check of a proof text: a reader gives its steps in turn, and a judge takes them.
ghost use Rattle.std.specs.Prelude.{◌≡◌, ◌≢◌, ◌||◌, ◌⊎◌, length, None, Err, IsTrue, ⊤};
ghost use Rattle.host_io.specs.Channel.{Rose};
ghost use Rattle.text_scan.specs.Decides.{gained, Decides, OnlyReads};
ghost use Rattle.lrat_rules.specs.Run.{step_adds_empty};
ghost use Rattle.proof_judging.specs.declared.verdict.CheckError.TheVariants.{ReadFault, OutOfMemory};
ghost use Rattle.proof_judging.specs.Verdict.{Answers};
ghost use Rattle.proof_judging.specs.Rules.{checking_rules};
ghost use Rattle.lrat_checker.specs.Memory.{check_may_want_memory, may_want_memory};
ghost use Rattle.lrat_checker.specs.TextVerdict.{lrat_format, text_verdict, verdict_so_far};

use crate::judge::Judge;
use crate::uses::Uses;
use cnf_base::{Cnf, Id, IdList, Step};
use host_io::Source;
use lrat_rules::Reason;
use lrat_text::{LratLine, StepError, StepReader};
use proof_judging::{CheckError, StepJudge, Verdict, judge_steps};
use std::alloc::Global;
use text_scan::MAX_BYTES;

/// Judges a textual LRAT proof over a formula, line by line. The first bad line decides, and no read follows then;
/// lines behind the empty clause are judged too. Memory may be refused instead, or a read may fail.
pub fn check<S: Source>(alloc: Global, formula: &Cnf, source: &mut S) -> Result<Verdict, CheckError>
    // The answer is that of the bytes that were taken and whatever may follow them, so of the whole text.
    ensures decides { IsTrue S.tells → Decides (S.channel source.old) (S.channel source.new)
        (λ bytes more. Answers result (text_verdict formula.now.clauses bytes)) }
    // a read fails only where the bytes taken decide nothing yet
    ensures undecided { IsTrue S.tells → result ≡ Err ReadFault →
        verdict_so_far formula.now.clauses (gained (S.channel source.old) (S.channel source.new)) ≡ None }
    ensures fault { result ≡ Err ReadFault → Rose (S.channel source.old).faults (S.channel source.new).faults }
    // no failed read is told as anything else
    ensures unfailed { result ≢ Err ReadFault → (S.channel source.new).faults ≡ (S.channel source.old).faults }
    // Memory is wanted only before the first byte is taken, or for a number of a line of numbers or a step, behind good steps,
    // with no more numbers behind it in the bytes taken than a block can spell.
    ensures memory { IsTrue S.tells → result ≡ Err OutOfMemory → (S.channel source.new ≡ S.channel source.old)
        ⊎ Decides (S.channel source.old) (S.channel source.new)
        (λ bytes more. IsTrue (check_may_want_memory formula.now.clauses (length more) bytes)) }

    ensures reads { OnlyReads (S.channel source.old) (S.channel source.new) }
    ensures beside { S.beside source.new ≡ S.beside source.old }
{
    let judge = Judge::open(alloc, formula)?;
    let mut checking = Checking {
        judge,
        uses: Uses::new(alloc),
    };
    let mut reader = StepReader::new(alloc, MAX_BYTES);
    let mut step = Step::Delete {
        id: Id(0),
        ids: IdList::new(alloc),
    };
    judge_steps(&mut checking, &mut reader, &mut step, source)
}

// A judge, with lists that it uses again for each step.
#[derive(Drop)]
struct Checking {
    judge: Judge,
    uses: Uses,
}

impl<S: Source> StepJudge<LratLine, S> for Checking {
    type Error = CheckError;

    ghost tells = { S.tells };

    ghost channel = { S.channel };

    ghost rules = { checking_rules lrat_format may_want_memory (λ checking. checking.judge) S.beside };

    ghost is_ready = { λ checking source. ⊤ };

    fn told_law() {}

    fn next(
        &self,
        reader: &mut StepReader,
        step: &mut Step,
        source: &mut S,
    ) -> Result<Option<u64>, StepError> {
        reader.next_into(source, step)
    }

    fn take(
        &mut self,
        step: &Step,
        _has_empty: bool,
        _source: &mut S,
    ) -> Result<Option<Reason>, CheckError> {
        Ok(self.judge.step_with(step, &mut self.uses)?)
    }

    fn or_adds_empty(has_empty: bool, step: &Step) -> bool {
        or_adds_empty(has_empty, step)
    }

    fn error(error: CheckError) -> CheckError {
        error
    }
}

/// Whether an earlier step or this one adds the empty clause.
pub fn or_adds_empty(has_empty: bool, step: &Step) -> bool
    ensures { result ≡ (has_empty || step_adds_empty step.now) }
{
    has_empty
        || match step {
            Step::Add { lits, .. } => lits.as_slice().is_empty(),
            Step::Delete { .. } => false,
        }
}
