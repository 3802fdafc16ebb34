// The loop over the steps of a proof, whatever judges them.
ghost use Rattle.std.specs.Prelude.{◌≡◌, ◌||◌, Bool, IfNone, IfOk};
ghost use Rattle.host_io.specs.Channel.{Channel};
ghost use Rattle.lrat_text.specs.declared.reader.ReaderStatus.TheVariants.{Reading};
ghost use Rattle.lrat_text.specs.LineReader.{given};
ghost use Rattle.proof_judging.specs.Verdict.{error_answer};
ghost use Rattle.proof_judging.specs.Rules.{AreApart, Judges, ReadsStep, Rules, told_by};
ghost use Rattle.proof_judging.specs.Run.{Runs};
ghost use Rattle.proof_judging.specs.Checks.{Checks};

use crate::verdict::{CheckError, Verdict, answer_to, verdict_at_end};
use lrat_rules::Reason;
use lrat_text::{LineForm, LineReader, StepError};

/// What takes the steps of a proof in turn. They are read from a world, such as a source, or a host that is written to as well.
pub trait StepJudge<F: LineForm, W> {
    /// Why there is no verdict.
    type Error;

    ghost tells: { Bool };

    /// Of the text that is read.
    ghost channel: { W → Channel };

    ghost rules: { Rules Self W F.Step Self.Error };

    /// What holds before each step.
    ghost is_ready: { Self → W → Type 0 };

    /// For the prover alone: each want of a verdict is told in a way of its own.
    fn told_law()
        ensures { AreApart rules.told };

    /// The next step, read into its place.
    fn next(
        &self,
        reader: &mut LineReader<F>,
        step: &mut F::Step,
        world: &mut W,
    ) -> Result<Option<u64>, StepError>
        requires reading { reader.old.status ≡ Reading }
        requires ready { is_ready self.now world.old }
        ensures reads { ReadsStep F.form tells (channel world.old) (channel world.new) reader.old reader.new (given step.new result) }
        ensures work { rules.reads (rules.work self.now world.old) (rules.work self.now world.new) }
        ensures ready { is_ready self.now world.new };

    /// Judges a step, and takes it where it is good. Whether an earlier one added the empty clause is told.
    fn take(
        &mut self,
        step: &F::Step,
        has_empty: bool,
        world: &mut W,
    ) -> Result<Option<Reason>, Self::Error>
        requires ready { is_ready self.old world.old }
        ensures judges { Judges rules (rules.place self.old) (rules.place self.new) step.now result }
        ensures does { rules.does (rules.place self.old) (rules.work self.old world.old) (rules.work self.new world.new) has_empty
            step.now result }
        ensures unread { channel world.new ≡ channel world.old }
        ensures ready { IfOk result (λ fault. IfNone fault (is_ready self.new world.new)) };

    /// Whether an earlier step or this one adds the empty clause.
    fn or_adds_empty(has_empty: bool, step: &F::Step) -> bool
        ensures { result ≡ (has_empty || rules.format.adds_empty step.now) };

    /// Why there is no verdict, as this judge tells it.
    fn error(error: CheckError) -> Self::Error
        ensures { result ≡ rules.told error };
}

/// Takes the steps that a reader still gives, each in the same place, up to the first bad one, or to the end.
pub fn judge_steps<F: LineForm, W, J: StepJudge<F, W>>(
    judge: &mut J,
    reader: &mut LineReader<F>,
    step: &mut F::Step,
    world: &mut W,
) -> Result<Verdict, J::Error>
    requires reading { reader.old.status ≡ Reading }
    requires ready { J.is_ready judge.old world.old }
    ensures runs { Runs F.form J.tells J.rules (J.channel world.old) (J.channel world.new) (J.rules.place judge.old)
        (J.rules.work judge.old world.old) (J.rules.work judge.new world.new) reader.old result }
    ensures checks { Checks F.form J.tells J.rules.format J.rules.told (J.channel world.old) (J.channel world.new)
        (J.rules.place judge.old) reader.old result }
{
    J::told_law();
    let mut has_empty = false;
    'steps: loop {
        match judge.next(reader, step, world) {
            Ok(Some(line)) => {
                reader.near_law();
                match judge.take(step, has_empty, world) {
                    Ok(None) => has_empty = J::or_adds_empty(has_empty, step),
                    Ok(Some(reason)) => return Ok(Verdict::Refused { line, reason }),
                    Err(error) => return Err(error),
                }
            }
            Ok(None) => return Ok(verdict_at_end(has_empty, reader.line())),
            Err(error) => return answer_by::<F, W, J>(error),
        }
    }
}

// A line that spells no step is refused; else there is no verdict.
fn answer_by<F: LineForm, W, J: StepJudge<F, W>>(error: StepError) -> Result<Verdict, J::Error>
    ensures { result ≡ told_by J.rules.told (error_answer error) }
{
    match answer_to(error) {
        Ok(verdict) => Ok(verdict),
        Err(error) => Err(J::error(error)),
    }
}
