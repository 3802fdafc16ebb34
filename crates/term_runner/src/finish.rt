// The end of a run: the proof is flushed.
ghost use Rattle.std.specs.Prelude.{◌≡◌, ◌≢◌, ℕ, List, Err, Ok, IsTrue, IfOk};
ghost use Rattle.cnf_base.specs.Formula.{Formula};
ghost use Rattle.host_io.specs.Channel.{Channel};
ghost use Rattle.schedule_plan.specs.declared.plan.Move.{Move};
ghost use Rattle.schedule_plan.specs.declared.limits.Limits.{Limits};
ghost use Rattle.bdd_terms.specs.declared.error.RunError.TheVariants.{WriteFault as Torn};
ghost use Rattle.term_runner.specs.Opened.{EndsWithinFrom, IsFlushed, Leads};

use crate::outcome::{Outcome, Run};
use bdd_terms::RunError;
use clause_ledger::Ledger;
use host_io::Sink;

/// Flushes the proof of an outcome. It isn't flushed where memory ran out or a write failed before.
pub fn finish<S: Sink + Drop>(
    ledger: &mut Ledger<S>,
    found: Result<Outcome, RunError>,
) -> Result<Run, RunError>
    requires in_step { found ≢ Err Torn → IsTrue ledger.old.in_step }
    ensures ends { (before : Channel) (formula : Formula) (order : List ℕ) (moves : List Move) (limits : Limits)
        → (first : ℕ) → Leads first S.tells before (S.channel ledger.old.sink) formula order moves limits ledger.old found
        → EndsWithinFrom first S.tells before (S.channel ledger.new.sink) formula order moves limits result }
    ensures outcome { IfOk result (λ run. found ≡ Ok run.outcome) }
    ensures written { (S.channel ledger.new.sink).written ≡ (S.channel ledger.old.sink).written }
    ensures origin { ledger.new.origin ≡ ledger.old.origin }
{
    let last_id = ledger.last_id();
    let outcome = found?;
    flush(ledger, Ok(Run { outcome, last_id }))
}

// The result after a flush of the proof: itself, unless the flush fails.
fn flush<S: Sink + Drop>(
    ledger: &mut Ledger<S>,
    found: Result<Run, RunError>,
) -> Result<Run, RunError>
    requires { IsTrue ledger.old.in_step }
    ensures flushes { IsFlushed S.tells (S.channel ledger.old.sink) (S.channel ledger.new.sink) found result }
    ensures origin { ledger.new.origin ≡ ledger.old.origin }
{
    ledger.book_law();
    match ledger.finish() {
        Ok(()) => {
            ledger.book_law();
            found
        }
        Err(_) => {
            ledger.book_law();
            Err(RunError::WriteFault)
        }
    }
}
