// One step of the proof: judged, and where it is good taken, and cut to what it needs.
ghost use Rattle.std.specs.Prelude.{◌≡◌, ◌<◌, ◌≤◌, ◌+◌, ◌++◌, [], false, None, IfOk, IfNone, OnOk};
ghost use Rattle.std.specs.FinMap as map;
ghost use Rattle.std.specs.Option.{option_copied};
ghost use Rattle.lrat_rules.specs.State.{clause_at, without_clauses};
ghost use Rattle.lrat_rules.specs.Run.{step_fault, after_step};
ghost use Rattle.proof_trim.specs.Trimmed.{id_if_live, live_ids, one_if_addition};
ghost use Rattle.proof_trim.specs.Answer.{with_step};

use crate::packed::{push_cut, push_deletion};
use crate::row::Row;
use cnf_base::{Id, IdList, Lit, OutOfMemory, Step};
use lrat_checker::{Judge, Uses, cut_law};
use lrat_rules::Reason;
use std::alloc::Global;

/// What was cut of a proof so far: its steps up to the end, on a stack of which the last one is on top, and how many additions it has.
#[derive(Drop)]
pub struct CutProof {
    pub steps: Row,
    pub total: u64,
}

impl CutProof {
    /// Nothing so far.
    pub fn new(alloc: Global) -> CutProof
        ensures { result ≡ record { steps = []; total = 0 } }
    {
        CutProof {
            steps: Row::new(alloc),
            total: 0,
        }
    }
}

/// Judges a step, and where it is good takes it, counts it, and keeps it cut unless the end was before it. The list is for the numbers of
/// a deletion: its memory is used again.
pub fn take_step(
    judge: &mut Judge,
    step: &Step,
    ended: bool,
    uses: &mut Uses,
    live: &mut IdList,
    cut: &mut CutProof,
) -> Result<Option<Reason>, OutOfMemory>
    requires counted { cut.old.total ≤ judge.old.top }
    ensures fault { IfOk result (λ fault. fault ≡ step_fault judge.old step.now) }
    ensures good { IfOk result (λ fault. IfNone fault (judge.new ≡ after_step judge.old step.now)) }
    ensures cut { IfOk result (λ fault. IfNone fault (cut.new ≡ with_step ended judge.old step.now cut.old)) }
    ensures counted { IfOk result (λ fault. IfNone fault (cut.new.total ≤ judge.new.top)) }
{
    if ended {
        count_step(judge, step, cut)
    } else {
        cut_step(judge, step, uses, live, cut)
    }
}

// Behind the end a good step is only counted.
fn count_step(
    judge: &mut Judge,
    step: &Step,
    cut: &mut CutProof,
) -> Result<Option<Reason>, OutOfMemory>
    requires counted { cut.old.total ≤ judge.old.top }
    ensures fault { IfOk result (λ fault. fault ≡ step_fault judge.old step.now) }
    ensures good { IfOk result (λ fault. IfNone fault (judge.new ≡ after_step judge.old step.now)) }
    ensures cut { IfOk result (λ fault. IfNone fault (cut.new ≡ record cut.old { total = cut.old.total + one_if_addition step.now })) }
    ensures counted { IfOk result (λ fault. IfNone fault (cut.new.total ≤ judge.new.top)) }
{
    if let Some(reason) = judge.step(step)? {
        return Ok(Some(reason));
    }
    if let Step::Add { id, .. } = step {
        count(&mut cut.total, id.get());
    }
    Ok(None)
}

// Up to the end.
fn cut_step(
    judge: &mut Judge,
    step: &Step,
    uses: &mut Uses,
    live: &mut IdList,
    cut: &mut CutProof,
) -> Result<Option<Reason>, OutOfMemory>
    requires counted { cut.old.total ≤ judge.old.top }
    ensures fault { IfOk result (λ fault. fault ≡ step_fault judge.old step.now) }
    ensures good { IfOk result (λ fault. IfNone fault (judge.new ≡ after_step judge.old step.now)) }
    ensures cut { IfOk result (λ fault. IfNone fault (cut.new ≡ with_step false judge.old step.now cut.old)) }
    ensures counted { IfOk result (λ fault. IfNone fault (cut.new.total ≤ judge.new.top)) }
{
    cut_law();
    match step {
        Step::Add { id, .. } => {
            if let Some(reason) = judge.step_with(step, uses)? {
                return Ok(Some(reason));
            }
            push_cut(&mut cut.steps, step, uses)?;
            count(&mut cut.total, id.get());
            Ok(None)
        }
        Step::Delete { id, ids } => {
            take_live(judge, ids.as_slice(), live)?;
            push_deletion(&mut cut.steps, *id, live.as_slice())?;
            Ok(None)
        }
    }
}

// One addition more, whose number is above the count.
fn count(total: &mut u64, number: u64)
    requires below { total.old < number }
    ensures { total.new ≡ total.old + 1 }
{
    *total += 1;
}

// Takes out the clauses of these numbers, each at its turn, and lists the numbers that were live then. So a number that is named twice is
// listed once.
fn take_live(judge: &mut Judge, ids: &[Id], list: &mut IdList) -> Result<(), OutOfMemory>
    ensures live { OnOk result (list.new ≡ live_ids judge.old.live ids.now) }
    ensures taken { OnOk result (judge.new ≡ record judge.old { live = without_clauses judge.old.live ids.now }) }
{
    list.clear();
    for id in ids {
        take_one(judge, *id, list)?;
    }
    Ok(())
}

// The same of one number.
fn take_one(judge: &mut Judge, id: Id, list: &mut IdList) -> Result<(), OutOfMemory>
    ensures live { OnOk result (list.new ≡ list.old ++ id_if_live id (clause_at judge.old.live id) []) }
    ensures taken { OnOk result (judge.new ≡ record judge.old { live = map.remove judge.old.live id }) }
{
    push_live(list, id, judge.clause(id))?;
    judge.remove(id);
    Ok(())
}

fn push_live(list: &mut IdList, id: Id, clause: Option<&[Lit]>) -> Result<(), OutOfMemory>
    ensures { OnOk result (list.new ≡ list.old ++ id_if_live id (option_copied clause.entry) []) }
{
    match clause {
        Some(_) => list.push(id),
        None => Ok(()),
    }
}
