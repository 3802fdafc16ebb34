// From the numbers of a line to its step.
ghost use Rattle.std.specs.Prelude.{◌≡◌, ◌∷◌, ◌++◌, ◌<◌, pos, length, take, IfOk, OnOk, OnErr, IfSome, IsTrue, is_some};
ghost use Rattle.std.specs.List.{list_all};
ghost use Rattle.std.specs.Option.{option_map};
ghost use Rattle.cnf_base.specs.Truth.{is_literal_of};
ghost use Rattle.cnf_base.specs.ProofText.{given_if, max_literal};
ghost use Rattle.drat_text.specs.declared.step.DratStep.TheVariants.{Add as adds, Delete as deletes};
ghost use Rattle.drat_text.specs.DratText.{clause_from};

use crate::step::DratStep;
use cnf_base::{LitList, OutOfMemory};
use lrat_text::{MAX_LITERAL, first_zero, is_within, push_literal};
use std::alloc::Global;
use std::mem::replace;

// Where the zero stands that ends these numbers, if those before it are literals.
fn clause_end(numbers: &[i64]) -> Option<usize>
    ensures spelled { clause_from numbers.now ≡ option_map (λ end. take end numbers.now) result }
    ensures within { IfSome result (λ end. end < length numbers.now) }
    ensures literals { IfSome result (λ end. IsTrue (list_all (is_literal_of max_literal) (take end numbers.now))) }
{
    let (end, are_literals) = first_zero(numbers, MAX_LITERAL)?;
    if are_literals && numbers[end + 1..].is_empty() {
        Some(end)
    } else {
        None
    }
}

// The list of a step that is needed no more.
fn take_list(alloc: Global, step: &mut DratStep) -> LitList {
    let blank = DratStep::Delete {
        lits: LitList::new(alloc),
    };
    match replace(step, blank) {
        DratStep::Add { lits } => lits,
        DratStep::Delete { lits } => lits,
    }
}

// These literals behind those of the list.
fn push_literals(clause: &mut LitList, literals: &[i64]) -> Result<(), OutOfMemory>
    requires { IsTrue (list_all (is_literal_of max_literal) literals.now) }
    ensures { OnOk result (clause.new ≡ clause.old ++ literals.now) }
{
    for literal in literals {
        push_literal(clause, *literal)?;
    }
    Ok(())
}

/// Whether these numbers behind the `d` spell a deletion, which then is the step. Memory is wanted only for that.
pub fn put_deletion(
    alloc: Global,
    numbers: &[i64],
    step: &mut DratStep,
) -> Result<bool, OutOfMemory>
    ensures step { IfOk result (λ is_step. option_map deletes (clause_from numbers.now) ≡ given_if is_step step.new) }
    ensures memory { OnErr result (IsTrue (is_some (option_map deletes (clause_from numbers.now)))) }
{
    let Some(end) = clause_end(numbers) else {
        return Ok(false);
    };
    let mut lits = take_list(alloc, step);
    lits.clear();
    push_literals(&mut lits, &numbers[..end])?;
    *step = DratStep::Delete { lits };
    Ok(true)
}

/// Whether this number and those behind it spell an addition, which then is the step. Memory is wanted only for that.
pub fn put_addition(
    alloc: Global,
    first: i64,
    numbers: &[i64],
    step: &mut DratStep,
) -> Result<bool, OutOfMemory>
    ensures step { IfOk result (λ is_step. option_map adds (clause_from (first ∷ numbers.now)) ≡ given_if is_step step.new) }
    ensures memory { OnErr result (IsTrue (is_some (option_map adds (clause_from (first ∷ numbers.now))))) }
{
    if first == 0 {
        return Ok(put_empty_addition(alloc, numbers, step));
    }
    let Some(end) = clause_end(numbers) else {
        return Ok(false);
    };
    if !is_within(first, MAX_LITERAL) {
        return Ok(false);
    }
    let mut lits = take_list(alloc, step);
    lits.clear();
    push_literal(&mut lits, first)?;
    push_literals(&mut lits, &numbers[..end])?;
    *step = DratStep::Add { lits };
    Ok(true)
}

// The same where the first number is the zero.
fn put_empty_addition(alloc: Global, numbers: &[i64], step: &mut DratStep) -> bool
    ensures { option_map adds (clause_from (pos 0 ∷ numbers.now)) ≡ given_if result step.new }
{
    if !numbers.is_empty() {
        return false;
    }
    let mut lits = take_list(alloc, step);
    lits.clear();
    *step = DratStep::Add { lits };
    true
}
