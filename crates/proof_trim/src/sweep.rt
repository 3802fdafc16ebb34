// The sweep over the cut steps: from the last one back, with the set of numbers that are needed so far. What is kept goes over number by
// number to another stack, on which the first step comes to be on top, and gives its memory back on the first. (Heule, Hunt, Wetzler:
// Trimming while Checking Clausal Proofs, FMCAD 2013.)
ghost use Rattle.std.specs.Prelude.{◌≡◌, ◌≤◌, ℕ, ◌+◌, ◌++◌, ◌∷◌, ◌||◌, false, List, drop, length, nat_eq, reverse, OnOk, IfOk};
ghost use Rattle.std.specs.List.{list_any};
ghost use Rattle.cnf_base.specs.declared.step.Step.{Step};
ghost use Rattle.proof_trim.specs.Numbers.{has};
ghost use Rattle.proof_trim.specs.Packed.{behind_codes, codes_ahead, number_of};
ghost use Rattle.proof_trim.specs.Sweep.{LooksAt, Sweeps, first_of, pile_of};

use crate::lines::number_of;
use crate::numbers::Numbers;
use crate::packed::push_head;
use crate::row::Row;
use cnf_base::{Id, OutOfMemory};
use std::alloc::Global;

/// The steps that are kept, the first one on top, and how many of them are additions.
#[derive(Drop)]
pub struct Kept {
    pub row: Row,
    pub additions: u64,
}

/// Sweeps over cut steps, of which the last one is on top.
pub fn sweep(alloc: Global, cut: &mut Row, numbers: &mut Numbers) -> Result<Kept, OutOfMemory>
    requires none { (id : ℕ) → has numbers.old id ≡ false }
    ensures { IfOk result (λ back. (steps : List Step) → cut.old ≡ pile_of (reverse steps) → Sweeps steps back (has numbers.new)) }
{
    let mut back = Kept {
        row: Row::new(alloc),
        additions: 0,
    };
    'from_end: loop {
        match cut.pop() {
            Some(kind) => {
                let id = Id(next(cut));
                sweep_step(cut, kind, id, numbers, &mut back)?;
            }
            None => return Ok(back),
        }
    }
}

fn sweep_step(
    cut: &mut Row,
    kind: u64,
    id: Id,
    numbers: &mut Numbers,
    back: &mut Kept,
) -> Result<(), OutOfMemory>
    ensures looks { OnOk result (LooksAt kind id cut.old cut.new back.old back.new (has numbers.old) (has numbers.new)) }
    ensures shorter { OnOk result (length cut.new ≤ length cut.old) }
{
    if kind == 1 {
        keep_deletion(cut, id, back)?;
        return Ok(());
    }
    if is_needed(kind, id, numbers) {
        keep_addition(cut, kind, id, numbers, back)?;
        return Ok(());
    }
    skip_codes(cut);
    skip_codes(cut);
    Ok(())
}

// Whether an addition is kept: it is of the empty clause, or is needed.
#[inline(always)]
fn is_needed(kind: u64, id: Id, numbers: &Numbers) -> bool
    ensures { result ≡ (nat_eq kind 2 || has numbers.now id) }
{
    kind == 2 || numbers.has(id)
}

// A deletion goes over whole.
fn keep_deletion(cut: &mut Row, id: Id, back: &mut Kept) -> Result<(), OutOfMemory>
    ensures cut { OnOk result (cut.new ≡ behind_codes cut.old) }
    ensures row { OnOk result (back.new.row ≡ 1 ∷ id ∷ (reverse (codes_ahead cut.old) ++ 0 ∷ back.old.row)) }
    ensures additions { OnOk result (back.new.additions ≡ back.old.additions) }
{
    back.row.push(0)?;
    move_codes(cut, &mut back.row)?;
    push_head(&mut back.row, 1, id)?;
    Ok(())
}

// So does an addition that is needed, and the numbers that it names are needed then.
fn keep_addition(
    cut: &mut Row,
    kind: u64,
    id: Id,
    numbers: &mut Numbers,
    back: &mut Kept,
) -> Result<(), OutOfMemory>
    ensures cut { OnOk result (cut.new ≡ behind_codes (behind_codes cut.old)) }
    ensures row { OnOk result (back.new.row ≡ kind ∷ id ∷ (reverse (codes_ahead (behind_codes cut.old))
        ++ 0 ∷ (reverse (codes_ahead cut.old) ++ 0 ∷ back.old.row))) }
    ensures additions { OnOk result (back.new.additions ≡ back.old.additions + 1) }
    ensures numbers { OnOk result ((x : ℕ) → has numbers.new x
        ≡ (list_any (λ code. nat_eq x (number_of code)) (codes_ahead cut.old) || has numbers.old x)) }
{
    count(&mut back.additions)?;
    back.row.push(0)?;
    move_hints(cut, &mut back.row, numbers)?;
    back.row.push(0)?;
    move_codes(cut, &mut back.row)?;
    push_head(&mut back.row, kind, id)?;
    Ok(())
}

// One more. (More than 64 bits tell don't fit into the memory.)
fn count(additions: &mut u64) -> Result<(), OutOfMemory>
    ensures { OnOk result (additions.new ≡ additions.old + 1) }
{
    if *additions == u64::MAX {
        return Err(OutOfMemory);
    }
    *additions += 1;
    Ok(())
}

// The next number, 0 behind the last one.
#[inline(always)]
fn next(row: &mut Row) -> u64
    ensures number { result ≡ first_of row.old }
    ensures left { row.new ≡ drop 1 row.old }
{
    match row.pop() {
        Some(number) => number,
        None => 0,
    }
}

fn skip_codes(row: &mut Row)
    ensures { row.new ≡ behind_codes row.old }
{
    'codes: loop {
        match row.pop() {
            Some(code) => {
                if code == 0 {
                    return;
                }
            }
            None => return,
        }
    }
}

// Moves codes up to the 0 that ends them, which is let go.
fn move_codes(from: &mut Row, to: &mut Row) -> Result<(), OutOfMemory>
    ensures from { OnOk result (from.new ≡ behind_codes from.old) }
    ensures to { OnOk result (to.new ≡ reverse (codes_ahead from.old) ++ to.old) }
{
    'codes: loop {
        match from.pop() {
            Some(code) => {
                if code == 0 {
                    return Ok(());
                }
                to.push(code)?;
            }
            None => return Ok(()),
        }
    }
}

// The same of hints, whose numbers are needed.
fn move_hints(from: &mut Row, to: &mut Row, numbers: &mut Numbers) -> Result<(), OutOfMemory>
    ensures from { OnOk result (from.new ≡ behind_codes from.old) }
    ensures to { OnOk result (to.new ≡ reverse (codes_ahead from.old) ++ to.old) }
    ensures numbers { OnOk result ((id : ℕ) → has numbers.new id
        ≡ (list_any (λ code. nat_eq id (number_of code)) (codes_ahead from.old) || has numbers.old id)) }
{
    'codes: loop {
        match from.pop() {
            Some(code) => {
                if code == 0 {
                    return Ok(());
                }
                numbers.enter(Id(number_of(code)))?;
                to.push(code)?;
            }
            None => return Ok(()),
        }
    }
}
