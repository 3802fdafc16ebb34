// Steps on a stack of numbers.
ghost use Rattle.std.specs.Prelude.{◌≡◌, ◌∷◌, ◌++◌, OnOk, map, reverse, take};
ghost use Rattle.std.specs.List.{flat_map};
ghost use Rattle.cnf_base.specs.declared.step.Step.TheVariants.{Delete};
ghost use Rattle.lrat_checker.specs.Cuts.{cut_by, groups_by};
ghost use Rattle.proof_trim.specs.Answer.{cut_addition_by};
ghost use Rattle.proof_trim.specs.Packed.{addition_kind, code_of, group_codes, hint_code, literal_code, packed_back};
ghost use Rattle.proof_trim.specs.Trimmed.{cut_addition};

use crate::row::Row;
use cnf_base::{Group, Id, Lit, OutOfMemory, Step};
use lrat_checker::Uses;

// The least number that has no code.
const MOST_CODED: u64 = 9_223_372_036_854_775_807;

/// Puts an addition on top of the stack, with as many of its hints and groups as its check took, so that its codes come off from the
/// last one back. A number of 2^63 or more has no code: that is told as want of memory. No text has one.
pub fn push_cut(row: &mut Row, step: &Step, uses: &Uses) -> Result<(), OutOfMemory>
    ensures { OnOk result (row.new ≡ packed_back (cut_addition_by uses.now step.now) ++ row.old) }
{
    match step {
        Step::Add {
            id,
            lits,
            pos,
            groups,
        } => push_addition(
            row,
            *id,
            lits.as_slice(),
            pos.as_slice(),
            groups.as_slice(),
            uses,
        ),
        Step::Delete { id, .. } => push_deletion(row, *id, &[]),
    }
}

fn push_addition(
    row: &mut Row,
    id: Id,
    clause: &[Lit],
    hints: &[Id],
    groups: &[Group],
    uses: &Uses,
) -> Result<(), OutOfMemory>
    ensures { OnOk result (row.new ≡ packed_back (cut_addition id clause.now (cut_by uses.now hints.now groups.now)) ++ row.old) }
{
    row.push(0)?;
    push_literals(row, clause)?;
    row.push(0)?;
    push_first_hints(row, hints, uses.hints)?;
    push_groups(row, groups, uses.groups.as_slice())?;
    push_head(row, addition_kind(clause), id)?;
    Ok(())
}

/// Puts a deletion of these numbers on top.
pub fn push_deletion(row: &mut Row, id: Id, ids: &[Id]) -> Result<(), OutOfMemory>
    ensures { OnOk result (row.new ≡ packed_back (Delete id ids.now) ++ row.old) }
{
    row.push(0)?;
    push_hints(row, ids)?;
    push_head(row, 1, id)?;
    Ok(())
}

/// Puts a kind and an own number on top of codes.
#[inline(always)]
pub fn push_head(row: &mut Row, kind: u64, id: Id) -> Result<(), OutOfMemory>
    ensures { OnOk result (row.new ≡ kind ∷ id ∷ row.old) }
{
    row.push(id.get())?;
    row.push(kind)?;
    Ok(())
}

fn addition_kind(clause: &[Lit]) -> u64
    ensures { result ≡ addition_kind clause.now }
{
    if clause.is_empty() { 2 } else { 3 }
}

fn push_literals(row: &mut Row, clause: &[Lit]) -> Result<(), OutOfMemory>
    ensures { OnOk result (row.new ≡ reverse (map literal_code clause.now) ++ row.old) }
{
    for literal in clause {
        push_literal(row, *literal)?;
    }
    Ok(())
}

fn push_hints(row: &mut Row, hints: &[Id]) -> Result<(), OutOfMemory>
    ensures { OnOk result (row.new ≡ reverse (map hint_code hints.now) ++ row.old) }
{
    for id in hints {
        push_hint(row, *id)?;
    }
    Ok(())
}

#[inline(always)]
fn push_literal(row: &mut Row, literal: Lit) -> Result<(), OutOfMemory>
    ensures { OnOk result (row.new ≡ literal_code literal ∷ row.old) }
{
    push_code(row, u64::from(literal.var()), literal.is_negative())?;
    Ok(())
}

#[inline(always)]
fn push_hint(row: &mut Row, id: Id) -> Result<(), OutOfMemory>
    ensures { OnOk result (row.new ≡ hint_code id ∷ row.old) }
{
    push_code(row, id.get(), false)?;
    Ok(())
}

// The first of these, so many as are said, or all.
fn push_first_hints(row: &mut Row, hints: &[Id], count: usize) -> Result<(), OutOfMemory>
    ensures { OnOk result (row.new ≡ reverse (map hint_code (take count hints.now)) ++ row.old) }
{
    push_hints(row, &hints[..count.min(hints.len())])
}

// Each of the first groups with so many of its hints.
fn push_groups(row: &mut Row, groups: &[Group], counts: &[usize]) -> Result<(), OutOfMemory>
    ensures { OnOk result (row.new ≡ reverse (flat_map group_codes (groups_by groups.now counts.now)) ++ row.old) }
{
    let shared = counts.len().min(groups.len());
    for i in 0..shared {
        push_group(row, &groups[i], counts[i])?;
    }
    Ok(())
}

fn push_group(row: &mut Row, group: &Group, count: usize) -> Result<(), OutOfMemory>
    ensures { OnOk result (row.new ≡ reverse (group_codes (record { id = group.now.id; hints = take count group.now.hints })) ++ row.old) }
{
    push_code(row, group.id.get(), true)?;
    push_first_hints(row, group.hints.as_slice(), count)?;
    Ok(())
}

#[inline(always)]
fn push_code(row: &mut Row, number: u64, minus: bool) -> Result<(), OutOfMemory>
    ensures { OnOk result (row.new ≡ code_of number minus ∷ row.old) }
{
    if number >= MOST_CODED {
        return Err(OutOfMemory);
    }
    row.push(2 * number + if minus { 2 } else { 1 })?;
    Ok(())
}
