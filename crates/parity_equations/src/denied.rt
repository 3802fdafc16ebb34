// The clauses of an equation: of each list of literals that denies a wrong sum, the first clause that has exactly these. The search ends at
// the first list that no clause has.
ghost use Rattle.std.specs.Prelude.{◌≡◌, ◌≤◌, ◌<◌, ◌^◌, ◌∷◌, [], ℕ, pos, neg_ℤ, None, Some, MatchOption, IfOk, IsPermutation, drop, length, set, take, if◌then◌else◌};
ghost use Rattle.std.specs.List.Sorted.{IsNonDecreasingBy};
ghost use Rattle.std.specs.Option.{option_map};
ghost use Rattle.parity_equations.specs.Denied.{AreVariables, CollectsAll, HasSorted, IsBegun, numbers_under};
ghost use Rattle.parity_equations.specs.Equations.{denied};
ghost use Rattle.parity_equations.specs.Index.{number_of};

use crate::index::Index;
use cnf_base::OutOfMemory;
use std::alloc::Global;

/// The numbers of the clauses of an equation over these variables, rising; none where the formula lacks one.
pub fn clauses_of(
    alloc: Global,
    index: &Index,
    variables: &[u32],
    bit: bool,
) -> Result<Option<Vec<u32>>, OutOfMemory>
    requires few { length variables.now ≤ 8 }
    requires variables { AreVariables variables.now }
    ensures { IfOk result (λ found. MatchOption found (numbers_under index.now [] (denied bit variables.now) ≡ None)
        (λ numbers. HasSorted (numbers_under index.now [] (denied bit variables.now)) numbers.items)) }
{
    let mut numbers = Vec::new(alloc);
    let is_complete = collect(index, variables, 0, [0; 8], bit, &mut numbers)?;
    if !is_complete {
        return Ok(None);
    }
    sort(&mut numbers);
    Ok(Some(numbers))
}

fn sort(numbers: &mut Vec<u32>)
    ensures permutation { IsPermutation numbers.old.items numbers.new.items }
    ensures rising { IsNonDecreasingBy (λ (n : ℕ). n) numbers.new.items }
{
    numbers.sort_unstable_by_key(|number| *number);
}

// Collects the numbers of the clauses whose first literals are these, one for each variable before the place, and whose others deny that
// the sum of the others is the bit. Says whether there is one for each.
fn collect(
    index: &Index,
    variables: &[u32],
    place: usize,
    key: [i32; 8],
    bit: bool,
    numbers: &mut Vec<u32>,
) -> Result<bool, OutOfMemory>
    requires few { length variables.now ≤ 8 }
    requires variables { AreVariables variables.now }
    requires place { place ≤ length variables.now }
    requires begun { IsBegun place key }
    ensures { IfOk result (CollectsAll (numbers_under index.now (take place key) (denied bit (drop place variables.now))) numbers.old.items
        numbers.new.items) }
{
    if place == variables.len() {
        return push_number(index, &key, bit, numbers);
    }
    let variable = variables[place];
    let first = with_next(&key, place, positive(variable));
    let is_complete = collect(index, variables, place + 1, first, bit, numbers)?;
    if !is_complete {
        return Ok(false);
    }
    let second = with_next(&key, place, negative(variable));
    collect(index, variables, place + 1, second, !bit, numbers)
}

// A key with another literal at a place.
fn with_next(key: &[i32; 8], place: usize, literal: i32) -> [i32; 8]
    requires { place < 8 }
    ensures { result ≡ set key.now place literal }
{
    let mut next = *key;
    next[place] = literal;
    next
}

fn positive(variable: u32) -> i32
    requires { variable < 2 ^ 31 }
    ensures { result ≡ pos variable }
{
    variable as i32
}

fn negative(variable: u32) -> i32
    requires { variable < 2 ^ 31 }
    ensures { result ≡ neg_ℤ (pos variable) }
{
    -(variable as i32)
}

// Adds the number of the clause that has this key, where the bit asks for one, and says whether there is one.
fn push_number(
    index: &Index,
    key: &[i32; 8],
    bit: bool,
    numbers: &mut Vec<u32>,
) -> Result<bool, OutOfMemory>
    ensures { IfOk result (CollectsAll (if bit then option_map (λ n. n ∷ []) (number_of index.now key.now) else Some []) numbers.old.items
        numbers.new.items) }
{
    if !bit {
        return Ok(true);
    }
    match index.number(key) {
        None => Ok(false),
        Some(number) => {
            numbers.push(number)?;
            Ok(true)
        }
    }
}
