// From the numbers of a line to its step.
ghost use Rattle.std.specs.Prelude.{◌≡◌, true, ℕ, pos, slice_index_or, [], ◌∷◌, ◌++◌, ◌+◌, ◌<◌, nat_abs, map, take, drop};
ghost use Rattle.std.specs.Prelude.{length, Option, None, Some, Ok, OnOk, OnErr, IfOk, IsTrue, IfSome, is_some};
ghost use Rattle.std.specs.List.{list_all};
ghost use Rattle.std.specs.Option.{option_map};
ghost use Rattle.cnf_base.specs.declared.step.Step.TheVariants.{Add};
ghost use Rattle.cnf_base.specs.Truth.{is_literal_of};
ghost use Rattle.cnf_base.specs.ProofText.{max_literal, is_id, is_hint, is_zero, split_at, given_if, hints_before_group, groups_of};
ghost use Rattle.lrat_text.specs.Numbers.{addition_by, deletion_from, deletion_with, ended_list, IsIdFront};

use crate::lists::Lists;
use cnf_base::{Group, GroupList, Id, IdList, Lit, LitList, OutOfMemory, Step};
use std::alloc::Global;

/// The greatest identifier.
const MAX_ID: u64 = 999_999_999_999_999_999;

/// The greatest magnitude of a literal.
pub const MAX_LITERAL: u64 = 2_147_483_647;

#[inline(always)]
fn is_zero_at(numbers: &[i64], place: usize) -> bool
    requires { place < length numbers.now }
    ensures { result ≡ is_zero (slice_index_or numbers.now place (pos 0)) }
{
    numbers[place] == 0
}

/// Where the first zero stands, and whether the numbers before it have at most this magnitude. No test of a number before it
/// is a branch but the one for zero.
pub fn first_zero(numbers: &[i64], most: u64) -> Option<(usize, bool)>
    ensures split { split_at is_zero numbers.now
        ≡ option_map (λ found. (take found.0 numbers.now, drop (found.0 + 1) numbers.now)) result }
    ensures within { IfSome result (λ found. found.0 < length numbers.now) }
    ensures fits { IfSome result (λ found. found.1 ≡ list_all (is_literal_of most) (take found.0 numbers.now)) }
{
    let mut fits = true;
    for place in 0..numbers.len() {
        if is_zero_at(numbers, place) {
            return Some((place, fits));
        }
        fits &= is_within(numbers[place], most);
    }
    None
}

/// Whether a number isn't 0 and has at most this magnitude.
#[inline(always)]
pub fn is_within(number: i64, most: u64) -> bool
    ensures { result ≡ is_literal_of most number }
{
    let magnitude = number.unsigned_abs();
    magnitude > 0 && magnitude <= most
}

// The same of the number at a place.
#[inline(always)]
fn is_within_at(numbers: &[i64], place: usize, most: u64) -> bool
    requires { place < length numbers.now }
    ensures { result ≡ is_literal_of most (slice_index_or numbers.now place (pos 0)) }
{
    is_within(numbers[place], most)
}

// The place, if 0 stands there.
#[inline(always)]
fn zero_at(numbers: &[i64], place: usize) -> Option<usize>
    requires { place < length numbers.now }
    ensures { result ≡ given_if (is_zero (slice_index_or numbers.now place (pos 0))) place }
{
    if is_zero_at(numbers, place) {
        Some(place)
    } else {
        None
    }
}

#[inline(always)]
fn is_id(id: u64) -> bool
    ensures { result ≡ is_id id }
{
    id > 0 && id <= MAX_ID
}

// The list becomes the clause of the literals before the first zero. Where that stands, if all before it are literals.
fn put_clause(clause: &mut LitList, numbers: &[i64]) -> Result<Option<usize>, OutOfMemory>
    ensures clause { IfOk result (λ end. ended_list (is_literal_of max_literal) numbers.now
        ≡ option_map (λ n. (clause.new, drop (n + 1) numbers.now)) end) }
    ensures within { IfOk result (λ end. IfSome end (λ n. n < length numbers.now)) }
{
    clause.clear();
    for place in 0..numbers.len() {
        if !is_within_at(numbers, place, MAX_LITERAL) {
            return Ok(zero_at(numbers, place));
        }
        push_literal(clause, numbers[place])?;
    }
    Ok(None)
}

/// Appends the literal that is this number.
#[inline(always)]
pub fn push_literal(clause: &mut LitList, literal: i64) -> Result<(), OutOfMemory>
    requires { is_literal_of max_literal literal ≡ true }
    ensures { OnOk result (clause.new ≡ clause.old ++ literal ∷ []) }
{
    match Lit::new(literal as i32) {
        None => Ok(()),
        Some(literal) => clause.push(literal),
    }
}

// The list becomes the identifiers of these numbers.
fn put_ids(ids: &mut IdList, numbers: &[i64]) -> Result<(), OutOfMemory>
    ensures { OnOk result (ids.new ≡ map nat_abs numbers.now) }
{
    ids.clear();
    for number in numbers {
        ids.push(Id(number.unsigned_abs()))?;
    }
    Ok(())
}

// The list becomes the identifiers at the front, up to the first number that is none. How many they are.
fn put_front(ids: &mut IdList, numbers: &[i64]) -> Result<usize, OutOfMemory>
    ensures { IfOk result (λ count. IsIdFront count ids.new numbers.now) }
{
    ids.clear();
    for place in 0..numbers.len() {
        let number = numbers[place];
        if !(number > 0 && number <= MAX_ID as i64) {
            return Ok(place);
        }
        ids.push(Id(number as u64))?;
    }
    Ok(numbers.len())
}

// The lists become the hints and the groups before the first zero. Where that stands, if all before it are hints.
fn put_hints(
    alloc: Global,
    hints: &mut IdList,
    groups: &mut GroupList,
    numbers: &[i64],
) -> Result<Option<usize>, OutOfMemory>
    ensures split { IfOk result (λ end. ended_list is_hint numbers.now
        ≡ option_map (λ n. (take n numbers.now, drop (n + 1) numbers.now)) end) }
    ensures within { IfOk result (λ end. IfSome end (λ n. n < length numbers.now)) }
    ensures hints { IfOk result (λ end. IfSome end (λ n. hints.new ≡ hints_before_group (take n numbers.now))) }
    ensures groups { IfOk result (λ end. IfSome end (λ n. groups.new ≡ groups_of (take n numbers.now))) }
{
    groups.clear();
    let mut end = put_front(hints, numbers)?;
    'groups: while end < numbers.len() {
        if !is_within_at(numbers, end, MAX_ID) {
            return Ok(zero_at(numbers, end));
        }
        let mut own = IdList::new(alloc);
        let count = put_front(&mut own, &numbers[end + 1..])?;
        groups.push(Group {
            id: Id(numbers[end].unsigned_abs()),
            hints: own,
        })?;
        end += count + 1;
    }
    Ok(None)
}

// The lists become those of the addition that these numbers behind an identifier spell, if they spell one.
fn put_lists(
    alloc: Global,
    clause: &mut LitList,
    hints: &mut IdList,
    groups: &mut GroupList,
    numbers: &[i64],
) -> Result<bool, OutOfMemory>
    ensures { IfOk result (λ are. (id : ℕ) → is_id id ≡ true → addition_by id numbers.now ≡ given_if are (Add id clause.new hints.new groups.new)) }
{
    let Some(end) = put_clause(clause, numbers)? else {
        return Ok(false);
    };
    let rest = &numbers[end + 1..];
    match put_hints(alloc, hints, groups, rest)? {
        None => Ok(false),
        Some(end) => Ok(rest[end + 1..].is_empty()),
    }
}

/// Whether these numbers behind an identifier spell an addition, which then is the step. Memory is wanted only for that.
#[inline(always)]
pub fn put_addition(
    lists: &mut Lists,
    id: u64,
    numbers: &[i64],
    step: &mut Step,
) -> Result<bool, OutOfMemory>
    ensures step { IfOk result (λ is_step. addition_by id numbers.now ≡ given_if is_step step.new) }
    ensures memory { OnErr result (IsTrue (is_some (addition_by id numbers.now))) }
{
    match put_as_read(lists, id, numbers, step) {
        Ok(is_step) => Ok(is_step),
        Err(error) => {
            if is_addition(id, numbers) {
                Err(error)
            } else {
                Ok(false)
            }
        }
    }
}

// The same in one pass, which may want memory for numbers that spell no addition. The lists of an addition are filled where they stand.
#[inline(always)]
fn put_as_read(
    lists: &mut Lists,
    id: u64,
    numbers: &[i64],
    step: &mut Step,
) -> Result<bool, OutOfMemory>
    ensures { IfOk result (λ is_step. addition_by id numbers.now ≡ given_if is_step step.new) }
{
    if !is_id(id) {
        return Ok(false);
    }
    if let Step::Add {
        id: place,
        lits,
        pos,
        groups,
    } = step
    {
        *place = Id(id);
        return put_lists(lists.alloc, lits, pos, groups, numbers);
    }
    lists.take_back(step);
    let is_step = put_lists(
        lists.alloc,
        &mut lists.clause,
        &mut lists.hints,
        &mut lists.groups,
        numbers,
    )?;
    *step = lists.addition(id);
    Ok(is_step)
}

// Whether these numbers behind an identifier spell an addition.
#[cold]
#[inline(never)]
fn is_addition(id: u64, numbers: &[i64]) -> bool
    ensures { result ≡ is_some (addition_by id numbers.now) }
{
    let Some((end, are_literals)) = first_zero(numbers, MAX_LITERAL) else {
        return false;
    };
    let rest = &numbers[end + 1..];
    let Some((hints_end, are_hints)) = first_zero(rest, MAX_ID) else {
        return false;
    };
    is_id(id) && are_literals && are_hints && rest[hints_end + 1..].is_empty()
}

/// Whether these numbers behind the `d` spell a deletion, which then is the step. Memory is wanted only for that.
#[inline(never)]
pub fn put_deletion(
    lists: &mut Lists,
    id: u64,
    numbers: &[i64],
    step: &mut Step,
) -> Result<bool, OutOfMemory>
    ensures step { IfOk result (λ is_step. deletion_from id numbers.now ≡ given_if is_step step.new) }
    ensures memory { OnErr result (IsTrue (is_some (deletion_from id numbers.now))) }
{
    let Some((end, are_ids)) = first_zero(numbers, MAX_ID) else {
        return Ok(false);
    };
    put_deletion_with(
        lists,
        id,
        &numbers[..end],
        are_ids,
        &numbers[end + 1..],
        step,
    )
}

fn put_deletion_with(
    lists: &mut Lists,
    id: u64,
    ids: &[i64],
    are_ids: bool,
    rest: &[i64],
    step: &mut Step,
) -> Result<bool, OutOfMemory>
    requires { are_ids ≡ list_all is_hint ids.now }
    ensures step { IfOk result (λ is_step. deletion_with id (ids.now, rest.now) ≡ given_if is_step step.new) }
    ensures memory { OnErr result (IsTrue (is_some (deletion_with id (ids.now, rest.now)))) }
{
    if !(id <= MAX_ID && are_ids && rest.is_empty()) {
        return Ok(false);
    }
    if let Step::Delete {
        id: place,
        ids: deleted,
    } = step
    {
        *place = Id(id);
        put_ids(deleted, ids)?;
        return Ok(true);
    }
    lists.take_back(step);
    put_ids(&mut lists.deleted, ids)?;
    *step = lists.deletion(id);
    Ok(true)
}
