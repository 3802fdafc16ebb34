// The hints that refute a clause in an LRAT proof: from the first conflict back over the literals that are false, the clauses that forced
// those that are needed and aren't assumed, and no others.
ghost use Rattle.std.specs.Prelude.{◌≡◌, ◌<◌, ◌≤◌, ◌+◌, ◌∷◌, ◌++◌, ◌⊎◌, [], ℤ, pos, List, None, Some, true, length, reverse, take, OnOk};
ghost use Rattle.std.specs.Prelude.{IfOk, IfSome, IsTrue, IsFalse, false, not, ◌&&◌, ◌||◌, slice_index_or};
ghost use Rattle.cnf_base.specs.ProofText.{is_id};
ghost use Rattle.lrat_rules.specs.Chain.{literals_of};
ghost use Rattle.drat_checker.specs.Places.{Places, lesser_of, place_at};
ghost use Rattle.drat_checker.specs.Reasons.{AreFree, AreReasons, Refutes};
ghost use Rattle.drat_checker.specs.Hints.{HasSame, IsFirstConflict, Refute, RefuteSoFar, is_tautology, untaken};
ghost use Rattle.drat_checker.specs.Hints.{ClashesAssumed, IsFirstClash, IsFirstOpposed, IsForcedAt, IsHeldAt, NoneClashes};

use crate::addition::Refutation;
use crate::database::Database;
use crate::false_list::FalseList;
use crate::marks::Marks;
use crate::order::Order;
use cnf_base::{Id, IdList, Lit, OutOfMemory};

/// A clause whose literals are all false or assumed, and how many literals of the trail it takes for that.
#[derive(Clone, Copy)]
pub struct FirstConflict {
    pub number: u32,
    pub count: usize,
}

/// The first conflict, by how propagation came to one; nothing where two of the literals that are assumed clash.
pub fn conflict_of(
    trail: &FalseList,
    given: &Marks,
    refutation: Refutation,
) -> Option<FirstConflict>
    ensures first { (places : Places) (assumed : List ℤ) → HasSame given.now assumed → AreReasons places assumed trail.now
        → Refutes places trail.now assumed refutation → IfSome result (IsFirstConflict places trail.now.literals assumed) }
    ensures none { (places : Places) (assumed : List ℤ) → HasSame given.now assumed → AreReasons places assumed trail.now
        → Refutes places trail.now assumed refutation → result ≡ None → is_tautology assumed ≡ true }
    ensures within { IfSome result (λ first. first.count ≤ length trail.now.literals) }
{
    trail.apart_law();
    trail.once_law();
    match refutation {
        Refutation::Conflict(number) => {
            let count = trail.len();
            Some(FirstConflict { number, count })
        }
        Refutation::Clash(_literal) => first_clash(trail, given),
    }
}

// The clause that forced the first literal whose negation is assumed.
fn first_clash(trail: &FalseList, given: &Marks) -> Option<FirstConflict>
    ensures clash { IfSome result (IsFirstClash trail.now given.now) }
    ensures none { result ≡ None → NoneClashes trail.now given.now ⊎ ClashesAssumed trail.now given.now }
{
    match first_opposed(trail, given.as_slice()) {
        None => None,
        Some(place) => by_reason(trail.reason(place), place),
    }
}

// The place of the first literal whose negation is one of these.
fn first_opposed(trail: &FalseList, given: &[Lit]) -> Option<usize>
    ensures found { IfSome result (IsFirstOpposed trail.now.literals given.now) }
    ensures none { result ≡ None → AreFree trail.now.literals given.now }
{
    trail.once_law();
    let mut first = None;
    for literal in given {
        first = earlier(first, trail.place(literal.negated()));
    }
    first
}

// The lesser of two places, or the only one.
fn earlier(first: Option<usize>, other: Option<usize>) -> Option<usize>
    ensures { result ≡ lesser_of first other }
{
    match other {
        None => first,
        Some(place) => match first {
            None => Some(place),
            Some(least) => Some(least.min(place)),
        },
    }
}

fn by_reason(reason: Option<u32>, count: usize) -> Option<FirstConflict>
    ensures some { IfSome result (λ first. (first.count ≡ count) × (reason ≡ Some first.number)) }
    ensures none { result ≡ None → reason ≡ None }
{
    match reason {
        None => None,
        Some(number) => Some(FirstConflict { number, count }),
    }
}

/// The hints that the conflict needs, in the place of those that are there, the last one first.
pub fn explain(
    db: &Database,
    trail: &FalseList,
    given: &Marks,
    needed: &mut Marks,
    found: &mut IdList,
    order: &mut Order,
    first: FirstConflict,
) -> Result<(), OutOfMemory>
    requires within { first.count ≤ length trail.now.literals }
    ensures { OnOk result (Refute db.now trail.now given.now first (reverse found.new)) }
{
    order.find(db, trail, given, first.number)?;
    let whole = explain_by(
        db,
        trail,
        given,
        needed,
        &mut order.taken,
        found,
        order.places.as_slice(),
        first,
    )?;
    if whole {
        return Ok(());
    }
    explain_all(db, trail, given, needed, found, first)
}

// The same by some places. The answer is whether they are all that are needed, each behind those that it needs.
fn explain_by(
    db: &Database,
    trail: &FalseList,
    given: &Marks,
    needed: &mut Marks,
    taken: &mut Marks,
    found: &mut IdList,
    places: &[usize],
    first: FirstConflict,
) -> Result<bool, OutOfMemory>
    requires within { first.count ≤ length trail.now.literals }
    ensures { IfOk result (λ whole. IsTrue whole → Refute db.now trail.now given.now first (reverse found.new)) }
{
    needed.clear();
    taken.clear();
    found.clear();
    note(db, needed, found, first.number)?;
    for place in places {
        if first.count <= *place {
            return Ok(false);
        }
        let fits = take_at(db, trail, given, needed, taken, found, *place)?;
        if !fits {
            return Ok(false);
        }
    }
    let whole = none_left(trail, given, taken, needed.as_slice());
    Ok(whole)
}

// Takes one place, unless its clause needs a literal that was taken before. A literal that isn't needed has no hint.
fn take_at(
    db: &Database,
    trail: &FalseList,
    given: &Marks,
    needed: &mut Marks,
    taken: &mut Marks,
    found: &mut IdList,
    place: usize,
) -> Result<bool, OutOfMemory>
    requires within { place < length trail.now.literals }
    ensures { IfOk result (λ fits. IsTrue fits → (first : FirstConflict) → place < first.count
        → RefuteSoFar db.now trail.now given.now first (untaken first trail.now taken.old) (literals_of needed.old) found.old
        → RefuteSoFar db.now trail.now given.now first (untaken first trail.now taken.new) (literals_of needed.new) found.new) }
{
    trail.apart_law();
    trail.once_law();
    let literal = trail.literal(place);
    let again = taken.contains(literal);
    if again {
        return Ok(true);
    }
    taken.mark(literal)?;
    let is_needed = needed.contains(literal);
    if !is_needed {
        return Ok(true);
    }
    match forced_by(trail, given, place) {
        None => Ok(true),
        Some(number) => {
            let needs = needs_taken(db, taken, number);
            if needs {
                return Ok(false);
            }
            note(db, needed, found, number)?;
            Ok(true)
        }
    }
}

// The clause that forced the literal at a place, unless it is assumed.
fn forced_by(trail: &FalseList, given: &Marks, place: usize) -> Option<u32>
    requires within { place < length trail.now.literals }
    ensures forced { IfSome result (IsForcedAt trail.now given.now place) }
    ensures none { result ≡ None → (places : Places) (assumed : List ℤ) → HasSame given.now assumed → AreReasons places assumed trail.now
        → literals_of assumed (slice_index_or trail.now.literals place (pos 0)) ≡ true }
{
    let is_given = given.contains(trail.literal(place));
    if is_given {
        return None;
    }
    trail.reason(place)
}

// Whether a literal of the clause was taken.
fn needs_taken(db: &Database, taken: &Marks, number: u32) -> bool
    ensures { IsFalse result → (clause : List ℤ) → place_at db.now number ≡ Some clause → (x : ℤ) → literals_of clause x ≡ true
        → literals_of taken.now x ≡ false }
{
    match db.clause(number) {
        None => false,
        Some(clause) => holds_one(taken, clause),
    }
}

fn holds_one(taken: &Marks, clause: &[Lit]) -> bool
    ensures { IsFalse result → (x : ℤ) → literals_of clause.now x ≡ true → literals_of taken.now x ≡ false }
{
    for literal in clause {
        let one = taken.contains(*literal);
        if one {
            return true;
        }
    }
    false
}

// Whether each of these literals that is false was taken, or is assumed.
fn none_left(trail: &FalseList, given: &Marks, taken: &Marks, needed: &[Lit]) -> bool
    ensures { IsTrue result → (x : ℤ) → literals_of needed.now x ≡ true → literals_of trail.now.literals x ≡ true
        → (literals_of taken.now x || literals_of given.now x) ≡ true }
{
    for literal in needed {
        let left = is_left(trail, given, taken, *literal);
        if left {
            return false;
        }
    }
    true
}

fn is_left(trail: &FalseList, given: &Marks, taken: &Marks, literal: Lit) -> bool
    ensures { result
        ≡ (literals_of trail.now.literals literal && not (literals_of taken.now literal) && not (literals_of given.now literal)) }
{
    trail.contains(literal) && !taken.contains(literal) && !given.contains(literal)
}

// The hints that the conflict needs, found by going back over all places.
fn explain_all(
    db: &Database,
    trail: &FalseList,
    given: &Marks,
    needed: &mut Marks,
    found: &mut IdList,
    first: FirstConflict,
) -> Result<(), OutOfMemory>
    requires within { first.count ≤ length trail.now.literals }
    ensures { OnOk result (Refute db.now trail.now given.now first (reverse found.new)) }
{
    needed.clear();
    found.clear();
    note(db, needed, found, first.number)?;
    let mut place = first.count;
    'places: while place > 0 {
        place -= 1;
        take_back(db, trail, given, needed, found, place)?;
    }
    Ok(())
}

// One place back.
fn take_back(
    db: &Database,
    trail: &FalseList,
    given: &Marks,
    needed: &mut Marks,
    found: &mut IdList,
    place: usize,
) -> Result<(), OutOfMemory>
    requires within { place < length trail.now.literals }
    ensures { OnOk result ((first : FirstConflict) → place < first.count
        → RefuteSoFar db.now trail.now given.now first (literals_of (take (place + 1) trail.now.literals)) (literals_of needed.old) found.old
        → RefuteSoFar db.now trail.now given.now first (literals_of (take place trail.now.literals)) (literals_of needed.new) found.new) }
{
    trail.apart_law();
    trail.once_law();
    let is_needed = needed.contains(trail.literal(place));
    if !is_needed {
        return Ok(());
    }
    match forced_by(trail, given, place) {
        None => Ok(()),
        Some(number) => {
            note(db, needed, found, number)?;
            Ok(())
        }
    }
}

// A clause is a hint: its literals are needed.
fn note(
    db: &Database,
    needed: &mut Marks,
    found: &mut IdList,
    number: u32,
) -> Result<(), OutOfMemory>
    ensures kept { (x : ℤ) → literals_of needed.old x ≡ true → literals_of needed.new x ≡ true }
    ensures marked { OnOk result ((clause : List ℤ) → place_at db.now number ≡ Some clause → (x : ℤ) → literals_of clause x ≡ true
        → literals_of needed.new x ≡ true) }
    ensures own { OnOk result ((x : ℤ) → literals_of needed.new x ≡ true → (literals_of needed.old x ≡ true) ⊎ IsHeldAt db.now number x) }
    ensures found { OnOk result (found.new ≡ found.old ++ (number + 1) ∷ []) }
    ensures id { IsTrue (is_id (number + 1)) }
{
    let id = id_of(number);
    mark_number(db, needed, number)?;
    found.push(id)?;
    Ok(())
}

/// The number of a clause in the LRAT proof, where the first is 1.
pub fn id_of(number: u32) -> Id
    ensures value { result ≡ number + 1 }
    ensures range { IsTrue (is_id (number + 1)) }
{
    Id(u64::from(number) + 1)
}

fn mark_number(db: &Database, needed: &mut Marks, number: u32) -> Result<(), OutOfMemory>
    ensures kept { (x : ℤ) → literals_of needed.old x ≡ true → literals_of needed.new x ≡ true }
    ensures marked { OnOk result ((clause : List ℤ) → place_at db.now number ≡ Some clause → (x : ℤ) → literals_of clause x ≡ true
        → literals_of needed.new x ≡ true) }
    ensures own { OnOk result ((x : ℤ) → literals_of needed.new x ≡ true → (literals_of needed.old x ≡ true) ⊎ IsHeldAt db.now number x) }
{
    match db.clause(number) {
        None => Ok(()),
        Some(clause) => needed.mark_all(clause),
    }
}

/// Puts numbers behind others, the last one first.
pub fn push_turned(found: &[Id], hints: &mut IdList) -> Result<(), OutOfMemory>
    ensures { OnOk result (hints.new ≡ hints.old ++ reverse found.now) }
{
    let mut left = found.len();
    'ids: while left > 0 {
        left -= 1;
        hints.push(found[left])?;
    }
    Ok(())
}
