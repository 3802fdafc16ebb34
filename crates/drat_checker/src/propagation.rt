// Unit propagation over watched literals: each literal that became false visits the clauses that watch it, in the order in which the
// literals became false, until a clause is false, or none is left.
ghost use Rattle.std.specs.Prelude.{◌≡◌, ◌+◌, ◌<◌, ◌≤◌, length, ◌⊎◌, ℤ, List, [], take, None, Some, false, true, OnOk, IfOk, IfSome, IsSome, IsTrue};
ghost use Rattle.lrat_rules.specs.declared.outcome.Effect.TheVariants.{NotUnit};
ghost use Rattle.lrat_rules.specs.Chain.{literals_of, effect};
ghost use Rattle.drat_rules.specs.Clauses.{is_among};
ghost use Rattle.drat_rules.specs.Quiet.{has_quiet};
ghost use Rattle.drat_checker.specs.Places.{Places, place_at, standing};
ghost use Rattle.drat_checker.specs.Propagation.{Derives, IsClosed};
ghost use Rattle.drat_checker.specs.Database.{is_short};
ghost use Rattle.drat_checker.specs.Reasons.{AllByUnits, IsFalsified, KeepsReasons};
ghost use Rattle.drat_checker.specs.Watches.{AreHeads, AreTrue, AreWatched, IsGuarded, IsSettled, MovesWatches, is_true};

use crate::database::{Database, is_short};
use crate::false_list::FalseList;
use crate::watches::Watches;
use cnf_base::{Lit, OutOfMemory};
use drat_rules::{propagation_law, quiet_law};
use lrat_rules::Effect;

/// Propagates the literals from a place on to the end, and over the late clauses where the others come to no conflict. The answer is the
/// number of a clause that is false then: a conflict. Behind a refusal nothing is said of what is watched.
pub fn propagate(
    db: &Database,
    kept: &mut Watches,
    trail: &mut FalseList,
    from: usize,
) -> Result<Option<u32>, OutOfMemory>
    requires watched { AreWatched kept.old db.now }
    requires guarded { IsGuarded db.now kept.old.pairs.items (take from trail.old.literals) trail.old.literals }
    requires holds { AreTrue db.now trail.old.literals }
    ensures watched { OnOk result (AreWatched kept.new db.now) }
    ensures moves { OnOk result (MovesWatches kept.old.pairs.items kept.new.pairs.items trail.old.literals) }
    ensures conflict { IfOk result (λ conflict. IsSome conflict → has_quiet (standing db.now) trail.old.literals ≡ false) }
    ensures falsified { IfOk result (λ conflict. IfSome conflict (IsFalsified db.now trail.new.literals)) }
    ensures settled { IfOk result (λ conflict. conflict ≡ None → IsSettled kept.new db.now trail.new.literals) }
    ensures closed { IfOk result (λ conflict. conflict ≡ None → IsClosed (standing db.now) trail.new.literals) }
    ensures derives { OnOk result (Derives (standing db.now) trail.old.literals trail.new.literals) }
    ensures reasons { OnOk result (KeepsReasons db.now [] trail.old trail.new) }
{
    quiet_law();
    propagation_law();
    let mut heads = Heads {
        next: from,
        late: from,
    };
    'literals: while heads.late < trail.len() {
        let conflict = advance(db, kept, trail, &mut heads)?;
        match conflict {
            Some(number) => return Ok(Some(number)),
            None => continue,
        }
    }
    trail.apart_law();
    Ok(None)
}

// How many literals of a trail have visited their clauses, and how many the late ones too.
#[derive(Clone, Copy)]
struct Heads {
    next: usize,
    late: usize,
}

// The next literal visits its clauses, and where there is none the next one its late ones.
#[inline(always)]
fn advance(
    db: &Database,
    kept: &mut Watches,
    trail: &mut FalseList,
    heads: &mut Heads,
) -> Result<Option<u32>, OutOfMemory>
    requires watched { AreWatched kept.old db.now }
    requires heads { AreHeads db.now kept.old trail.old.literals heads.old.next heads.old.late }
    requires within { heads.old.next ≤ length trail.old.literals }
    requires late { heads.old.late < length trail.old.literals }
    ensures watched { OnOk result (AreWatched kept.new db.now) }
    ensures moves { OnOk result (MovesWatches kept.old.pairs.items kept.new.pairs.items trail.old.literals) }
    ensures derives { OnOk result (Derives (standing db.now) trail.old.literals trail.new.literals) }
    ensures reasons { OnOk result (KeepsReasons db.now [] trail.old trail.new) }
    ensures conflict { IfOk result (λ conflict. IsSome conflict → has_quiet (standing db.now) trail.old.literals ≡ false) }
    ensures falsified { IfOk result (λ conflict. IfSome conflict (IsFalsified db.now trail.new.literals)) }
    ensures heads { IfOk result (λ conflict. conflict ≡ None
        → AreHeads db.now kept.new trail.new.literals heads.new.next heads.new.late) }
    ensures within { IfOk result (λ conflict. conflict ≡ None → heads.new.next ≤ length trail.new.literals) }
    ensures on { heads.new.next + heads.new.late ≡ heads.old.next + heads.old.late + 1 }
{
    if heads.next < trail.len() {
        let literal = trail.literal(heads.next);
        heads.next += 1;
        return kept.visit(db, trail, literal);
    }
    let literal = trail.literal(heads.late);
    heads.late += 1;
    kept.visit_late(db, trail, literal)
}

/// Takes the short clauses. The answer is the number of one of them that is false; else they are true.
pub fn take_short(db: &Database, trail: &mut FalseList) -> Result<Option<u32>, OutOfMemory>
    ensures conflict { IfOk result (λ conflict. IsSome conflict → has_quiet (standing db.now) trail.old.literals ≡ false) }
    ensures falsified { IfOk result (λ conflict. IfSome conflict (IsFalsified db.now trail.new.literals)) }
    ensures holds { IfOk result (λ conflict. conflict ≡ None → AreTrue db.now trail.new.literals) }
    ensures derives { OnOk result (Derives (standing db.now) trail.old.literals trail.new.literals) }
    ensures reasons { OnOk result (KeepsReasons db.now [] trail.old trail.new) }
    ensures units { OnOk result (AllByUnits db.now trail.old → AllByUnits db.now trail.new) }
{
    quiet_law();
    propagation_law();
    let numbers = db.short();
    for number in numbers {
        let conflict = take_number(db, trail, *number)?;
        match conflict {
            Some(own) => return Ok(Some(own)),
            None => continue,
        }
    }
    Ok(None)
}

// The same of one number, where its clause is short.
fn take_number(
    db: &Database,
    trail: &mut FalseList,
    number: u32,
) -> Result<Option<u32>, OutOfMemory>
    ensures conflict { IfOk result (λ conflict. IsSome conflict → has_quiet (standing db.now) trail.old.literals ≡ false) }
    ensures falsified { IfOk result (λ conflict. IfSome conflict (IsFalsified db.now trail.new.literals)) }
    ensures taken { IfOk result (λ conflict. conflict ≡ None → (clause : List ℤ) → place_at db.now number ≡ Some clause
        → is_short clause ≡ true → is_true trail.new.literals clause ≡ true) }
    ensures derives { OnOk result (Derives (standing db.now) trail.old.literals trail.new.literals) }
    ensures reasons { OnOk result (KeepsReasons db.now [] trail.old trail.new) }
    ensures units { OnOk result (AllByUnits db.now trail.old → AllByUnits db.now trail.new) }
{
    match db.clause(number) {
        None => Ok(None),
        Some(clause) => take_if_short(trail, number, clause),
    }
}

// The same of the clause itself.
fn take_if_short(
    trail: &mut FalseList,
    number: u32,
    clause: &[Lit],
) -> Result<Option<u32>, OutOfMemory>
    ensures conflict { IfOk result (λ conflict. IsSome conflict → (clauses : List (List ℤ)) → IsTrue (is_among clauses clause.now)
        → has_quiet clauses trail.old.literals ≡ false) }
    ensures falsified { IfOk result (λ conflict. IfSome conflict (λ found. (places : Places) → place_at places number ≡ Some clause.now
        → IsFalsified places trail.new.literals found)) }
    ensures taken { IfOk result (λ conflict. conflict ≡ None → is_short clause.now ≡ true → is_true trail.new.literals clause.now ≡ true) }
    ensures derives { OnOk result ((clauses : List (List ℤ)) → IsTrue (is_among clauses clause.now)
        → Derives clauses trail.old.literals trail.new.literals) }
    ensures reasons { OnOk result ((places : Places) → place_at places number ≡ Some clause.now
        → KeepsReasons places [] trail.old trail.new) }
    ensures units { OnOk result ((places : Places) → place_at places number ≡ Some clause.now
        → AllByUnits places trail.old → AllByUnits places trail.new) }
{
    if is_short(clause) {
        take_clause(trail, number, clause)
    } else {
        Ok(None)
    }
}

/// Takes one clause: the negation of what it forces becomes false. The answer is its number where it is false. Else it forces nothing, or
/// is true.
pub fn take_clause(
    trail: &mut FalseList,
    number: u32,
    clause: &[Lit],
) -> Result<Option<u32>, OutOfMemory>
    ensures conflict { IfOk result (λ conflict. IsSome conflict → (clauses : List (List ℤ)) → IsTrue (is_among clauses clause.now)
        → has_quiet clauses trail.old.literals ≡ false) }
    ensures falsified { IfOk result (λ conflict. IfSome conflict (λ found. (places : Places) → place_at places number ≡ Some clause.now
        → IsFalsified places trail.new.literals found)) }
    ensures taken { IfOk result (λ conflict. conflict ≡ None
        → (effect (literals_of trail.old.literals) clause.now ≡ NotUnit) ⊎ (is_true trail.new.literals clause.now ≡ true)) }
    ensures derives { OnOk result ((clauses : List (List ℤ)) → IsTrue (is_among clauses clause.now)
        → Derives clauses trail.old.literals trail.new.literals) }
    ensures reasons { OnOk result ((places : Places) → place_at places number ≡ Some clause.now
        → KeepsReasons places [] trail.old trail.new) }
    ensures units { OnOk result ((places : Places) → place_at places number ≡ Some clause.now → is_short clause.now ≡ true
        → AllByUnits places trail.old → AllByUnits places trail.new) }
{
    quiet_law();
    propagation_law();
    match trail.effect_of(clause) {
        Effect::Conflict => Ok(Some(number)),
        Effect::NotUnit => Ok(None),
        Effect::Unit(literal) => {
            let clash = trail.falsify(literal.negated(), Some(number))?;
            if clash {
                return Ok(Some(number));
            }
            Ok(None)
        }
    }
}
