// The roots: the literals that are false whatever is added, since propagation finds them from the clauses alone. They are kept from line to
// line, and found anew only where a clause goes that is the reason of one of them.
ghost use Rattle.std.specs.Prelude.{◌≡◌, ◌<◌, [], ◌∷◌, ◌++◌, ℤ, List, None, Some, length, set, slice_index_or, take, IfOk, IfSome, IsFalse, IsTrue, OnOk};
ghost use Rattle.drat_checker.specs.declared.roots.Roots.TheVariants.{Stale, Settled};
ghost use Rattle.drat_checker.specs.Places.{Places, place_at, standing};
ghost use Rattle.drat_checker.specs.declared.watches.Watches.{Watches as Kept};
ghost use Rattle.drat_checker.specs.Propagation.{Derives};
ghost use Rattle.drat_checker.specs.Trail.{Trail};
ghost use Rattle.drat_checker.specs.Reasons.{AreByUnits, AreReasons, IsNoReason};
ghost use Rattle.drat_checker.specs.Watches.{AreTrue, AreWatched, IsGuarded};
ghost use Rattle.drat_checker.specs.Roots.{AreKept, AreRoots, IsClash, IsGrowing, WereKept};

use crate::database::Database;
use crate::false_list::FalseList;
use crate::propagation::{propagate, take_clause, take_short};
use crate::watches::Watches;
use cnf_base::{Lit, OutOfMemory};
use drat_rules::{propagation_law, quiet_law};
use lrat_rules::{Effect, effect_on};

/// What is known of the roots.
#[derive(Clone, Copy)]
pub enum Roots {
    /// nothing, not even that the clauses are watched
    Lost,
    /// nothing
    Stale,
    /// the false literals are the roots
    Settled,
    /// propagation from the clauses alone came to a conflict: the clause of this number is false under the false literals
    Clash(u32),
}

/// Makes the false literals the roots, unless they are. The answer is the number of a clause that is false then: a conflict.
pub fn settle(
    db: &Database,
    kept: &mut Watches,
    trail: &mut FalseList,
    roots: Roots,
) -> Result<Option<u32>, OutOfMemory>
    requires { AreKept roots db.now kept.old trail.old }
    ensures watched { OnOk result (AreWatched kept.new db.now) }
    ensures clash { IfOk result (λ clash. IfSome clash (IsClash db.now trail.new)) }
    ensures settled { IfOk result (λ clash. clash ≡ None → AreRoots db.now kept.new trail.new) }
{
    match roots {
        Roots::Lost => {
            kept.rebuild(db, trail)?;
            find(db, kept, trail)
        }
        Roots::Stale => find(db, kept, trail),
        Roots::Settled => Ok(None),
        Roots::Clash(number) => Ok(Some(number)),
    }
}

// Finds the roots anew. The short clauses are taken first: no others force anything where no literal is false.
fn find(
    db: &Database,
    kept: &mut Watches,
    trail: &mut FalseList,
) -> Result<Option<u32>, OutOfMemory>
    requires { AreWatched kept.old db.now }
    ensures watched { OnOk result (AreWatched kept.new db.now) }
    ensures clash { IfOk result (λ clash. IfSome clash (IsClash db.now trail.new)) }
    ensures settled { IfOk result (λ clash. clash ≡ None → AreRoots db.now kept.new trail.new) }
{
    quiet_law();
    propagation_law();
    trail.truncate(0);
    let short = take_short(db, trail)?;
    match short {
        Some(number) => Ok(Some(number)),
        None => find_rest(db, kept, trail),
    }
}

// The same once the short clauses are taken.
fn find_rest(
    db: &Database,
    kept: &mut Watches,
    trail: &mut FalseList,
) -> Result<Option<u32>, OutOfMemory>
    requires watched { AreWatched kept.old db.now }
    requires holds { AreTrue db.now trail.old.literals }
    requires derives { Derives (standing db.now) [] trail.old.literals }
    requires reasons { AreReasons db.now [] trail.old }
    requires units { AreByUnits db.now db.now trail.old }
    ensures watched { OnOk result (AreWatched kept.new db.now) }
    ensures clash { IfOk result (λ clash. IfSome clash (IsClash db.now trail.new)) }
    ensures settled { IfOk result (λ clash. clash ≡ None → AreRoots db.now kept.new trail.new) }
{
    quiet_law();
    propagation_law();
    let late = propagate(db, kept, trail, 0)?;
    trail.once_law();
    match late {
        Some(number) => Ok(Some(number)),
        None => Ok(None),
    }
}

/// What is known once a clause was put behind the others, under this number. A clause of one literal becomes the reason of that root, so
/// that the chain of clauses that led to it is needed no more.
pub fn raised(
    db: &Database,
    kept: &mut Watches,
    trail: &mut FalseList,
    roots: Roots,
    number: u32,
    clause: &[Lit],
) -> Roots
    requires { WereKept roots db.now number clause.now kept.old trail.old }
    ensures { AreKept result db.now kept.new trail.new }
{
    quiet_law();
    match roots {
        Roots::Lost => Roots::Lost,
        Roots::Stale => match kept.enter(trail, number, Some(clause)) {
            Ok(()) => Roots::Stale,
            Err(_) => Roots::Lost,
        },
        Roots::Clash(first) => match kept.enter(trail, number, Some(clause)) {
            Ok(()) => {
                cite_unit(trail, number, clause);
                Roots::Clash(first)
            }
            Err(_) => Roots::Lost,
        },
        Roots::Settled => match raise(db, kept, trail, number, clause) {
            Ok(roots) => roots,
            Err(_) => Roots::Lost,
        },
    }
}

// The clause is watched, and the roots grow by what it forces.
fn raise(
    db: &Database,
    kept: &mut Watches,
    trail: &mut FalseList,
    number: u32,
    clause: &[Lit],
) -> Result<Roots, OutOfMemory>
    requires { WereKept Settled db.now number clause.now kept.old trail.old }
    ensures { IfOk result (λ roots. AreKept roots db.now kept.new trail.new) }
{
    kept.enter(trail, number, Some(clause))?;
    let roots = grow(db, kept, trail, number, clause)?;
    Ok(roots)
}

// The roots grow by what the clause forces, which is watched.
fn grow(
    db: &Database,
    kept: &mut Watches,
    trail: &mut FalseList,
    number: u32,
    clause: &[Lit],
) -> Result<Roots, OutOfMemory>
    requires watched { AreWatched kept.old db.now }
    requires growing { IsGrowing db.now number clause.now kept.old trail.old }
    ensures { IfOk result (λ roots. AreKept roots db.now kept.new trail.new) }
{
    quiet_law();
    propagation_law();
    let count = trail.len();
    let own = take_clause(trail, number, clause)?;
    trail.once_law();
    cite_unit(trail, number, clause);
    match own {
        Some(first) => Ok(Roots::Clash(first)),
        None => spread(db, kept, trail, count),
    }
}

// Where the clause of this number has one literal, and its negation is false, it is so by this clause from now on.
fn cite_unit(trail: &mut FalseList, number: u32, clause: &[Lit])
    ensures literals { trail.new.literals ≡ trail.old.literals }
    ensures reasons { (places : Places) (assumed : List ℤ) → place_at places number ≡ Some clause.now
        → AreReasons places assumed trail.old → AreReasons places assumed trail.new }
    ensures units { (before : Places) → number ≡ length before → length trail.old.reasons ≡ length trail.old.literals
        → AreByUnits before (before ++ Some clause.now ∷ []) trail.old
        → AreByUnits (before ++ Some clause.now ∷ []) (before ++ Some clause.now ∷ []) trail.new }
{
    trail.apart_law();
    trail.once_law();
    match effect_on(&[], clause) {
        Effect::Unit(literal) => match trail.place(literal.negated()) {
            None => {}
            Some(place) => trail.set_reason(place, number),
        },
        Effect::Conflict => {}
        Effect::NotUnit => {}
    }
}

// The roots grow by what the literals from a place on force.
fn spread(
    db: &Database,
    kept: &mut Watches,
    trail: &mut FalseList,
    from: usize,
) -> Result<Roots, OutOfMemory>
    requires watched { AreWatched kept.old db.now }
    requires guarded { IsGuarded db.now kept.old.pairs.items (take from trail.old.literals) trail.old.literals }
    requires holds { AreTrue db.now trail.old.literals }
    requires derives { Derives (standing db.now) [] trail.old.literals }
    requires reasons { AreReasons db.now [] trail.old }
    requires units { AreByUnits db.now db.now trail.old }
    ensures { IfOk result (λ roots. AreKept roots db.now kept.new trail.new) }
{
    quiet_law();
    propagation_law();
    let conflict = propagate(db, kept, trail, from)?;
    trail.once_law();
    match conflict {
        Some(number) => Ok(Roots::Clash(number)),
        None => Ok(Roots::Settled),
    }
}

/// What is known once the clause of a number is taken out: the roots stay where it is the reason of none of them.
pub fn lowered(db: &Database, trail: &FalseList, roots: Roots, number: u32) -> Roots
    ensures { (fewer : Places) (kept : Kept) → fewer ≡ set db.now number None → AreKept roots db.now kept trail.now
        → AreKept result fewer kept trail.now }
{
    match roots {
        Roots::Lost => Roots::Lost,
        Roots::Stale => Roots::Stale,
        Roots::Clash(_) => Roots::Stale,
        Roots::Settled => match db.clause(number) {
            None => Roots::Stale,
            Some(clause) => {
                let spare = is_spare(trail, number, clause);
                if spare { Roots::Settled } else { Roots::Stale }
            }
        },
    }
}

/// The same once the clause of a number is to be visited late.
pub fn postponed(kept: &mut Watches, roots: Roots, number: u32) -> Roots
    ensures { (places : Places) (trail : Trail) → AreKept roots places kept.old trail → AreKept result places kept.new trail }
{
    match kept.postpone(number) {
        Ok(()) => roots,
        Err(_) => Roots::Lost,
    }
}

// Whether the clause of this number is no reason: it forces nothing under all false literals, or one that is false by another clause.
fn is_spare(trail: &FalseList, number: u32, clause: &[Lit]) -> bool
    ensures { IsTrue result → (places : Places) → place_at places number ≡ Some clause.now → AreReasons places [] trail.now
        → IsNoReason trail.now number }
{
    trail.apart_law();
    trail.once_law();
    match trail.effect_of(clause) {
        Effect::NotUnit => true,
        Effect::Conflict => false,
        Effect::Unit(literal) => match trail.place(literal.negated()) {
            None => false,
            Some(place) => !is_reason(trail, place, number),
        },
    }
}

// Whether the literal at a place is false by the clause of this number.
fn is_reason(trail: &FalseList, place: usize, number: u32) -> bool
    requires { place < length trail.now.literals }
    ensures { IsFalse result → slice_index_or trail.now.reasons place None ≡ Some number → ⊥ }
{
    match trail.reason(place) {
        None => false,
        Some(own) => own == number,
    }
}
