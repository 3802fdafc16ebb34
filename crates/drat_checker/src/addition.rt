// Whether an addition is good, by what propagation finds from its clause, and together with each candidate. The roots are false before.
ghost use Rattle.std.specs.Prelude.{◌≡◌, ◌∷◌, ◌++◌, [], ℤ, List, not, false, true, None, Some, IsTrue, is_some, OnOk, IfOk, IfSome, IsSome};
ghost use Rattle.std.specs.List.{list_all};
ghost use Rattle.std.specs.Option.{option_map};
ghost use Rattle.lrat_rules.specs.Chain.{literals_of};
ghost use Rattle.lrat_rules.specs.Addition.{holds_negated};
ghost use Rattle.drat_rules.specs.Quiet.{has_quiet};
ghost use Rattle.drat_rules.specs.Addition.{others_of, passes_candidate, drat_fault};
ghost use Rattle.drat_checker.specs.declared.addition.Refutation.TheVariants.{Conflict};
ghost use Rattle.drat_checker.specs.Places.{Places, place_at, standing};
ghost use Rattle.drat_checker.specs.Propagation.{Clashes, Extends, HasAlso, SameQuiet, candidates_fault, fault_under, place_passes};
ghost use Rattle.drat_checker.specs.Reasons.{AreAssumed, AreByUnits, AreReasons, ClashesAt, IsFalsified, KeepsReasons, Refutes};
ghost use Rattle.drat_checker.specs.Hints.{is_tautology};
ghost use Rattle.drat_checker.specs.Lines.{FitOneMore, IsGoodLine};
ghost use Rattle.drat_checker.specs.Watches.{AreWatched, IsSettled, MovesWatches};
ghost use Rattle.drat_checker.specs.Roots.{AreRoots};

use crate::database::Database;
use crate::false_list::FalseList;
use crate::line::LineHints;
use crate::propagation::propagate;
use crate::watches::Watches;
use cnf_base::{Lit, OutOfMemory};
use drat_rules::{propagation_law, quiet_law};
use lrat_rules::Reason;

/// How propagation came to a conflict.
#[derive(Clone, Copy)]
pub enum Refutation {
    /// The negation of this literal, one of those that are assumed, is false.
    Clash(Lit),
    /// All literals of the clause of this number are false.
    Conflict(u32),
}

/// Why the addition of a clause isn't good where these clauses stand; nothing where it is. In the end the roots alone are false again.
pub fn addition_fault(
    db: &Database,
    kept: &mut Watches,
    trail: &mut FalseList,
    line: &mut LineHints,
    clause: &[Lit],
) -> Result<Option<Reason>, OutOfMemory>
    requires watched { AreWatched kept.old db.now }
    requires roots { AreRoots db.now kept.old trail.old }
    requires hints { line.old.hints ≡ [] }
    requires groups { line.old.groups ≡ [] }
    ensures wanted { line.new.is_wanted ≡ line.old.is_wanted }
    ensures line { IfOk result (λ fault. fault ≡ None → IsTrue line.old.is_wanted → is_tautology clause.now ≡ false
        → IsGoodLine db.now clause.now line.new.hints line.new.groups) }
    ensures fault { IfOk result (λ fault. fault ≡ drat_fault (standing db.now) clause.now) }
    ensures same { OnOk result (trail.new ≡ trail.old) }
    ensures watched { OnOk result (AreWatched kept.new db.now) }
    ensures settled { OnOk result (IsSettled kept.new db.now trail.old.literals) }
{
    quiet_law();
    propagation_law();
    let roots = trail.len();
    let refutation = refute(db, kept, trail, clause)?;
    trail.once_law();
    if let Some(found) = refutation {
        line.note_refutation(db, trail, clause, found)?;
        trail.truncate(roots);
        return Ok(None);
    }
    let fault = fault_under(db, kept, trail, line, clause)?;
    trail.truncate(roots);
    Ok(fault)
}

// The same where propagation from the clause came to no conflict, and left these literals false.
fn fault_under(
    db: &Database,
    kept: &mut Watches,
    trail: &mut FalseList,
    line: &mut LineHints,
    clause: &[Lit],
) -> Result<Option<Reason>, OutOfMemory>
    requires watched { AreWatched kept.old db.now }
    requires settled { IsSettled kept.old db.now trail.old.literals }
    requires assumed { AreAssumed db.now clause.now trail.old }
    requires hints { line.old.hints ≡ [] }
    requires groups { line.old.groups ≡ [] }
    ensures fault { IfOk result (λ fault. fault ≡ fault_under (standing db.now) trail.old.literals clause.now) }
    ensures wanted { line.new.is_wanted ≡ line.old.is_wanted }
    ensures line { IfOk result (λ fault. fault ≡ None → IsTrue line.old.is_wanted → is_tautology clause.now ≡ false
        → has_quiet (standing db.now) clause.now ≡ true → IsGoodLine db.now clause.now line.new.hints line.new.groups) }
    ensures same { OnOk result (trail.new ≡ trail.old) }
    ensures watched { OnOk result (AreWatched kept.new db.now) }
    ensures moves { OnOk result (MovesWatches kept.old.pairs.items kept.new.pairs.items trail.old.literals) }
{
    match clause {
        [] => Ok(Some(Reason::NoConflict)),
        [pivot, ..] => candidates_fault(db, kept, trail, line, clause, *pivot),
    }
}

fn candidates_fault(
    db: &Database,
    kept: &mut Watches,
    trail: &mut FalseList,
    line: &mut LineHints,
    clause: &[Lit],
    pivot: Lit,
) -> Result<Option<Reason>, OutOfMemory>
    requires watched { AreWatched kept.old db.now }
    requires settled { IsSettled kept.old db.now trail.old.literals }
    requires assumed { AreAssumed db.now clause.now trail.old }
    requires groups { line.old.groups ≡ [] }
    ensures fault { IfOk result (λ fault. fault ≡ candidates_fault (standing db.now) trail.old.literals pivot) }
    ensures wanted { line.new.is_wanted ≡ line.old.is_wanted }
    ensures hints { line.new.hints ≡ line.old.hints }
    ensures line { IfOk result (λ fault. fault ≡ None → IsTrue line.old.is_wanted → is_tautology clause.now ≡ false
        → has_quiet (standing db.now) clause.now ≡ true
        → (others : List ℤ) → clause.now ≡ pivot ∷ others → IsGoodLine db.now clause.now [] line.new.groups) }
    ensures same { OnOk result (trail.new ≡ trail.old) }
    ensures watched { OnOk result (AreWatched kept.new db.now) }
    ensures moves { OnOk result (MovesWatches kept.old.pairs.items kept.new.pairs.items trail.old.literals) }
{
    let pass = all_pass(db, kept, trail, line, clause, pivot)?;
    if pass {
        Ok(None)
    } else {
        Ok(Some(Reason::CandidateOpen))
    }
}

// How propagation comes to a conflict, if it does, once a clause's literals are false too.
fn refute(
    db: &Database,
    kept: &mut Watches,
    trail: &mut FalseList,
    clause: &[Lit],
) -> Result<Option<Refutation>, OutOfMemory>
    requires watched { AreWatched kept.old db.now }
    requires settled { IsSettled kept.old db.now trail.old.literals }
    ensures refuted { IfOk result (λ found. is_some found ≡ not (has_quiet (standing db.now) (trail.old.literals ++ clause.now))) }
    ensures refutes { IfOk result (λ found. IfSome found (Refutes db.now trail.new clause.now)) }
    ensures held { IfOk result (λ found. found ≡ None → IsTrue (list_all (literals_of trail.new.literals) clause.now)) }
    ensures same { IfOk result (λ found. found ≡ None → SameQuiet (standing db.now) (trail.old.literals ++ clause.now) trail.new.literals) }
    ensures watched { OnOk result (AreWatched kept.new db.now) }
    ensures moves { OnOk result (MovesWatches kept.old.pairs.items kept.new.pairs.items trail.old.literals) }
    ensures settled { IfOk result (λ found. found ≡ None → IsSettled kept.new db.now trail.new.literals) }
    ensures extends { OnOk result (Extends trail.old.literals trail.new.literals) }
    ensures reasons { OnOk result (KeepsReasons db.now clause.now trail.old trail.new) }
{
    quiet_law();
    propagation_law();
    let count = trail.len();
    let clash = assume(trail, clause)?;
    if let Some(literal) = clash {
        return Ok(Some(Refutation::Clash(literal)));
    }
    let conflict = propagate(db, kept, trail, count)?;
    trail.apart_law();
    Ok(of_conflict(conflict))
}

/// The same where a clause is false already: by one of the literals that are assumed now, if its negation is false, or by the clause.
pub fn refutation_by(trail: &FalseList, clause: &[Lit], number: u32) -> Refutation
    ensures { (places : Places) → IsFalsified places trail.now.literals number → Refutes places trail.now clause.now result }
{
    for literal in clause {
        let clash = trail.contains(literal.negated());
        if clash {
            return Refutation::Clash(*literal);
        }
    }
    Refutation::Conflict(number)
}

fn of_conflict(conflict: Option<u32>) -> Option<Refutation>
    ensures { result ≡ option_map Conflict conflict }
{
    match conflict {
        None => None,
        Some(number) => Some(Refutation::Conflict(number)),
    }
}

// Whether each clause is no candidate, or is refuted together with the false literals.
fn all_pass(
    db: &Database,
    kept: &mut Watches,
    trail: &mut FalseList,
    line: &mut LineHints,
    clause: &[Lit],
    pivot: Lit,
) -> Result<bool, OutOfMemory>
    requires watched { AreWatched kept.old db.now }
    requires settled { IsSettled kept.old db.now trail.old.literals }
    requires groups { line.old.groups ≡ [] }
    requires assumed { AreAssumed db.now clause.now trail.old }
    ensures pass { IfOk result (λ pass. pass ≡ list_all (passes_candidate (standing db.now) pivot trail.old.literals) (standing db.now)) }
    ensures wanted { line.new.is_wanted ≡ line.old.is_wanted }
    ensures hints { line.new.hints ≡ line.old.hints }
    ensures line { IfOk result (λ pass. IsTrue pass → IsTrue line.old.is_wanted → is_tautology clause.now ≡ false
        → has_quiet (standing db.now) clause.now ≡ true
        → (others : List ℤ) → clause.now ≡ pivot ∷ others → IsGoodLine db.now clause.now [] line.new.groups) }
    ensures same { OnOk result (trail.new ≡ trail.old) }
    ensures watched { OnOk result (AreWatched kept.new db.now) }
    ensures moves { OnOk result (MovesWatches kept.old.pairs.items kept.new.pairs.items trail.old.literals) }
{
    let numbers = db.numbers(pivot.negated());
    for number in numbers {
        let good = passes_number(db, kept, trail, line, clause, pivot, *number)?;
        if !good {
            return Ok(false);
        }
    }
    Ok(true)
}

// The same of the clause of a number, where it stands.
fn passes_number(
    db: &Database,
    kept: &mut Watches,
    trail: &mut FalseList,
    line: &mut LineHints,
    clause: &[Lit],
    pivot: Lit,
    number: u32,
) -> Result<bool, OutOfMemory>
    requires watched { AreWatched kept.old db.now }
    requires settled { IsSettled kept.old db.now trail.old.literals }
    requires assumed { AreAssumed db.now clause.now trail.old }
    ensures passes { IfOk result (λ passes. passes ≡ place_passes (standing db.now) pivot trail.old.literals (place_at db.now number)) }
    ensures wanted { line.new.is_wanted ≡ line.old.is_wanted }
    ensures hints { line.new.hints ≡ line.old.hints }
    ensures fits { IfOk result (λ passes. IsTrue passes → IsTrue line.old.is_wanted → is_tautology clause.now ≡ false
        → FitOneMore db.now clause.now pivot number line.old.groups line.new.groups) }
    ensures same { OnOk result (trail.new ≡ trail.old) }
    ensures watched { OnOk result (AreWatched kept.new db.now) }
    ensures moves { OnOk result (MovesWatches kept.old.pairs.items kept.new.pairs.items trail.old.literals) }
{
    match db.clause(number) {
        None => Ok(true),
        Some(other) => passes(db, kept, trail, line, clause, pivot, number, other),
    }
}

// The same of one clause. In the end the false literals are as before.
fn passes(
    db: &Database,
    kept: &mut Watches,
    trail: &mut FalseList,
    line: &mut LineHints,
    clause: &[Lit],
    pivot: Lit,
    number: u32,
    other: &[Lit],
) -> Result<bool, OutOfMemory>
    requires watched { AreWatched kept.old db.now }
    requires settled { IsSettled kept.old db.now trail.old.literals }
    requires stands { place_at db.now number ≡ Some other.now }
    requires assumed { AreAssumed db.now clause.now trail.old }
    ensures passes { IfOk result (λ passes. passes ≡ passes_candidate (standing db.now) pivot trail.old.literals other.now) }
    ensures wanted { line.new.is_wanted ≡ line.old.is_wanted }
    ensures hints { line.new.hints ≡ line.old.hints }
    ensures fits { IfOk result (λ passes. IsTrue passes → IsTrue line.old.is_wanted → is_tautology clause.now ≡ false
        → FitOneMore db.now clause.now pivot number line.old.groups line.new.groups) }
    ensures same { OnOk result (trail.new ≡ trail.old) }
    ensures watched { OnOk result (AreWatched kept.new db.now) }
    ensures moves { OnOk result (MovesWatches kept.old.pairs.items kept.new.pairs.items trail.old.literals) }
{
    let holds = holds_negated(other, pivot);
    if !holds {
        return Ok(true);
    }
    let count = trail.len();
    let refutation = refute_candidate(db, kept, trail, pivot, other)?;
    trail.apart_law();
    trail.once_law();
    note_candidate(db, trail, line, clause, pivot, number, other, refutation)?;
    trail.truncate(count);
    Ok(refutation.is_some())
}

// The group of a candidate that is refuted, with the literals that are false then.
fn note_candidate(
    db: &Database,
    trail: &FalseList,
    line: &mut LineHints,
    clause: &[Lit],
    pivot: Lit,
    number: u32,
    other: &[Lit],
    refutation: Option<Refutation>,
) -> Result<(), OutOfMemory>
    requires stands { place_at db.now number ≡ Some other.now }
    requires holds { IsTrue (holds_negated pivot other.now) }
    ensures wanted { line.new.is_wanted ≡ line.old.is_wanted }
    ensures hints { line.new.hints ≡ line.old.hints }
    ensures fits { OnOk result (IsSome refutation → IsTrue line.old.is_wanted → is_tautology clause.now ≡ false
        → AreReasons db.now (clause.now ++ others_of pivot other.now) trail.now → AreByUnits db.now db.now trail.now
        → IfSome refutation (Refutes db.now trail.now (clause.now ++ others_of pivot other.now))
        → FitOneMore db.now clause.now pivot number line.old.groups line.new.groups) }
{
    match refutation {
        None => Ok(()),
        Some(found) => line.add_candidate(db, trail, clause, pivot, number, other, found),
    }
}

pub fn holds_negated(clause: &[Lit], pivot: Lit) -> bool
    ensures { result ≡ holds_negated pivot clause.now }
{
    clause.contains(&pivot.negated())
}

// The same of a candidate's literals, but for the pivot's negation.
fn refute_candidate(
    db: &Database,
    kept: &mut Watches,
    trail: &mut FalseList,
    pivot: Lit,
    other: &[Lit],
) -> Result<Option<Refutation>, OutOfMemory>
    requires watched { AreWatched kept.old db.now }
    requires settled { IsSettled kept.old db.now trail.old.literals }
    ensures refutes { IfOk result (λ found. IfSome found (Refutes db.now trail.new (others_of pivot other.now))) }
    ensures refuted { IfOk result (λ found. is_some found
        ≡ not (has_quiet (standing db.now) (trail.old.literals ++ others_of pivot other.now))) }
    ensures watched { OnOk result (AreWatched kept.new db.now) }
    ensures moves { OnOk result (MovesWatches kept.old.pairs.items kept.new.pairs.items trail.old.literals) }
    ensures extends { OnOk result (Extends trail.old.literals trail.new.literals) }
    ensures reasons { OnOk result (KeepsReasons db.now (others_of pivot other.now) trail.old trail.new) }
{
    quiet_law();
    propagation_law();
    let count = trail.len();
    let clash = assume_others(trail, pivot, other)?;
    if let Some(literal) = clash {
        return Ok(Some(Refutation::Clash(literal)));
    }
    let conflict = propagate(db, kept, trail, count)?;
    trail.apart_law();
    Ok(of_conflict(conflict))
}

// Makes a clause's literals false. The answer is one of them that clashes: its negation is false.
fn assume(trail: &mut FalseList, clause: &[Lit]) -> Result<Option<Lit>, OutOfMemory>
    ensures clash { IfOk result (λ clash. IsSome clash → Clashes (trail.old.literals ++ clause.now)) }
    ensures held { IfOk result (λ clash. IfSome clash (ClashesAt trail.new clause.now)) }
    ensures also { IfOk result (λ clash. clash ≡ None → HasAlso clause.now trail.old.literals trail.new.literals) }
    ensures extends { OnOk result (Extends trail.old.literals trail.new.literals) }
    ensures reasons { OnOk result ((places : Places) → KeepsReasons places clause.now trail.old trail.new) }
{
    for literal in clause {
        let clash = trail.falsify(*literal, None)?;
        if clash {
            return Ok(Some(*literal));
        }
    }
    Ok(None)
}

// The same of a candidate's literals, but for the pivot's negation.
fn assume_others(
    trail: &mut FalseList,
    pivot: Lit,
    clause: &[Lit],
) -> Result<Option<Lit>, OutOfMemory>
    ensures clash { IfOk result (λ clash. IsSome clash → Clashes (trail.old.literals ++ others_of pivot clause.now)) }
    ensures held { IfOk result (λ clash. IfSome clash (ClashesAt trail.new (others_of pivot clause.now))) }
    ensures also { IfOk result (λ clash. clash ≡ None → HasAlso (others_of pivot clause.now) trail.old.literals trail.new.literals) }
    ensures extends { OnOk result (Extends trail.old.literals trail.new.literals) }
    ensures reasons { OnOk result ((places : Places) → KeepsReasons places (others_of pivot clause.now) trail.old trail.new) }
{
    let negated = pivot.negated();
    for literal in clause {
        if *literal == negated {
            continue;
        }
        let clash = trail.falsify(*literal, None)?;
        if clash {
            return Ok(Some(*literal));
        }
    }
    Ok(None)
}
