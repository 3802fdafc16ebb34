// Additions that need no propagation where no hints are wanted: each candidate has a literal besides the pivot's negation whose negation is
// in the added clause. (Such a clause is blocked: Järvisalo, Biere, Heule: Blocked Clause Elimination, TACAS 2010.) Definitions of extension
// variables are of this kind.
ghost use Rattle.std.specs.Prelude.{◌≡◌, ◌++◌, ℤ, List, None, IsTrue};
ghost use Rattle.std.specs.List.{list_all};
ghost use Rattle.lrat_rules.specs.Chain.{literals_of};
ghost use Rattle.lrat_rules.specs.Addition.{is_blocked_by};
ghost use Rattle.drat_rules.specs.Addition.{drat_fault, others_of, passes_candidate};
ghost use Rattle.drat_checker.specs.Places.{place_at, standing};
ghost use Rattle.drat_checker.specs.Propagation.{Clashes, place_passes};

use crate::addition::holds_negated;
use crate::database::Database;
use cnf_base::Lit;
use drat_rules::quiet_law;
use lrat_rules::is_among;

// More numbers aren't looked at: where a clause has more candidates, propagation is the likelier way.
const MOST_NUMBERS: usize = 8;

/// Whether the addition of a clause is good by the literals of its few candidates alone.
pub fn is_blocked(db: &Database, clause: &[Lit]) -> bool
    ensures { IsTrue result → drat_fault (standing db.now) clause.now ≡ None }
{
    match clause {
        [] => false,
        [pivot, ..] => all_blocked(db, *pivot, clause),
    }
}

fn all_blocked(db: &Database, pivot: Lit, clause: &[Lit]) -> bool
    ensures { IsTrue result → IsTrue (list_all (passes_candidate (standing db.now) pivot clause.now) (standing db.now)) }
{
    let numbers = db.numbers(pivot.negated());
    if numbers.len() > MOST_NUMBERS {
        return false;
    }
    for number in numbers {
        let blocked = is_number_blocked(db, pivot, clause, *number);
        if !blocked {
            return false;
        }
    }
    true
}

// Whether the clause of a number is blocked, where it stands.
fn is_number_blocked(db: &Database, pivot: Lit, clause: &[Lit], number: u32) -> bool
    ensures { IsTrue result → (clauses : List (List ℤ)) → IsTrue (place_passes clauses pivot clause.now (place_at db.now number)) }
{
    match db.clause(number) {
        None => true,
        Some(other) => is_blocked_by(pivot, clause, other),
    }
}

// Whether the clause is no candidate, or clashes with the added one.
fn is_blocked_by(pivot: Lit, clause: &[Lit], other: &[Lit]) -> bool
    ensures { IsTrue result → (clauses : List (List ℤ)) → IsTrue (passes_candidate clauses pivot clause.now other.now) }
{
    quiet_law();
    let holds = holds_negated(other, pivot);
    if !holds {
        return true;
    }
    clashes(pivot, clause, other)
}

// Whether a candidate has a literal, besides the pivot's negation, whose negation is in the added clause.
pub fn clashes(pivot: Lit, clause: &[Lit], other: &[Lit]) -> bool
    ensures clash { IsTrue result → Clashes (clause.now ++ others_of pivot other.now) }
    ensures blocked { result ≡ is_blocked_by (literals_of clause.now) pivot other.now }
{
    let negated = pivot.negated();
    for literal in other {
        if *literal == negated {
            continue;
        }
        let clash = is_among(clause, literal.negated());
        if clash {
            return true;
        }
    }
    false
}
