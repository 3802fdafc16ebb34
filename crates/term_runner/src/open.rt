// What a formula shows before any diagram, beside an empty clause: that all clauses are tautologies. A long clause is asked for
// opposite literals by a sorted set of its literals, so that a clause takes some n · log n comparisons while there is
// memory in proportion to it. A hash set is hardly faster, and slow for literals that are chosen for its fixed seed.
ghost use Rattle.std.specs.Prelude.{◌≡◌, IfOk};
ghost use Rattle.std.specs.BTreeSet.{IsFromIterResult};
ghost use Rattle.std.specs.List.{list_all};
ghost use Rattle.std.specs.Ordering.{int_cmp};
ghost use Rattle.term_runner.specs.Clauses.{is_tautology};

use cnf_base::{Cnf, Lit};
use std::alloc::{AllocError, Global};
use std::collections::BTreeSet;

// Up to so many literals a walk over the clause for each of them is faster than a set.
const SHORT: usize = 64;

/// Whether each clause has both signs of a variable. It ends at the first that has not.
pub fn are_tautologies(alloc: Global, formula: &Cnf) -> bool
    ensures { result ≡ list_all is_tautology formula.now.clauses }
{
    for i in 0..formula.len() {
        if !is_tautology(alloc, formula.clause(i + 1)) {
            return false;
        }
    }
    true
}

// Where memory is refused for the set, a long clause is walked over like a short one, so that no answer depends on it.
fn is_tautology(alloc: Global, clause: &[Lit]) -> bool
    ensures { result ≡ is_tautology clause.now }
{
    if SHORT < clause.len() {
        if let Ok(literals) = as_set(alloc, clause) {
            return has_opposites(clause, &literals);
        }
    }
    clause
        .iter()
        .any(|literal| clause.contains(&literal.negated()))
}

fn as_set(alloc: Global, clause: &[Lit]) -> Result<BTreeSet<Lit>, AllocError>
    ensures { IfOk result (IsFromIterResult int_cmp clause.now) }
{
    clause.iter().copied().collect(alloc)
}

fn has_opposites(clause: &[Lit], literals: &BTreeSet<Lit>) -> bool
    requires { IsFromIterResult int_cmp clause.now literals.now }
    ensures { result ≡ is_tautology clause.now }
{
    clause
        .iter()
        .any(|literal| literals.contains(&literal.negated()))
}
