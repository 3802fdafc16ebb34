// The first clause that is told to be another one, among those whose list has the same hash.
ghost use Rattle.std.specs.Prelude.{◌≡◌, ℕ, IsTrue, IfSome};
ghost use Rattle.drat_rules.specs.Clauses.{equality_of, same_set};
ghost use Rattle.std.specs.List.{list_all};
ghost use Rattle.lrat_rules.specs.Chain.{literals_of};
ghost use Rattle.drat_checker.specs.Places.{place_at, IsAtMost, is_twin, lesser};
ghost use Rattle.drat_checker.specs.Numbers.{has_number};

use crate::store::Store;
use cnf_base::Lit;
use drat_rules::Deletions;
use lrat_rules::is_among;

/// The least of these numbers whose clause is told to be this one.
pub fn least_of(store: &Store, numbers: &[u32], clause: &[Lit], deletions: Deletions) -> Option<u32>
    ensures found { IfSome result (λ number. IsTrue (is_twin (equality_of deletions) clause.now (place_at store.now number))) }
    ensures least { (number : ℕ) → IsTrue (has_number number numbers.now)
        → IsTrue (is_twin (equality_of deletions) clause.now (place_at store.now number)) → IsAtMost result number }
{
    let mut least = None;
    for number in numbers {
        if !is_twin(store, *number, clause, deletions) {
            continue;
        }
        least = lesser(least, *number);
    }
    least
}

// Whether the clause of a number is told to be this one.
fn is_twin(store: &Store, number: u32, clause: &[Lit], deletions: Deletions) -> bool
    ensures { result ≡ is_twin (equality_of deletions) clause.now (place_at store.now number) }
{
    match store.clause(number) {
        None => false,
        Some(own) => is_same(clause, own, deletions),
    }
}

fn is_same(clause: &[Lit], own: &[Lit], deletions: Deletions) -> bool
    ensures { result ≡ equality_of deletions clause.now own.now }
{
    match deletions {
        Deletions::ByList => clause == own,
        Deletions::BySet => is_same_set(clause, own),
    }
}

// Whether each has all literals of the other. Mostly they are the same list.
fn is_same_set(clause: &[Lit], own: &[Lit]) -> bool
    ensures { result ≡ same_set clause.now own.now }
{
    clause == own || has_all(own, clause) && has_all(clause, own)
}

// Whether all of these literals are among the others.
fn has_all(others: &[Lit], literals: &[Lit]) -> bool
    ensures { result ≡ list_all (literals_of others.now) literals.now }
{
    literals.iter().all(|literal| is_among(others, *literal))
}

fn lesser(least: Option<u32>, number: u32) -> Option<u32>
    ensures { result ≡ lesser least number }
{
    match least {
        None => Some(number),
        Some(least) => Some(least.min(number)),
    }
}
