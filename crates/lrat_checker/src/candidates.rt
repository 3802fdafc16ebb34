// The candidates of an addition: the live clauses with the pivot's negation. Each has to be blocked or to have a group.
ghost use Rattle.std.specs.Prelude.{◌≡◌, ◌||◌, ◌==◌};
ghost use Rattle.std.specs.List.{list_all};
ghost use Rattle.std.specs.Option.{option_copied};
ghost use Rattle.lrat_rules.specs.State.{clause_at};
ghost use Rattle.lrat_rules.specs.Addition.{holds_negated};
ghost use Rattle.lrat_rules.specs.FalseLiterals.{set_of, before_of};
ghost use Rattle.lrat_checker.specs.Walk.{settles, settles_at, has_group, IsCountOfNumbers};

use crate::clauses::Clauses;
use cnf_base::{Group, Id, Lit};
use lrat_rules::{Chain, is_among};

/// How many numbers the groups name, counting those that are greater than all before, so none twice.
pub fn named_numbers(groups: &[Group]) -> usize
    ensures { IsCountOfNumbers groups.now result }
{
    let mut last = 0u64;
    let mut named = 0usize;
    for group in groups {
        let number = group.id.get();
        if last < number {
            last = number;
            named += 1;
        }
    }
    named
}

/// Whether a clause holds the pivot's negation.
#[inline(always)]
pub fn holds_negated(clause: &[Lit], pivot: Lit) -> bool
    ensures { result ≡ holds_negated pivot clause.now }
{
    is_among(clause, pivot.negated())
}

/// Whether each of these numbers is of no live clause or of one that settles.
pub fn each_settled(
    clauses: &Clauses,
    chain: &Chain,
    pivot: Lit,
    groups: &[Group],
    numbers: &[u64],
) -> bool
    requires { before_of chain.now ≡ None }
    ensures { result ≡ list_all (λ number. settles_at (set_of chain.now) pivot groups.now number
        (clause_at clauses.now number)) numbers.now }
{
    numbers.iter().all(|number| settles_number(clauses, chain, pivot, groups, *number))
}

fn settles_number(
    clauses: &Clauses,
    chain: &Chain,
    pivot: Lit,
    groups: &[Group],
    number: u64,
) -> bool
    requires { before_of chain.now ≡ None }
    ensures { result ≡ settles_at (set_of chain.now) pivot groups.now number (clause_at clauses.now number) }
{
    settles_place(chain, pivot, groups, number, clauses.get(Id(number)))
}

/// A place under which no clause stands, or one that settles.
pub fn settles_place(
    chain: &Chain,
    pivot: Lit,
    groups: &[Group],
    number: u64,
    clause: Option<&[Lit]>,
) -> bool
    requires { before_of chain.now ≡ None }
    ensures { result ≡ settles_at (set_of chain.now) pivot groups.now number (option_copied clause.entry) }
{
    match clause {
        None => true,
        Some(clause) => settles_clause(chain, pivot, groups, number, clause),
    }
}

/// No candidate, or one that is blocked or has a group.
pub fn settles_clause(
    chain: &Chain,
    pivot: Lit,
    groups: &[Group],
    number: u64,
    clause: &[Lit],
) -> bool
    requires { before_of chain.now ≡ None }
    ensures { result ≡ settles (set_of chain.now) pivot groups.now number clause.now }
{
    !holds_negated(clause, pivot) || chain.is_blocked(clause, pivot) || has_group(groups, number)
}

fn has_group(groups: &[Group], id: u64) -> bool
    ensures { result ≡ has_group groups.now id }
{
    groups.iter().any(|group| group.id.get() == id)
}
