// Where the variables occur: each literal's clause with the place of its variable in the order, by rising place.
ghost use Rattle.std.specs.Prelude.{◌≡◌, ◌+◌, ◌≤◌, ◌++◌, length, map, nat_abs, nat_lt, IfOk, OnOk, IsPermutation, IsTrue};
ghost use Rattle.std.specs.List.{list_all};
ghost use Rattle.std.specs.List.Sorted.{IsNonDecreasingBy};
ghost use Rattle.cnf_base.specs.Order.{IsOrder};
ghost use Rattle.cnf_base.specs.Limits.{max_vars};
ghost use Rattle.schedule_plan.specs.Forest.{ArePlaces, AreOccurrences, occurrence_of, occurrences_of};
ghost use Rattle.schedule_plan.specs.declared.occurrence.Occurrence.{Occurrence as OccurrenceValue};

use crate::order::Order;
use cnf_base::{Cnf, Lit, OutOfMemory};
use std::alloc::Global;

/// A clause, by its number from 0, that holds the variable of a place.
#[derive(Clone, Copy, Drop)]
pub(crate) struct Occurrence {
    pub(crate) place: u32,
    pub(crate) clause: u32,
}

/// All occurrences, by rising place.
pub(crate) fn occurrences(
    alloc: Global,
    formula: &Cnf,
    order: &Order,
) -> Result<Vec<Occurrence>, OutOfMemory>
    requires { length order.now ≡ formula.now.vars }
    ensures { IfOk result (λ occurrences. AreOccurrences formula.now order.now occurrences.items) }
{
    formula.formula_law();
    let places = places(alloc, order.as_slice())?;
    let mut occurrences = gathered(alloc, formula, places.as_slice())?;
    sort_by_place(&mut occurrences);
    Ok(occurrences)
}

// The place of each variable, by its number.
fn places(alloc: Global, order: &[u32]) -> Result<Vec<u32>, OutOfMemory>
    requires order { IsOrder order.now }
    requires few { length order.now ≤ max_vars }
    ensures { IfOk result (λ places. ArePlaces order.now places.items) }
{
    let mut places = vec![in alloc; 0; order.len() + 1]?;
    for (place, variable) in order.iter().enumerate() {
        places[*variable as usize] = place as u32;
    }
    Ok(places)
}

// The occurrences, clause by clause.
fn gathered(alloc: Global, formula: &Cnf, places: &[u32]) -> Result<Vec<Occurrence>, OutOfMemory>
    requires { length places.now ≡ formula.now.vars + 1 }
    ensures { IfOk result (λ occurrences. occurrences.items ≡ occurrences_of places.now formula.now (length formula.now.clauses)) }
{
    formula.formula_law();
    let mut occurrences = Vec::new(alloc);
    for clause in 0..formula.len() {
        add_clause(
            &mut occurrences,
            places,
            clause as u32,
            formula.clause(clause + 1),
        )?;
    }
    Ok(occurrences)
}

fn add_clause(
    occurrences: &mut Vec<Occurrence>,
    places: &[u32],
    clause: u32,
    literals: &[Lit],
) -> Result<(), OutOfMemory>
    requires { IsTrue (list_all (λ literal. nat_lt (nat_abs literal) (length places.now)) literals.now) }
    ensures { OnOk result (occurrences.new.items ≡ occurrences.old.items ++ map (occurrence_of places.now clause) literals.now) }
{
    'literals: for literal in literals {
        let place = places[literal.var() as usize];
        occurrences.push(Occurrence { place, clause })?;
    }
    Ok(())
}

fn sort_by_place(occurrences: &mut Vec<Occurrence>)
    ensures permutation { IsPermutation occurrences.old.items occurrences.new.items }
    ensures sorted { IsNonDecreasingBy (λ (one : OccurrenceValue). one.place) occurrences.new.items }
{
    occurrences.sort_unstable_by_key(|one| one.place);
}
