// A clause's literals in the order of the variables. Both signs of one variable are found there as neighbours, before any node is
// made, so that a tautology meets no limit; repetitions are skipped on the way up.
ghost use Rattle.std.specs.Prelude.{◌≡◌, ◌<◌, IfOk, IsPermutation, IsTrue, map, true, false};
ghost use Rattle.std.specs.List.{list_all, list_any};
ghost use Rattle.std.specs.List.Sorted.{IsNonDecreasingBy};
ghost use Rattle.cnf_base.specs.Truth.{is_literal_of};
ghost use Rattle.node_table.specs.Diagram.{levels};
ghost use Rattle.node_table.specs.Value.{Levels};
ghost use Rattle.clause_terms.specs.declared.placed.Placed.{Placed as PlacedValue};
ghost use Rattle.clause_terms.specs.Placed.{literal_at, placed_holds, are_of_levels, HasNoOpposites, AreInOrder, are_opposites};

use crate::placed::Placed;
use cnf_base::{Lit, OutOfMemory};
use host_io::Sink;
use node_table::Table;
use std::alloc::Global;

/// The literals by their levels, the top one first.
pub fn in_order<S: Sink + Drop>(
    alloc: Global,
    table: &Table<S>,
    clause: &[Lit],
) -> Result<Vec<Placed>, OutOfMemory>
    requires variables { IsTrue (list_all (is_literal_of (levels table.now.graph)) clause.now) }
    ensures { IfOk result (λ placed. AreInOrder table.now.graph clause.now placed.items) }
{
    let mut placed = places(alloc, table, clause)?;
    sort_by_level(&mut placed);
    Ok(placed)
}

// The literals by their levels, as they stand.
fn places<S: Sink + Drop>(
    alloc: Global,
    table: &Table<S>,
    clause: &[Lit],
) -> Result<Vec<Placed>, OutOfMemory>
    requires variables { IsTrue (list_all (is_literal_of (levels table.now.graph)) clause.now) }
    ensures literals { IfOk result (λ placed. map (literal_at table.now.graph) placed.items ≡ clause.now) }
    ensures levels { IfOk result (λ placed. IsTrue (are_of_levels table.now.graph placed.items)) }
{
    let mut placed = Vec::new(alloc);
    'literals: for literal in clause {
        placed.push(place(table, *literal))?;
    }
    Ok(placed)
}

// A literal by the level of its variable.
fn place<S: Sink + Drop>(table: &Table<S>, literal: Lit) -> Placed
    requires variable { IsTrue (is_literal_of (levels table.now.graph) literal) }
    ensures literal { literal_at table.now.graph result ≡ literal }
    ensures level { result.level < levels table.now.graph }
{
    table.table_law();
    let negative = literal.is_negative();
    match table.level(literal.var()) {
        Some(level) => Placed { level, negative },
        None => Placed { level: 0, negative },
    }
}

fn sort_by_level(placed: &mut Vec<Placed>)
    ensures permutation { IsPermutation placed.old.items placed.new.items }
    ensures sorted { IsNonDecreasingBy (λ (p : PlacedValue). p.level) placed.new.items }
{
    placed.sort_unstable_by_key(|p| p.level);
}

/// Whether both signs of a variable are among literals that are sorted by levels.
pub fn has_opposites(placed: &[Placed]) -> bool
    ensures none { result ≡ false → HasNoOpposites placed.now }
    ensures holds { IsTrue result → (a : Levels) → list_any (placed_holds a) placed.now ≡ true }
{
    'neighbours: for i in 1..placed.len() {
        if are_opposites(&placed[i - 1], &placed[i]) {
            return true;
        }
    }
    false
}

fn are_opposites(one: &Placed, other: &Placed) -> bool
    ensures { result ≡ are_opposites one.now other.now }
{
    one.level == other.level && one.negative != other.negative
}
