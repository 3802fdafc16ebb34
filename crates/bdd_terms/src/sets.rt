// The variables of a set in the order of the levels, each once.
ghost use Rattle.std.specs.Prelude.{◌≡◌, ◌<◌, ◌^◌, ℕ, IfOk, IsPermutation, length, map, reverse};
ghost use Rattle.std.specs.List.Sorted.{IsNonDecreasingBy};
ghost use Rattle.node_table.specs.Diagram.{variable_at};
ghost use Rattle.quantify.specs.SomeValues.{AreLevels};
ghost use Rattle.bdd_terms.specs.Sets.{AreLevelsOf, AreOnce, AreSetLevels};

use cnf_base::OutOfMemory;
use host_io::Sink;
use node_table::Table;
use std::alloc::Global;

/// The levels of these variables, each once, from the first to the last.
pub fn levels_of<S: Sink + Drop>(
    alloc: Global,
    table: &Table<S>,
    set: &[u32],
) -> Result<Vec<u32>, OutOfMemory>
    ensures { IfOk result (λ found. AreSetLevels table.now.graph set.now found.items) }
{
    table.table_law();
    let mut found = found_levels(alloc, table, set)?;
    sort(&mut found);
    each_once(alloc, found.as_slice())
}

// The levels of these variables, as they come.
fn found_levels<S: Sink + Drop>(
    alloc: Global,
    table: &Table<S>,
    set: &[u32],
) -> Result<Vec<u32>, OutOfMemory>
    ensures { IfOk result (λ found. AreLevelsOf table.now.graph set.now found.items) }
{
    table.table_law();
    let mut found = Vec::new(alloc);
    'variables: for variable in set {
        if let Some(level) = table.level(*variable) {
            found.push(level)?;
        }
    }
    Ok(found)
}

fn sort(found: &mut Vec<u32>)
    ensures permutation { IsPermutation found.old.items found.new.items }
    ensures sorted { IsNonDecreasingBy (λ (level : ℕ). level) found.new.items }
{
    found.sort_unstable_by_key(|level| *level);
}

// The numbers of a sorted list, each once.
fn each_once(alloc: Global, sorted: &[u32]) -> Result<Vec<u32>, OutOfMemory>
    requires { IsNonDecreasingBy (λ (level : ℕ). level) sorted.now }
    ensures { IfOk result (λ once. AreOnce sorted.now once.items) }
{
    let mut once = Vec::new(alloc);
    'places: for place in 0..sorted.len() {
        if place > 0 && sorted[place - 1] == sorted[place] {
            continue;
        }
        once.push(sorted[place])?;
    }
    Ok(once)
}

/// The variables of rising levels, from the last to the first.
pub fn falling_of<S: Sink + Drop>(
    alloc: Global,
    table: &Table<S>,
    set: &[u32],
) -> Result<Vec<u32>, OutOfMemory>
    requires { AreLevels table.now.graph set.now }
    ensures falls { IfOk result (λ variables. variables.items ≡ map (variable_at table.now.graph) (reverse set.now)) }
    ensures few { IfOk result (λ variables. length variables.items < 2 ^ 32) }
{
    let order = table.order();
    let mut variables = Vec::new(alloc);
    'places: for place in 0..set.len() {
        variables.push(order[set[set.len() - 1 - place] as usize])?;
    }
    Ok(variables)
}
