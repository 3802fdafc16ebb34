// The edges of a formula's hypergraph: for each clause of two or more different variables the set of these, each set once. Equal sets are
// found by sorting hashes; a clause of k variables is never written out as its pairs.

use crate::rows::Rows;
use cnf_base::{Cnf, Lit, OutOfMemory};
use std::alloc::Global;

/// The edges, in the order of the clauses. A row is a set of vertices by rising number; the vertex of a variable is one less than its
/// number.
pub(crate) fn edges(alloc: Global, formula: &Cnf) -> Result<Rows, OutOfMemory> {
    let sets = sets(alloc, formula)?;
    let repeated = repeated(alloc, &sets)?;
    if repeated.iter().any(|mark| *mark) {
        without(alloc, &sets, &repeated)
    } else {
        Ok(sets)
    }
}

// The sets of all clauses of two or more different variables.
fn sets(alloc: Global, formula: &Cnf) -> Result<Rows, OutOfMemory> {
    let mut sets = Rows::new(alloc);
    let mut set = Vec::new(alloc);
    for clause in 0..formula.len() {
        fill(&mut set, formula.clause(clause + 1))?;
        if set.len() > 1 {
            sets.push_row(&set)?;
        }
    }
    Ok(sets)
}

// The vertices of a clause, each once, by rising number.
fn fill(set: &mut Vec<u32>, clause: &[Lit]) -> Result<(), OutOfMemory> {
    set.clear();
    for literal in clause {
        set.push(literal.var() - 1)?;
    }
    set.sort_unstable();
    set.dedup();
    Ok(())
}

// A set's hash and its place.
#[derive(Clone, Copy, Drop)]
struct Fingerprint {
    hash: u64,
    place: u32,
}

// For each set whether it is one of those before it. Sets of one hash are compared with the first of them alone: two different sets of
// one hash are so rare that a repetition may stay behind them.
fn repeated(alloc: Global, sets: &Rows) -> Result<Vec<bool>, OutOfMemory> {
    let mut repeated = vec![in alloc; false; sets.len()]?;
    let prints = fingerprints(alloc, sets)?;
    let mut first = 0;
    let mut hash = 0;
    for (i, print) in prints.iter().enumerate() {
        if i == 0 || print.hash != hash {
            first = print.place as usize;
            hash = print.hash;
        } else {
            let place = print.place as usize;
            if place < repeated.len() && sets.row(place) == sets.row(first) {
                repeated[place] = true;
            }
        }
    }
    Ok(repeated)
}

// The fingerprints of all sets, by rising hash and place.
fn fingerprints(alloc: Global, sets: &Rows) -> Result<Vec<Fingerprint>, OutOfMemory> {
    let mut prints = Vec::with_capacity(alloc, sets.len())?;
    let mut place = 0u32;
    for i in 0..sets.len() {
        let hash = hash_of(sets.row(i));
        prints.push(Fingerprint { hash, place })?;
        place = place.saturating_add(1);
    }
    prints.sort_unstable_by_key(|print| (print.hash, print.place));
    Ok(prints)
}

// Multiplication by the golden ratio. (Knuth: The Art of Computer Programming, volume 3, 1973, section 6.4.)
const GOLDEN: u64 = 0x9e37_79b9_7f4a_7c15;

fn hash_of(set: &[u32]) -> u64 {
    let mut hash = set.len() as u64;
    for vertex in set {
        hash = (hash.rotate_left(5) ^ u64::from(*vertex)).wrapping_mul(GOLDEN);
    }
    hash
}

// The rows that aren't marked.
fn without(alloc: Global, sets: &Rows, marks: &[bool]) -> Result<Rows, OutOfMemory> {
    let mut edges = Rows::new(alloc);
    for (place, mark) in marks.iter().enumerate() {
        if !*mark {
            edges.push_row(sets.row(place))?;
        }
    }
    Ok(edges)
}
