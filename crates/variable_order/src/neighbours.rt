// How many neighbours a vertex has: the others that share an edge with it.

use crate::hypergraph::Hypergraph;
use crate::stamps::stamp;
use cnf_base::OutOfMemory;
use std::alloc::Global;

// Edges of more vertices count by their length once the budget is spent.
const LONG: u64 = 100;

// How often the formula's size may be spent on long edges.
const ROUNDS: u64 = 20;

/// The number of neighbours of each vertex, which is exact where its long edges were within the budget.
pub(crate) fn degrees(alloc: Global, graph: &Hypergraph) -> Result<Vec<u32>, OutOfMemory> {
    let vars = graph.vars() as u32;
    let mut degrees = Vec::with_capacity(alloc, graph.vars())?;
    let mut stamps = vec![in alloc; vars; graph.vars()]?;
    let mut budget = ROUNDS.saturating_mul(graph.size());
    for vertex in 0..vars {
        let degree = degree(graph, vertex, &mut stamps, &mut budget);
        degrees.push(degree.min(vars))?;
    }
    Ok(degrees)
}

// The neighbours of one vertex, or where the budget for long edges is spent at most the sum of their lengths more.
fn degree(graph: &Hypergraph, vertex: u32, stamps: &mut [u32], budget: &mut u64) -> u32 {
    let mut degree = 0u32;
    for edge in graph.holders(vertex as usize) {
        let edge = graph.edge(*edge as usize);
        if affords(budget, edge.len() as u64) {
            degree = degree.saturating_add(newly_stamped(edge, vertex, stamps));
        } else {
            let others = edge.len().saturating_sub(1);
            degree = degree.saturating_add(others.min(u32::MAX as usize) as u32);
        }
    }
    degree
}

// Whether an edge of this length is read: a short one always, a long one out of the budget.
fn affords(budget: &mut u64, length: u64) -> bool {
    if length <= LONG {
        return true;
    }
    if length > *budget {
        return false;
    }
    *budget -= length;
    true
}

// How many vertices of an edge, other than this one, weren't counted for it yet.
fn newly_stamped(edge: &[u32], vertex: u32, stamps: &mut [u32]) -> u32 {
    let mut count = 0u32;
    for other in edge {
        if *other != vertex && stamp(stamps, *other, vertex) {
            count = count.saturating_add(1);
        }
    }
    count
}
