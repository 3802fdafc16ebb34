// The order for a small profile: next comes, of the vertices beside the chosen ones, one that is far from the end of its component and
// has few neighbours that aren't met yet. (Sloan: An Algorithm for Profile and Wavefront Reduction of Sparse Matrices, 1986.) Its
// priority is its distance to the end less twice the number of itself and its neighbours, and 2 more for each of its edges that was
// opened. An edge stands for all pairs of its vertices, and is opened by the first of them that is chosen.
ghost use Rattle.std.specs.Prelude.{◌≡◌, length, IfOk};

use crate::completed::completed;
use crate::distances::{component_ends, distances};
use crate::heap::Heap;
use crate::hypergraph::Hypergraph;
use crate::stamps::stamp;
use cnf_base::OutOfMemory;
use schedule_plan::Order;
use std::alloc::Global;

/// The variables as they are chosen for a small profile.
pub fn by_profile(alloc: Global, graph: &Hypergraph) -> Result<Order, OutOfMemory>
    ensures { IfOk result (λ order. length order ≡ graph.now.vars) }
{
    let ends = component_ends(alloc, graph)?;
    let priorities = priorities(alloc, graph, &ends.last)?;
    let mut numbering = Numbering::of(alloc, graph, &priorities)?;
    for first in ends.first.iter() {
        numbering.number(graph, *first)?;
    }
    completed(alloc, graph.vars() as u32, &numbering.sequence)
}

// What an opened edge adds to the priority of each of its vertices.
const GAIN: u32 = 2;

// The priorities at first: the distance to the end less twice the degree, with the same added to all so that none is negative.
fn priorities(alloc: Global, graph: &Hypergraph, last: &[u32]) -> Result<Vec<u32>, OutOfMemory> {
    let mut priorities = distances(alloc, graph, last)?;
    let most = graph.vars() as u32;
    for (vertex, priority) in priorities.iter_mut().enumerate() {
        let apart = most.saturating_sub(graph.degree(vertex));
        *priority = priority.saturating_add(apart.saturating_mul(2));
    }
    Ok(priorities)
}

// The vertices that are chosen, and those that wait.
#[derive(Drop)]
struct Numbering {
    waiting: Heap,
    opened: Vec<u32>,
    sequence: Vec<u32>,
}

impl Numbering {
    fn of(alloc: Global, graph: &Hypergraph, priorities: &[u32]) -> Result<Numbering, OutOfMemory> {
        Ok(Numbering {
            waiting: Heap::of(alloc, priorities)?,
            opened: vec![in alloc; 0; graph.edges()]?,
            sequence: Vec::with_capacity(alloc, graph.vars())?,
        })
    }

    // Chooses the component of its first vertex.
    fn number(&mut self, graph: &Hypergraph, first: u32) -> Result<(), OutOfMemory> {
        self.waiting.raise(first, 0)?;
        for _choice in 0..graph.vars() {
            let Some(vertex) = self.waiting.pop() else {
                break;
            };
            self.sequence.push(vertex)?;
            self.open_all(graph, vertex)?;
        }
        Ok(())
    }

    // Opens the edges of a vertex.
    fn open_all(&mut self, graph: &Hypergraph, vertex: u32) -> Result<(), OutOfMemory> {
        for edge in graph.holders(vertex as usize) {
            if stamp(&mut self.opened, *edge, 1) {
                self.open(graph.edge(*edge as usize))?;
            }
        }
        Ok(())
    }

    fn open(&mut self, vertices: &[u32]) -> Result<(), OutOfMemory> {
        for vertex in vertices {
            self.waiting.raise(*vertex, GAIN)?;
        }
        Ok(())
    }
}
