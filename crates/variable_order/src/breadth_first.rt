// Breadth-first search through the edges: the vertices of a component by their distance from the first, in levels. Each edge is
// opened once, by the first of its vertices that is reached, and what it shows follows by rising degree. (Cuthill, McKee: Reducing
// the Bandwidth of Sparse Symmetric Matrices, 1969.)

use crate::hypergraph::Hypergraph;
use crate::stamps::stamp;
use cnf_base::OutOfMemory;
use std::alloc::Global;

/// How many levels there are below the first, and where the last one begins in the queue.
#[derive(Clone, Copy, Drop)]
pub(crate) struct Depth {
    pub(crate) height: u32,
    pub(crate) last: usize,
}

/// Searches, one after another, which share their memory.
#[derive(Drop)]
pub(crate) struct Search {
    turn: u32,
    reached: Vec<u32>,
    opened: Vec<u32>,
    found: Vec<Found>,
}

// A vertex that the search has found, by its degree, and among equals as it came.
#[derive(Clone, Copy, Drop)]
struct Found {
    degree: u32,
    count: usize,
    vertex: u32,
}

impl Search {
    pub(crate) fn new(alloc: Global, graph: &Hypergraph) -> Result<Search, OutOfMemory> {
        Ok(Search {
            turn: 0,
            reached: vec![in alloc; 0; graph.vars()]?,
            opened: vec![in alloc; 0; graph.edges()]?,
            found: Vec::new(alloc),
        })
    }

    /// Fills the queue with the component of a vertex, level by level.
    pub(crate) fn fill(
        &mut self,
        graph: &Hypergraph,
        start: u32,
        queue: &mut Vec<u32>,
    ) -> Result<Depth, OutOfMemory> {
        self.turn = self.turn.saturating_add(1);
        let _is_new = stamp(&mut self.reached, start, self.turn);
        queue.clear();
        queue.push(start)?;
        let mut depth = Depth { height: 0, last: 0 };
        let mut end = 1;
        for place in 0..graph.vars() {
            if place >= queue.len() {
                break;
            }
            if place == end {
                depth = Depth {
                    height: depth.height.saturating_add(1),
                    last: place,
                };
                end = queue.len();
            }
            let vertex = queue[place];
            self.reach(graph, vertex, queue)?;
        }
        Ok(depth)
    }

    // Puts the neighbours of a vertex that weren't reached yet at the end of the queue, by rising degree.
    fn reach(
        &mut self,
        graph: &Hypergraph,
        vertex: u32,
        queue: &mut Vec<u32>,
    ) -> Result<(), OutOfMemory> {
        self.found.clear();
        for edge in graph.holders(vertex as usize) {
            if stamp(&mut self.opened, *edge, self.turn) {
                self.open(graph, *edge)?;
            }
        }
        self.found
            .sort_unstable_by_key(|found| (found.degree, found.count));
        for found in self.found.as_slice() {
            queue.push(found.vertex)?;
        }
        Ok(())
    }

    // Finds the vertices of an edge that weren't reached yet.
    fn open(&mut self, graph: &Hypergraph, edge: u32) -> Result<(), OutOfMemory> {
        for vertex in graph.edge(edge as usize) {
            if stamp(&mut self.reached, *vertex, self.turn) {
                self.found.push(Found {
                    degree: graph.degree(*vertex as usize),
                    count: self.found.len(),
                    vertex: *vertex,
                })?;
            }
        }
        Ok(())
    }
}
