// Maximum cardinality search, read from its end: next comes a variable with the most chosen neighbours, among equals the one that
// gained last. (Tarjan, Yannakakis: Simple Linear-Time Algorithms to Test Chordality of Graphs, Test Acyclicity of Hypergraphs, and
// Selectively Reduce Acyclic Hypergraphs, 1984.) In long edges neighbours aren't counted: the first chosen vertex of such an edge
// adds one to the others, so that the work stays within a bound.
ghost use Rattle.std.specs.Prelude.{◌≡◌, length, IfOk};

use crate::completed::completed;
use crate::hypergraph::Hypergraph;
use crate::lists::Lists;
use crate::stamps::stamp;
use cnf_base::OutOfMemory;
use schedule_plan::Order;
use std::alloc::Global;

/// The variables by maximum cardinality search, read from its end.
pub fn by_cardinality(alloc: Global, graph: &Hypergraph) -> Result<Order, OutOfMemory>
    ensures { IfOk result (λ order. length order ≡ graph.now.vars) }
{
    let mut sequence = chosen(alloc, graph)?;
    sequence.reverse();
    completed(alloc, graph.vars() as u32, &sequence)
}

// No edge above this length is counted pair by pair.
const LONGEST: usize = 1000;

// The squares of the lengths of edges that are counted pair by pair sum to at most this and four times the formula's size.
const PAIRS: u64 = 200_000_000;

// The vertices in the order in which they are chosen.
fn chosen(alloc: Global, graph: &Hypergraph) -> Result<Vec<u32>, OutOfMemory> {
    let mut search = Search::new(alloc, graph)?;
    let mut chosen = Vec::with_capacity(alloc, graph.vars())?;
    for _choice in 0..graph.vars() {
        let Some(vertex) = search.heaviest() else {
            break;
        };
        chosen.push(vertex)?;
        search.choose(graph, vertex);
    }
    Ok(chosen)
}

// The length up to which edges are counted pair by pair.
fn longest_counted(alloc: Global, graph: &Hypergraph) -> Result<usize, OutOfMemory> {
    let squares = squares(alloc, graph)?;
    let most = graph.size().saturating_mul(4).saturating_add(PAIRS);
    let mut longest = 0;
    let mut sum = 0u64;
    for (length, square) in squares.iter().enumerate() {
        sum = sum.saturating_add(*square);
        if sum > most {
            break;
        }
        longest = length;
    }
    Ok(longest)
}

// For each length the sum of the squares of the lengths of the edges that have it.
fn squares(alloc: Global, graph: &Hypergraph) -> Result<Vec<u64>, OutOfMemory> {
    let mut squares: Vec<u64> = vec![in alloc; 0; LONGEST + 1]?;
    for edge in 0..graph.edges() {
        let length = graph.edge(edge).len();
        if length < squares.len() {
            let square = (length as u64).saturating_mul(length as u64);
            squares[length] = squares[length].saturating_add(square);
        }
    }
    Ok(squares)
}

// The vertices that aren't chosen, in lists by their weight, newest first.
#[derive(Drop)]
struct Search {
    weights: Lists,
    top: u32,
    most: u32,
    longest: usize,
    touched: Vec<u32>,
    counted: Vec<u32>,
}

impl Search {
    // All vertices have no weight yet, and stand by levels.
    fn new(alloc: Global, graph: &Hypergraph) -> Result<Search, OutOfMemory> {
        let vars = graph.vars() as u32;
        let mut weights = Lists::new(alloc, graph.vars(), graph.vars() + 1)?;
        for vertex in graph.levels() {
            weights.put_last(*vertex, 0);
        }
        Ok(Search {
            weights,
            top: 0,
            most: vars,
            longest: longest_counted(alloc, graph)?,
            touched: vec![in alloc; 0; graph.edges()]?,
            counted: vec![in alloc; vars; graph.vars()]?,
        })
    }

    // A vertex of the most weight, of which none has more than the top.
    fn heaviest(&mut self) -> Option<u32> {
        while self.top > 0 && self.weights.first(self.top).is_none() {
            self.top -= 1;
        }
        self.weights.first(self.top)
    }

    // Takes a vertex out, and adds to the weight of its neighbours.
    fn choose(&mut self, graph: &Hypergraph, vertex: u32) {
        self.weights.take(vertex);
        for edge in graph.holders(vertex as usize) {
            let vertices = graph.edge(*edge as usize);
            if vertices.len() <= self.longest {
                self.count(vertices, vertex);
            } else if stamp(&mut self.touched, *edge, 1) {
                self.touch(vertices);
            }
        }
    }

    // Adds one to the weight of each vertex that isn't chosen, unless it was counted for this choice.
    fn count(&mut self, vertices: &[u32], choice: u32) {
        for vertex in vertices {
            if self.weights.key(*vertex).is_some() && stamp(&mut self.counted, *vertex, choice) {
                self.gain(*vertex);
            }
        }
    }

    // Adds one to the weight of each vertex that isn't chosen.
    fn touch(&mut self, vertices: &[u32]) {
        for vertex in vertices {
            self.gain(*vertex);
        }
    }

    // Adds one to the weight of a vertex that isn't chosen.
    fn gain(&mut self, vertex: u32) {
        if let Some(weight) = self.weights.key(vertex) {
            let weight = weight.saturating_add(1).min(self.most);
            self.weights.put_first(vertex, weight);
            self.top = self.top.max(weight);
        }
    }
}
