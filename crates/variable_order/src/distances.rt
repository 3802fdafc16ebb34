// How far each vertex is from the end of its component. In the sequence of levels each component is one run, which its end closes.

use crate::hypergraph::Hypergraph;
use crate::stamps::stamp;
use cnf_base::OutOfMemory;
use std::alloc::Global;

/// The first vertex of each component in the sequence of levels, and the last.
#[derive(Drop)]
pub(crate) struct Ends {
    pub(crate) first: Vec<u32>,
    pub(crate) last: Vec<u32>,
}

/// The ends of all components. A run is closed where all vertices that its edges show have come.
pub(crate) fn component_ends(alloc: Global, graph: &Hypergraph) -> Result<Ends, OutOfMemory> {
    let mut first = Vec::new(alloc);
    let mut last = Vec::new(alloc);
    let mut reach = Reach::new(alloc, graph)?;
    let mut shown = 0usize;
    for (place, vertex) in graph.levels().iter().enumerate() {
        if shown <= place {
            first.push(*vertex)?;
            shown = shown.saturating_add(reach.start(*vertex));
        }
        shown = shown.saturating_add(reach.show(graph, *vertex));
        if shown <= place + 1 {
            last.push(*vertex)?;
        }
    }
    Ok(Ends { first, last })
}

// Which edges were opened, and which vertices they showed.
#[derive(Drop)]
struct Reach {
    opened: Vec<u32>,
    shown: Vec<u32>,
}

impl Reach {
    fn new(alloc: Global, graph: &Hypergraph) -> Result<Reach, OutOfMemory> {
        Ok(Reach {
            opened: vec![in alloc; 0; graph.edges()]?,
            shown: vec![in alloc; 0; graph.vars()]?,
        })
    }

    // Shows a vertex without an edge. How many are new, 0 or 1.
    fn start(&mut self, vertex: u32) -> usize {
        usize::from(stamp(&mut self.shown, vertex, 1))
    }

    // Opens the edges of a vertex. How many vertices they show that weren't shown before.
    fn show(&mut self, graph: &Hypergraph, vertex: u32) -> usize {
        let mut new = 0usize;
        for edge in graph.holders(vertex as usize) {
            if stamp(&mut self.opened, *edge, 1) {
                new = new.saturating_add(self.show_all(graph.edge(*edge as usize)));
            }
        }
        new
    }

    fn show_all(&mut self, vertices: &[u32]) -> usize {
        let mut new = 0usize;
        for vertex in vertices {
            new = new.saturating_add(self.start(*vertex));
        }
        new
    }
}

/// The distance of each vertex to the last one of its component.
pub(crate) fn distances(
    alloc: Global,
    graph: &Hypergraph,
    last: &[u32],
) -> Result<Vec<u32>, OutOfMemory> {
    let mut levels = Levels::new(alloc, graph, last)?;
    for place in 0..graph.vars() {
        let Some(vertex) = levels.queue.get(place).copied() else {
            break;
        };
        levels.reach(graph, vertex)?;
    }
    Ok(levels.distances)
}

// A search from all ends at once.
#[derive(Drop)]
struct Levels {
    queue: Vec<u32>,
    opened: Vec<u32>,
    reached: Vec<u32>,
    distances: Vec<u32>,
}

impl Levels {
    fn new(alloc: Global, graph: &Hypergraph, last: &[u32]) -> Result<Levels, OutOfMemory> {
        let mut reached = vec![in alloc; 0; graph.vars()]?;
        for vertex in last {
            let _is_new = stamp(&mut reached, *vertex, 1);
        }
        Ok(Levels {
            queue: Vec::from_slice(alloc, last)?,
            opened: vec![in alloc; 0; graph.edges()]?,
            reached,
            distances: vec![in alloc; 0; graph.vars()]?,
        })
    }

    fn distance(&self, vertex: u32) -> u32 {
        self.distances.get(vertex as usize).copied().unwrap_or(0)
    }

    // The vertices that share an edge with this one, and weren't reached yet, are one further.
    fn reach(&mut self, graph: &Hypergraph, vertex: u32) -> Result<(), OutOfMemory> {
        let distance = self.distance(vertex).saturating_add(1);
        for edge in graph.holders(vertex as usize) {
            if stamp(&mut self.opened, *edge, 1) {
                self.put_all(graph.edge(*edge as usize), distance)?;
            }
        }
        Ok(())
    }

    fn put_all(&mut self, vertices: &[u32], distance: u32) -> Result<(), OutOfMemory> {
        for vertex in vertices {
            if stamp(&mut self.reached, *vertex, 1) {
                self.queue.push(*vertex)?;
                if let Some(place) = self.distances.get_mut(*vertex as usize) {
                    *place = distance;
                }
            }
        }
        Ok(())
    }
}
