// The elements of the quotient graph: sets of vertices of which each two are neighbours. They are the edges of the hypergraph at first,
// which stay where they are, and then what each pivot leaves, of which each owns its list. An element that lies inside another is
// absorbed: it is dead from then on, and its list is freed. (Amestoy, Davis, Duff: An Approximate Minimum Degree Ordering Algorithm,
// 1996.)

use crate::hypergraph::Hypergraph;
use cnf_base::OutOfMemory;
use std::alloc::Global;

// How many vertices an element has, none if it is dead, and how many of them lie outside of the element that arose under this stamp.
#[derive(Clone, Copy, Drop)]
struct Element {
    size: u32,
    outside: u32,
    stamp: u32,
}

impl Element {
    // Some vertices of it lie inside the new element.
    fn leave(&mut self, weight: u32, stamp: u32) {
        if self.stamp != stamp {
            self.stamp = stamp;
            self.outside = self.size;
        }
        self.outside = self.outside.saturating_sub(weight);
    }
}

/// The elements, the edges first.
#[derive(Drop)]
pub(crate) struct Elements {
    alloc: Global,
    edges: usize,
    elements: Vec<Element>,
    lists: Vec<Vec<u32>>,
}

impl Elements {
    /// The edges alone.
    pub(crate) fn of(alloc: Global, graph: &Hypergraph) -> Result<Self, OutOfMemory> {
        let most = graph.edges().saturating_add(graph.vars());
        let mut elements = Vec::with_capacity(alloc, most)?;
        for i in 0..graph.edges() {
            elements.push(Element {
                size: size_of_list(graph.edge(i)),
                outside: 0,
                stamp: 0,
            })?;
        }
        Ok(Elements {
            alloc,
            edges: graph.edges(),
            elements,
            lists: Vec::new(alloc),
        })
    }

    /// The number of the next element to come.
    pub(crate) fn next(&self) -> u32 {
        u32::try_from(self.elements.len()).unwrap_or(u32::MAX)
    }

    /// The vertices of an element, with those that were merged or eliminated since it arose; none of a dead one.
    pub(crate) fn members<'a>(&'a self, graph: &'a Hypergraph, element: u32) -> &'a [u32] {
        let place = element as usize;
        if !self.is_alive(element) {
            &[]
        } else if place < self.edges {
            graph.edge(place)
        } else {
            match self.lists.get(place - self.edges) {
                Some(list) => list.as_slice(),
                None => &[],
            }
        }
    }

    fn is_alive(&self, element: u32) -> bool {
        match self.elements.get(element as usize) {
            Some(one) => one.size > 0,
            None => false,
        }
    }

    /// Takes the weight of a vertex, which lies inside the new element, off what these elements have outside of it.
    pub(crate) fn leave(&mut self, held: &[u32], weight: u32, stamp: u32) {
        for element in held {
            if let Some(one) = self.elements.get_mut(*element as usize) {
                one.leave(weight, stamp);
            }
        }
    }

    /// How many vertices of an element lie outside of the new one; 0 where it is dead.
    pub(crate) fn outside(&self, element: u32) -> u32 {
        match self.elements.get(element as usize) {
            Some(one) => one.outside.min(one.size),
            None => 0,
        }
    }

    /// Lets an element go.
    pub(crate) fn absorb(&mut self, element: u32) {
        let place = element as usize;
        if let Some(one) = self.elements.get_mut(place) {
            one.size = 0;
        }
        if place >= self.edges
            && let Some(list) = self.lists.get_mut(place - self.edges)
        {
            *list = Vec::new(self.alloc);
        }
    }

    /// The new element, of this many vertices.
    pub(crate) fn add(&mut self, list: Vec<u32>, size: u32) -> Result<(), OutOfMemory> {
        self.lists.push(list)?;
        self.elements.push(Element {
            size,
            outside: 0,
            stamp: 0,
        })?;
        Ok(())
    }
}

fn size_of_list(list: &[u32]) -> u32 {
    u32::try_from(list.len()).unwrap_or(u32::MAX)
}
