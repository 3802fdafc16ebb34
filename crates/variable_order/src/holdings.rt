// The elements that each vertex lies in, as lists that stand one behind the other. A list loses an element at least when it gets one, so
// each stays where it is. The numbers in it rise, so that equal lists are equal place by place.

use crate::elements::Elements;
use crate::hypergraph::Hypergraph;
use cnf_base::OutOfMemory;
use std::alloc::Global;

// Where a vertex's list begins, and how many elements it has.
#[derive(Clone, Copy, Drop)]
struct Span {
    start: u32,
    count: u32,
}

/// What was kept of a vertex's list: how many elements, how many vertices they have outside of the new one, each counted by itself, and a
/// hash of their numbers.
#[derive(Clone, Copy, Drop)]
pub(crate) struct Kept {
    pub(crate) count: u32,
    pub(crate) outside: u32,
    pub(crate) hash: u64,
}

// An odd number whose bits look random: 2^64 over the golden ratio.
const FACTOR: u64 = 0x9e37_79b9_7f4a_7c15;

impl Kept {
    fn add(&mut self, element: u32, outside: u32) {
        self.count = self.count.saturating_add(1);
        self.outside = self.outside.saturating_add(outside);
        let number = u64::from(element).wrapping_add(1);
        self.hash = self.hash.wrapping_add(number.wrapping_mul(FACTOR));
    }
}

/// The lists.
#[derive(Drop)]
pub(crate) struct Holdings {
    held: Vec<u32>,
    spans: Vec<Span>,
}

impl Holdings {
    /// The edges that hold each vertex.
    pub(crate) fn of(alloc: Global, graph: &Hypergraph) -> Result<Self, OutOfMemory> {
        let mut held = Vec::with_capacity(alloc, graph.size() as usize)?;
        let mut spans = Vec::with_capacity(alloc, graph.vars())?;
        for vertex in 0..graph.vars() {
            let holders = graph.holders(vertex);
            let start = small(held.len());
            held.extend_from_slice(holders)?;
            spans.push(Span {
                start,
                count: small(holders.len()),
            })?;
        }
        Ok(Holdings { held, spans })
    }

    /// The elements that a vertex lies in.
    pub(crate) fn list(&self, vertex: u32) -> &[u32] {
        let span = self.span(vertex);
        let start = span.start as usize;
        match self.held.get(start..start + span.count as usize) {
            Some(list) => list,
            None => &[],
        }
    }

    fn span(&self, vertex: u32) -> Span {
        match self.spans.get(vertex as usize) {
            Some(span) => *span,
            None => Span { start: 0, count: 0 },
        }
    }

    /// Takes out the elements that are dead, and those that lie inside the new one, which it absorbs, and puts the new one at the end.
    /// Where none was kept, the list isn't read again.
    pub(crate) fn shrink(&mut self, vertex: u32, elements: &mut Elements, new: u32) -> Kept {
        let span = self.span(vertex);
        let kept = self.filter(span, elements);
        self.put(span.start, kept.count, new);
        if let Some(place) = self.spans.get_mut(vertex as usize) {
            place.count = kept.count.saturating_add(1);
        }
        kept
    }

    fn filter(&mut self, span: Span, elements: &mut Elements) -> Kept {
        let mut kept = Kept {
            count: 0,
            outside: 0,
            hash: 0,
        };
        for i in 0..span.count {
            let element = self.get(span.start, i);
            let outside = elements.outside(element);
            if outside == 0 {
                elements.absorb(element);
            } else {
                self.put(span.start, kept.count, element);
                kept.add(element, outside);
            }
        }
        kept
    }

    fn get(&self, start: u32, i: u32) -> u32 {
        let place = start as usize + i as usize;
        self.held.get(place).copied().unwrap_or(0)
    }

    fn put(&mut self, start: u32, i: u32, element: u32) {
        let place = start as usize + i as usize;
        if let Some(old) = self.held.get_mut(place) {
            *old = element;
        }
    }
}

fn small(length: usize) -> u32 {
    u32::try_from(length).unwrap_or(u32::MAX)
}
