// The order by approximate minimum degree: the vertex with the fewest neighbours is eliminated next, and its neighbours become neighbours
// of each other. The graph is never written out: a quotient graph holds its cliques as lists, of which the edges of the hypergraph are
// the first, and a degree is a bound from above that takes the time of these lists. (Amestoy, Davis, Duff: An Approximate Minimum Degree
// Ordering Algorithm, 1996.) Among equals comes first the one whose degree changed last, which does better on most kinds of formulas than
// the oldest or the least number; at first they stand by levels. The work is bounded: once it is spent, the rest goes by the degrees that
// it has by then.
ghost use Rattle.std.specs.Prelude.{◌≡◌, length, IfOk};

use crate::completed::completed;
use crate::elements::Elements;
use crate::groups::Groups;
use crate::holdings::Holdings;
use crate::hypergraph::Hypergraph;
use crate::lists::Lists;
use cnf_base::OutOfMemory;
use schedule_plan::Order;
use std::alloc::Global;

/// The variables by approximate minimum degree, the first to be eliminated on top.
pub fn by_degree(alloc: Global, graph: &Hypergraph) -> Result<Order, OutOfMemory>
    ensures { IfOk result (λ order. length order ≡ graph.now.vars) }
{
    let mut elimination = Elimination::of(alloc, graph)?;
    elimination.run(alloc, graph)?;
    completed(alloc, graph.vars() as u32, elimination.sequence.as_slice())
}

// How often the formula's size may be spent, and how much more.
const ROUNDS: u64 = 100;

const WORK: u64 = 100_000_000;

/// A vertex of the new element, with a bound on its neighbours outside of it.
#[derive(Clone, Copy, Drop)]
struct Neighbour {
    vertex: u32,
    outside: u32,
}

/// A vertex of the new element, behind the hash of its list.
type Key = (u64, u32);

/// The elimination as far as it has come.
#[derive(Drop)]
struct Elimination {
    // The vertices that stand for a group, by their degrees, newest first.
    degrees: Lists,
    elements: Elements,
    holdings: Holdings,
    groups: Groups,
    // The vertices that were eliminated.
    sequence: Vec<u32>,
    // No vertex has a smaller degree.
    least: u32,
    // How many vertices are left.
    left: u32,
    // The work that was done: places of lists that were read.
    spent: u64,
}

impl Elimination {
    fn of(alloc: Global, graph: &Hypergraph) -> Result<Self, OutOfMemory> {
        let vars = graph.vars();
        let mut degrees = Lists::new(alloc, vars, vars + 1)?;
        for vertex in graph.levels() {
            let degree = graph.degree(*vertex as usize);
            degrees.put_last(*vertex, degree.min(vars as u32));
        }
        Ok(Elimination {
            degrees,
            elements: Elements::of(alloc, graph)?,
            holdings: Holdings::of(alloc, graph)?,
            groups: Groups::of(alloc, vars as u32)?,
            sequence: Vec::new(alloc),
            least: 0,
            left: vars as u32,
            spent: 0,
        })
    }

    fn run(&mut self, alloc: Global, graph: &Hypergraph) -> Result<(), OutOfMemory> {
        let limit = graph.size().saturating_mul(ROUNDS).saturating_add(WORK);
        for _ in 0..graph.vars() {
            let Some(pivot) = self.take_least(graph) else {
                break;
            };
            self.groups.write(pivot, &mut self.sequence)?;
            if self.spent <= limit {
                self.eliminate(alloc, graph, pivot)?;
            }
        }
        Ok(())
    }

    // Takes the first vertex of the least degree.
    fn take_least(&mut self, graph: &Hypergraph) -> Option<u32> {
        for degree in self.least..=graph.vars() as u32 {
            if let Some(pivot) = self.degrees.first(degree) {
                self.least = degree;
                self.degrees.take(pivot);
                return Some(pivot);
            }
        }
        None
    }

    // Eliminates the pivot: its neighbours become the new element, and get their new degrees.
    fn eliminate(
        &mut self,
        alloc: Global,
        graph: &Hypergraph,
        pivot: u32,
    ) -> Result<(), OutOfMemory> {
        let stamp = pivot.saturating_add(1);
        self.left = self.left.saturating_sub(self.groups.retire(pivot));
        let mut members = self.unite(alloc, graph, pivot, stamp)?;
        self.leave(members.as_slice(), stamp);
        let (neighbours, keys) = self.shrink(alloc, members.as_slice())?;
        self.merge_equal(keys.as_slice());
        let size = self.groups.weight_of(members.as_slice());
        self.place(neighbours.as_slice(), size);
        let groups = &self.groups;
        members.retain(|vertex| groups.weight(*vertex) > 0);
        self.elements.add(members, size)
    }

    // The vertices of the pivot's elements, which the new element absorbs.
    fn unite(
        &mut self,
        alloc: Global,
        graph: &Hypergraph,
        pivot: u32,
        stamp: u32,
    ) -> Result<Vec<u32>, OutOfMemory> {
        let mut members = Vec::new(alloc);
        for element in self.holdings.list(pivot) {
            let vertices = self.elements.members(graph, *element);
            self.spent = self.spent.saturating_add(vertices.len() as u64);
            self.groups.gather(vertices, stamp, &mut members)?;
            self.elements.absorb(*element);
        }
        Ok(members)
    }

    // Counts what the elements around the new one have outside of it: each place of a list takes a vertex's weight off.
    fn leave(&mut self, members: &[u32], stamp: u32) {
        for vertex in members {
            let weight = self.groups.weight(*vertex);
            let held = self.holdings.list(*vertex);
            self.spent = self.spent.saturating_add(held.len() as u64);
            self.elements.leave(held, weight, stamp);
        }
    }

    // Shrinks the lists of the new element's vertices. One that lies in no other element follows the pivot at once. The others, and
    // their keys in order.
    fn shrink(
        &mut self,
        alloc: Global,
        members: &[u32],
    ) -> Result<(Vec<Neighbour>, Vec<Key>), OutOfMemory> {
        let new = self.elements.next();
        let mut neighbours = Vec::new(alloc);
        let mut keys = Vec::new(alloc);
        for vertex in members {
            let kept = self.holdings.shrink(*vertex, &mut self.elements, new);
            if kept.count == 0 {
                self.follow(*vertex)?;
            } else {
                neighbours.push(Neighbour {
                    vertex: *vertex,
                    outside: kept.outside,
                })?;
                keys.push((kept.hash, *vertex))?;
            }
        }
        keys.sort_unstable();
        Ok((neighbours, keys))
    }

    fn follow(&mut self, vertex: u32) -> Result<(), OutOfMemory> {
        self.degrees.take(vertex);
        self.left = self.left.saturating_sub(self.groups.retire(vertex));
        self.groups.write(vertex, &mut self.sequence)
    }

    // Merges vertices that lie in the same elements: their hashes are equal, so their keys stand together.
    fn merge_equal(&mut self, keys: &[Key]) {
        for (i, key) in keys.iter().enumerate() {
            if self.groups.weight(key.1) > 0 {
                self.merge_with(*key, keys.get(i + 1..).unwrap_or(&[]));
            }
        }
    }

    fn merge_with(&mut self, (hash, first): Key, others: &[Key]) {
        for (other_hash, other) in others {
            if *other_hash != hash {
                break;
            }
            if self.groups.weight(*other) > 0 && self.is_equal(first, *other) {
                self.groups.merge(first, *other);
                self.degrees.take(*other);
            }
        }
    }

    fn is_equal(&mut self, first: u32, other: u32) -> bool {
        let list = self.holdings.list(first);
        self.spent = self.spent.saturating_add(list.len() as u64);
        list == self.holdings.list(other)
    }

    // Gives each vertex of the new element its new degree: the least of three bounds.
    fn place(&mut self, neighbours: &[Neighbour], size: u32) {
        for neighbour in neighbours {
            let vertex = neighbour.vertex;
            let weight = self.groups.weight(vertex);
            if weight > 0 {
                let beside = size.saturating_sub(weight);
                let old = self.degrees.key(vertex).unwrap_or(0);
                let degree = old.saturating_add(beside);
                let degree = degree.min(beside.saturating_add(neighbour.outside));
                let degree = degree.min(self.left.saturating_sub(weight));
                self.degrees.put_first(vertex, degree);
                self.least = self.least.min(degree);
            }
        }
    }
}
