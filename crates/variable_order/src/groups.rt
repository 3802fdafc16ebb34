// Groups of vertices that can't be told apart, since they lie in the same elements: one of them stands for the group, with the number of
// its vertices as its weight, and they are eliminated one behind the other. (Supervariables, in Amestoy, Davis, Duff: An Approximate
// Minimum Degree Ordering Algorithm, 1996.)

use cnf_base::OutOfMemory;
use std::alloc::Global;

// The weight of the group that a vertex stands for, 0 where another stands for it or it was eliminated; and the stamp under which it was
// gathered last.
#[derive(Clone, Copy, Drop)]
struct Group {
    weight: u32,
    stamp: u32,
}

// The vertex behind this one in its group, and the last of the group that it stands for.
#[derive(Clone, Copy, Drop)]
struct Link {
    next: Option<u32>,
    last: u32,
}

/// The groups, of which each vertex belongs to one.
#[derive(Drop)]
pub(crate) struct Groups {
    groups: Vec<Group>,
    links: Vec<Link>,
}

impl Groups {
    /// Each vertex alone.
    pub(crate) fn of(alloc: Global, vars: u32) -> Result<Self, OutOfMemory> {
        let alone = Group {
            weight: 1,
            stamp: 0,
        };
        let groups = vec![in alloc; alone; vars as usize]?;
        let mut links = Vec::new(alloc);
        for last in 0..vars {
            links.push(Link { next: None, last })?;
        }
        Ok(Groups { groups, links })
    }

    /// How many vertices this one stands for.
    pub(crate) fn weight(&self, vertex: u32) -> u32 {
        match self.groups.get(vertex as usize) {
            Some(group) => group.weight,
            None => 0,
        }
    }

    /// The weights of these vertices together.
    pub(crate) fn weight_of(&self, vertices: &[u32]) -> u32 {
        let mut weight = 0u32;
        for vertex in vertices {
            weight = weight.saturating_add(self.weight(*vertex));
        }
        weight
    }

    /// Lets a vertex stand for none any more. How many it stood for.
    pub(crate) fn retire(&mut self, vertex: u32) -> u32 {
        match self.groups.get_mut(vertex as usize) {
            Some(group) => {
                let weight = group.weight;
                group.weight = 0;
                weight
            }
            None => 0,
        }
    }

    /// Appends those of the vertices that stand for a group, and weren't appended under this stamp.
    pub(crate) fn gather(
        &mut self,
        vertices: &[u32],
        stamp: u32,
        into: &mut Vec<u32>,
    ) -> Result<(), OutOfMemory> {
        for vertex in vertices {
            if self.is_new(*vertex, stamp) {
                into.push(*vertex)?;
            }
        }
        Ok(())
    }

    // Whether the vertex stands for a group and has another stamp, which it loses.
    fn is_new(&mut self, vertex: u32, stamp: u32) -> bool {
        match self.groups.get_mut(vertex as usize) {
            Some(group) => {
                let is_new = group.weight > 0 && group.stamp != stamp;
                group.stamp = stamp;
                is_new
            }
            None => false,
        }
    }

    /// Appends the group of `other` to that of `first`.
    pub(crate) fn merge(&mut self, first: u32, other: u32) {
        let weight = self.retire(other);
        if let Some(group) = self.groups.get_mut(first as usize) {
            group.weight = group.weight.saturating_add(weight);
        }
        let last = self.last(first);
        let end = self.last(other);
        if let Some(link) = self.links.get_mut(last as usize) {
            link.next = Some(other);
        }
        if let Some(link) = self.links.get_mut(first as usize) {
            link.last = end;
        }
    }

    fn last(&self, vertex: u32) -> u32 {
        match self.links.get(vertex as usize) {
            Some(link) => link.last,
            None => vertex,
        }
    }

    fn next(&self, vertex: u32) -> Option<u32> {
        match self.links.get(vertex as usize) {
            Some(link) => link.next,
            None => None,
        }
    }

    /// Appends the vertices of a group.
    pub(crate) fn write(&self, vertex: u32, into: &mut Vec<u32>) -> Result<(), OutOfMemory> {
        let mut next = Some(vertex);
        for _ in 0..self.links.len() {
            let Some(one) = next else { break };
            into.push(one)?;
            next = self.next(one);
        }
        Ok(())
    }
}
