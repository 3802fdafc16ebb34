// Vertices in lists by a key, as a search by degree or by weight wants them: doubly linked, so that a vertex leaves its list in
// constant time.

use cnf_base::OutOfMemory;
use std::alloc::Global;

/// Lists of vertices, one for each key. A vertex stands in one list at most.
#[derive(Drop)]
pub(crate) struct Lists {
    lists: Vec<List>,
    links: Vec<Link>,
}

// The two ends of a list.
#[derive(Clone, Copy, Drop)]
struct List {
    first: Option<u32>,
    last: Option<u32>,
}

// A vertex's list, and its neighbours there.
#[derive(Clone, Copy, Drop)]
struct Link {
    key: Option<u32>,
    before: Option<u32>,
    behind: Option<u32>,
}

impl Lists {
    /// Empty lists for so many vertices and so many keys.
    pub(crate) fn new(alloc: Global, vertices: usize, keys: usize) -> Result<Lists, OutOfMemory> {
        let list = List {
            first: None,
            last: None,
        };
        let link = Link {
            key: None,
            before: None,
            behind: None,
        };
        Ok(Lists {
            lists: vec![in alloc; list; keys]?,
            links: vec![in alloc; link; vertices]?,
        })
    }

    /// The first vertex of a list.
    #[inline]
    pub(crate) fn first(&self, key: u32) -> Option<u32> {
        self.list(key).first
    }

    /// The key of the list in which a vertex stands.
    #[inline]
    pub(crate) fn key(&self, vertex: u32) -> Option<u32> {
        self.link(vertex).key
    }

    /// Takes a vertex out of its list, and puts it at the front of another. Nothing is put under a key that there isn't.
    pub(crate) fn put_first(&mut self, vertex: u32, key: u32) {
        self.take(vertex);
        if key as usize >= self.lists.len() || vertex as usize >= self.links.len() {
            return;
        }
        let behind = self.list(key).first;
        self.set_link(
            vertex,
            Link {
                key: Some(key),
                before: None,
                behind,
            },
        );
        match behind {
            None => self.set_last(key, Some(vertex)),
            Some(next) => self.set_before(next, Some(vertex)),
        }
        self.set_first(key, Some(vertex));
    }

    /// Takes a vertex out of its list, and puts it at the end of another. Nothing is put under a key that there isn't.
    pub(crate) fn put_last(&mut self, vertex: u32, key: u32) {
        self.take(vertex);
        if key as usize >= self.lists.len() || vertex as usize >= self.links.len() {
            return;
        }
        let before = self.list(key).last;
        self.set_link(
            vertex,
            Link {
                key: Some(key),
                before,
                behind: None,
            },
        );
        match before {
            None => self.set_first(key, Some(vertex)),
            Some(previous) => self.set_behind(previous, Some(vertex)),
        }
        self.set_last(key, Some(vertex));
    }

    /// Takes a vertex out of its list, if it stands in one.
    pub(crate) fn take(&mut self, vertex: u32) {
        let Link {
            key,
            before,
            behind,
        } = self.link(vertex);
        let Some(key) = key else {
            return;
        };
        match before {
            None => self.set_first(key, behind),
            Some(previous) => self.set_behind(previous, behind),
        }
        match behind {
            None => self.set_last(key, before),
            Some(next) => self.set_before(next, before),
        }
        self.set_link(
            vertex,
            Link {
                key: None,
                before: None,
                behind: None,
            },
        );
    }

    #[inline]
    fn list(&self, key: u32) -> List {
        let key = key as usize;
        if key < self.lists.len() {
            self.lists[key]
        } else {
            List {
                first: None,
                last: None,
            }
        }
    }

    #[inline]
    fn link(&self, vertex: u32) -> Link {
        let vertex = vertex as usize;
        if vertex < self.links.len() {
            self.links[vertex]
        } else {
            Link {
                key: None,
                before: None,
                behind: None,
            }
        }
    }

    #[inline]
    fn set_first(&mut self, key: u32, first: Option<u32>) {
        let key = key as usize;
        if key < self.lists.len() {
            self.lists[key].first = first;
        }
    }

    #[inline]
    fn set_last(&mut self, key: u32, last: Option<u32>) {
        let key = key as usize;
        if key < self.lists.len() {
            self.lists[key].last = last;
        }
    }

    #[inline]
    fn set_link(&mut self, vertex: u32, link: Link) {
        let vertex = vertex as usize;
        if vertex < self.links.len() {
            self.links[vertex] = link;
        }
    }

    #[inline]
    fn set_before(&mut self, vertex: u32, before: Option<u32>) {
        let vertex = vertex as usize;
        if vertex < self.links.len() {
            self.links[vertex].before = before;
        }
    }

    #[inline]
    fn set_behind(&mut self, vertex: u32, behind: Option<u32>) {
        let vertex = vertex as usize;
        if vertex < self.links.len() {
            self.links[vertex].behind = behind;
        }
    }
}
