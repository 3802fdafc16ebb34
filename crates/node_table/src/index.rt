// Finds stored nodes by their level and children: open addressing over their keys, by the kit's default hash. A node that
// is looked up is met at the first place in most cases, since at most half of the places are taken. Nothing is ever taken out, and the
// index is never walked: whoever takes nodes away makes it anew. The standard map would keep each triple, its key and its hash a
// second time, 30 to 60 bytes a node.
ghost use Rattle.std.specs.Prelude.{◌≡◌, ◌<◌, ◌≤◌, ◌+◌, ◌*◌, ◌^◌, ℕ, [], None, Some, OnOk, IfNone, IfSome, MatchOption, IsTrue, IsFalse};
ghost use Rattle.std.specs.Prelude.{length, max, count_by, slice_index_or};
ghost use Rattle.slab.specs.Slab.{Slab as Slots, get, slab_len, Updates};
ghost use Rattle.node_table.specs.Index.{IsIndexOf, HasRoom, IsTriple, IsCounted, IsFirstFree, Enters, home_of, is_taken, place_at};
ghost use Rattle.node_table.specs.declared.stored.StoredNode.{StoredNode as Stored};

use crate::stored::{Child, StoredNode};
use cnf_base::OutOfMemory;
use slab::Slab;
use std::alloc::Global;
use std::hash::{BuildHasher, BuildHasherDefault, FoldHasher};

// How many values the lower half of a hash has; there are no more places.
const HALF_HASHES: u64 = 1 << 32;

/// The keys of stored nodes, by hashed triples of level and children. A place holds a key and one, or 0 where it is free.
#[derive(Drop)]
pub struct Index {
    alloc: Global,
    hasher: BuildHasherDefault<FoldHasher>,
    places: Vec<u32>,
    taken: usize,
}

impl Index {
    /// No key. It takes no memory.
    pub fn new(alloc: Global) -> Index
        ensures { (nodes : Slots Stored) → nodes.slots ≡ [] → IsIndexOf result nodes }
    {
        Index {
            alloc,
            hasher: BuildHasherDefault::new(),
            places: Vec::new(alloc),
            taken: 0,
        }
    }

    /// The key of the node of this level and these children, if there is one.
    pub fn find(&self, nodes: &Slab<StoredNode>, level: u32, high: Child, low: Child) -> Option<u32>
        requires { IsIndexOf self.now nodes.now }
        ensures { MatchOption result
            ((key : ℕ) (node : Stored) → get nodes.now key ≡ Some node → IsTriple node level high low → ⊥)
            (λ key. (node : Stored) × (get nodes.now key ≡ Some node) × IsTriple node level high low) }
    {
        let size = self.places.len();
        let home = home_of(self.hasher, size, level, high, low);
        for step in 0..size {
            let word = self.places[place_at(size, home, step)];
            if word == 0 {
                return None;
            }
            let key = word - 1;
            if is_triple_at(nodes, key, level, high, low) {
                return Some(key);
            }
        }
        None
    }

    /// Room for one key more. A refusal changes nothing that is found.
    pub fn reserve(&mut self, nodes: &Slab<StoredNode>) -> Result<(), OutOfMemory>
        requires { IsIndexOf self.old nodes.now }
        ensures kept { IsIndexOf self.new nodes.now }
        ensures room { OnOk result (HasRoom self.new) }
    {
        let size = self.places.len();
        if 2 * (self.taken + 1) <= size {
            return Ok(());
        }
        let Some(wider) = wider_size(size, nodes.len()) else {
            return Err(OutOfMemory);
        };
        let mut wide = Index {
            alloc: self.alloc,
            hasher: self.hasher,
            places: vec![in self.alloc; 0; wider]?,
            taken: 0,
        };
        wide.enter_all(nodes);
        *self = wide;
        Ok(())
    }

    /// One key more, of a node that joins the stored ones.
    pub fn insert(&mut self, key: u32, node: &StoredNode)
        requires room { HasRoom self.old }
        requires key { key + 1 < 2 ^ 32 }
        ensures { (old new : Slots Stored) → IsIndexOf self.old old → get old key ≡ None → Updates old new key (Some node.now)
            → IsIndexOf self.new new }
    {
        self.enter(key, node);
    }

    /// The keys of these nodes alone, in the same places. It takes no memory.
    pub fn rebuild(&mut self, nodes: &Slab<StoredNode>)
        requires counted { IsCounted self.old }
        requires room { slab_len nodes.now ≤ length self.old.places.items }
        requires keys { (key : ℕ) (node : Stored) → get nodes.now key ≡ Some node → key + 1 < 2 ^ 32 }
        ensures { IsIndexOf self.new nodes.now }
    {
        self.places.fill(0);
        self.taken = 0;
        self.enter_all(nodes);
    }

    // Takes the first free place from the node's home on.
    fn enter(&mut self, key: u32, node: &StoredNode)
        requires room { HasRoom self.old }
        requires key { key + 1 < 2 ^ 32 }
        ensures { Enters self.old self.new key node.now }
    {
        let size = self.places.len();
        let home = home_of(self.hasher, size, node.level, node.high, node.low);
        let place = first_free(self.places.as_slice(), home);
        self.places[place] = key + 1;
        self.taken += 1;
    }

    // Enters all stored nodes, where no place is taken yet.
    fn enter_all(&mut self, nodes: &Slab<StoredNode>)
        requires counted { IsCounted self.old }
        requires free { self.old.taken ≡ 0 }
        requires room { slab_len nodes.now ≤ length self.old.places.items }
        requires keys { (key : ℕ) (node : Stored) → get nodes.now key ≡ Some node → key + 1 < 2 ^ 32 }
        ensures index { IsIndexOf self.new nodes.now }
        ensures room { slab_len nodes.now < length self.old.places.items → HasRoom self.new }
    {
        'entries: for (key, node) in nodes.iter() {
            self.enter(key as u32, node);
        }
    }
}

// Where the search for a triple begins.
#[inline(always)]
fn home_of(
    hasher: BuildHasherDefault<FoldHasher>,
    size: usize,
    level: u32,
    high: Child,
    low: Child,
) -> usize
    requires { size ≤ 2 ^ 32 }
    ensures value { result ≡ home_of hasher size level high.word low.word }
    ensures within { 0 < size → result < size }
{
    let hash = hasher.hash_one((level, high.word, low.word));
    ((hash % HALF_HASHES) * size as u64 / HALF_HASHES) as usize
}

// The place so many steps on from the home; behind the last place comes the first one.
#[inline(always)]
fn place_at(size: usize, home: usize, steps: usize) -> usize
    requires home { home < size }
    requires steps { steps < size }
    requires few { size ≤ 2 ^ 32 }
    ensures value { result ≡ place_at size home steps }
    ensures within { result < size }
{
    let place = home + steps;
    if place < size { place } else { place - size }
}

// Whether the node of this key has this level and these children.
#[inline(always)]
fn is_triple_at(nodes: &Slab<StoredNode>, key: u32, level: u32, high: Child, low: Child) -> bool
    ensures yes { IsTrue result → (node : Stored) × (get nodes.now key ≡ Some node) × IsTriple node level high low }
    ensures no { IsFalse result → (node : Stored) → get nodes.now key ≡ Some node → IsTriple node level high low → ⊥ }
{
    match nodes.get(key as usize) {
        Some(node) => node.level == level && node.high == high && node.low == low,
        None => false,
    }
}

// The first free place from the home on.
fn first_free(places: &[u32], home: usize) -> usize
    requires home { home < length places.now }
    requires room { count_by is_taken places.now < length places.now }
    requires few { length places.now ≤ 2 ^ 32 }
    ensures { IsFirstFree places.now home result }
{
    for step in 0..places.len() {
        let place = place_at(places.len(), home, step);
        if places[place] == 0 {
            return place;
        }
    }
    unreachable!()
}

// At least twice as many places, and enough for so many keys. None where there would be more than hashes.
fn wider_size(size: usize, keys: usize) -> Option<usize>
    ensures few { IfSome result (λ wider. wider ≤ 2 ^ 32) }
    ensures room { IfSome result (λ wider. keys < wider) }
    ensures twice { IfSome result (λ wider. 2 * size ≤ wider) }
    ensures none { IfNone result (2 ^ 31 ≤ max size keys) }
{
    if size.max(keys) >= 1 << 31 {
        return None;
    }
    Some(2 * size.max(keys + 1).max(32))
}
