// A map of bounded size over the kit's `lru`: a hash map whose entries also lie in a doubly linked list, so that each call
// takes expected constant time. Memory comes with the entries, and not with the capacity: 96 bytes an entry with a key and a value of
// 16 each, which a layout of our own would halve.
ghost use Rattle.std.specs.Prelude.{◌≡◌, ◌≤◌, ◌<◌, ◌^◌, [], length, Some, IfOk, IfErr, OnOk, OnErr, IsSome, IsOk};
ghost use Rattle.std.specs.Map.{lookup};
ghost use Rattle.op_cache.specs.Cache.{Cache, IsBounded, cache_of, looked, kept, last_of, without_last};

use cnf_base::OutOfMemory;
use lru::LruCache;
use std::alloc::Global;
use std::hash::Hash;
use std::marker::Model;
use std::num::NonZeroUsize;

/// A map of bounded size whose entries stand in the order of their last use, the latest first.
#[derive(Drop)]
pub struct Bounded<K: Eq + Hash + Copy, V: Copy> {
    cache: LruCache<K, V>,
    // How many look-ups found a value, and how many found none.
    found: u64,
    missed: u64,
}

impl<K: Eq + Hash + Copy, V: Copy> Model for Bounded<K, V> {
    ghost use Rattle.op_cache.specs.Cache.{Cache, IsBounded, cache_of, cache_code};

    ghost Value = { Cache K V };

    ghost coded = { cache_code K.code V.code };

    ghost view = { λ b. cache_of b.cache.entries b.cache.cap };

    ghost invariant = { λ b. IsBounded K.eq (cache_of b.cache.entries b.cache.cap) };
}

impl<K: Eq + Hash + Copy, V: Copy> Bounded<K, V> {
    /// A map without entries. It takes no memory in proportion to its capacity.
    pub fn new(alloc: Global, capacity: u32) -> Result<Self, OutOfMemory>
        requires { 1 ≤ capacity }
        ensures { IfOk result (λ map. map ≡ cache_of [] capacity) }
    {
        let most = NonZeroUsize::new(capacity as usize).unwrap();
        let cache = LruCache::sparse(alloc, most)?;
        Ok(Bounded {
            cache,
            found: 0,
            missed: 0,
        })
    }

    /// The value of a key. Its entry comes to the front.
    pub fn look(&mut self, key: &K) -> Option<V>
        ensures value { result ≡ lookup (K.eq key.now) self.old.entries }
        ensures entries { self.new ≡ record self.old { entries = looked K.eq self.old.entries key.now } }
    {
        match self.cache.get(key) {
            Some(value) => {
                self.found = self.found.wrapping_add(1);
                Some(*value)
            }
            None => {
                self.missed = self.missed.wrapping_add(1);
                None
            }
        }
    }

    /// How many look-ups found a value, and how many found none.
    pub fn uses(&self) -> (u64, u64) {
        (self.found, self.missed)
    }

    /// The entry of a key comes to the front, as it does where it is looked up. It counts for nothing.
    pub fn touch(&mut self, key: &K)
        ensures { self.new ≡ record self.old { entries = looked K.eq self.old.entries key.now } }
    {
        let _ = self.cache.get(key);
    }

    /// Keeps a value under a key, in front of all else, and hands back the pair that it replaces or pushes out. A key that is
    /// there takes no memory, and stays as it was first given; the replaced value comes back with the key of this call, since equal keys
    /// need not be the same. For want of memory the pair comes back, and nothing changes.
    pub fn keep(&mut self, key: K, value: V) -> Result<Option<(K, V)>, (K, V)>
        ensures entries { OnOk result (self.new
            ≡ record self.old { entries = (kept K.eq self.old.capacity self.old.entries key value).0 }) }
        ensures handed_back { IfOk result (λ pair. pair ≡ (kept K.eq self.old.capacity self.old.entries key value).1) }
        ensures found { OnOk result (lookup (K.eq key) self.new.entries ≡ Some value) }
        ensures no_memory { IsSome (lookup (K.eq key) self.old.entries) → IsOk result }
        ensures returned { IfErr result (λ pair. pair ≡ (key, value)) }
        ensures err { OnErr result (self.new ≡ self.old) }
    {
        match self.cache.push(key, value) {
            Ok(pair) => Ok(pair),
            Err(refused) => Err(refused.value),
        }
    }

    /// The entry whose use lies the longest ago.
    pub fn last(&self) -> Option<(K, V)>
        ensures { result ≡ last_of self.now.entries }
    {
        match self.cache.peek_lru() {
            Some((key, value)) => Some((*key, *value)),
            None => None,
        }
    }

    /// Takes out the entry whose use lies the longest ago.
    pub fn pop_last(&mut self) -> Option<(K, V)>
        ensures pair { result ≡ last_of self.old.entries }
        ensures entries { self.new ≡ record self.old { entries = without_last self.old.entries } }
    {
        self.cache.pop_lru()
    }

    /// The number of entries.
    pub fn len(&self) -> usize
        ensures number { result ≡ length self.now.entries }
        ensures bounded { IsBounded K.eq self.now }
        ensures small { result < 2 ^ 63 }
    {
        self.cache.len()
    }

    /// The number of entries that there may be.
    pub fn capacity(&self) -> usize
        ensures { result ≡ self.now.capacity }
    {
        self.cache.cap().get()
    }
}
