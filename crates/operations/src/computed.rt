// The computed cache of any operation: what was found before, by the operands. Where it is full, the entry whose use lies the
// longest ago makes room. (Brace, Rudell, Bryant: Efficient Implementation of a BDD Package, DAC 1990.)
ghost use Rattle.std.specs.Prelude.{◌≡◌, ◌≤◌, ◌∷◌, [], None, Some, IfOk, OnErr, length};
ghost use Rattle.op_cache.specs.Cache.{last_of};
ghost use Rattle.node_table.specs.Table.{IsSound};
ghost use Rattle.operations.specs.Caches.{IsLookedUp, KeepsEntry, TellsKeys, listed};
ghost use Rattle.operations.specs.Entries.{Entry, IsClauseOf, just_of};
ghost use Rattle.operations.specs.Purged.{MayRetire, are_marked};
ghost use Rattle.operations.specs.Turns.{HasTurn, RetiresTurn};

use crate::laws::{cache_law, cache_turn_law, table_turn_law};
use crate::purge::Purge;
use crate::retired::retire;
use cnf_base::{Id, OutOfMemory};
use host_io::Sink;
use node_table::{Marks, Table};
use op_cache::Bounded;
use std::alloc::Global;
use std::hash::Hash;

/// What the cache of an operation keeps: its operands, and what was found.
pub trait Computed {
    type Key: Eq + Hash + Copy;

    type Value: Copy;

    ghost entry_of: { Self.Key × Self.Value → Entry };

    /// For the prover alone: an entry tells its operands, and what was found.
    fn key_law()
        ensures { TellsKeys Self.Key.eq entry_of };

    /// Whether the nodes of an entry are marked.
    fn are_marked(marks: &Marks, key: Self::Key, value: Self::Value) -> bool
        ensures { result ≡ are_marked marks.now (entry_of (key, value)) };

    /// The clause that an entry names, if it names one.
    fn clause(key: Self::Key, value: Self::Value) -> Option<Id>
        ensures { IsClauseOf (just_of (entry_of (key, value))) result };
}

/// Results of an operation by their operands.
#[derive(Drop)]
pub struct Results<C: Computed> {
    alloc: Global,
    results: Bounded<C::Key, C::Value>,
}

impl<C: Computed> Results<C> {
    /// An empty cache of at most so many entries. Memory comes with them.
    pub fn new(alloc: Global, capacity: u32) -> Result<Self, OutOfMemory>
        requires { 1 ≤ capacity }
        ensures { IfOk result (λ cache. (listed C.entry_of cache.results ≡ []) × (cache.results.capacity ≡ capacity)) }
    {
        let results = Bounded::new(alloc, capacity)?;
        Ok(Results { alloc, results })
    }

    /// For the prover alone: there are no more entries than there may be.
    pub fn few_law(&self)
        ensures { length (listed C.entry_of self.now.results) ≤ self.now.results.capacity }
    {
        let _ = self.results.len();
    }

    /// The allocator that it was made with.
    pub fn alloc(&self) -> Global {
        self.alloc
    }

    /// How many look-ups found a result, and how many found none.
    pub fn uses(&self) -> (u64, u64) {
        self.results.uses()
    }

    /// What was found for these operands, where it is kept. Its entry comes to the front.
    pub fn look(&mut self, key: C::Key) -> Option<C::Value>
        ensures looked { IsLookedUp C.entry_of C.Key.eq self.old.results self.new.results key result }
        ensures missed { result ≡ None → self.new ≡ self.old }
    {
        C::key_law();
        cache_law::<C::Key, C::Value>();
        let _ = self.results.len();
        self.results.look(&key)
    }

    /// Keeps what was found for these operands in front of all else, and hands back the clause of the entry that it replaces or
    /// pushes out. A refusal changes nothing.
    pub fn keep(&mut self, key: C::Key, value: C::Value) -> Result<Option<Id>, OutOfMemory>
        ensures kept { IfOk result (λ given. KeepsEntry C.entry_of C.Key.eq self.old.results self.new.results key
            (C.entry_of (key, value)) given) }
        ensures refused { OnErr result (self.new ≡ self.old) }
    {
        C::key_law();
        cache_law::<C::Key, C::Value>();
        let _ = self.results.len();
        let Ok(handed) = self.results.keep(key, value) else {
            return Err(OutOfMemory);
        };
        let _ = self.results.len();
        match handed {
            None => Ok(None),
            Some(pair) => Ok(C::clause(pair.0, pair.1)),
        }
    }

    // The entry whose use lies the longest ago comes to the front where the nodes that it names are marked. Else it goes,
    // and its clause is retired.
    fn turn<S: Sink + Drop>(&mut self, table: &mut Table<S>, marks: &Marks)
        requires sound { IsSound table.old }
        requires may { (last : C.Key × C.Value) → last_of self.old.results.entries ≡ Some last → MayRetire table.old (C.entry_of last) }
        ensures cache { (last : C.Key × C.Value) → last_of self.old.results.entries ≡ Some last
            → HasTurn C.entry_of marks.now C.Key.eq self.old.results self.new.results last }
        ensures table { (last : C.Key × C.Value) → last_of self.old.results.entries ≡ Some last
            → RetiresTurn C.entry_of marks.now table.old table.new last }
    {
        let Some(last) = self.results.last() else {
            return;
        };
        if C::are_marked(marks, last.0, last.1) {
            self.results.touch(&last.0);
            return;
        }
        let _ = self.results.pop_last();
        retire(table, C::clause(last.0, last.1));
    }
}

// As many turns as there are entries: what stays is in the order that it had, also in a cache of one entry, and no memory is taken.
impl<C: Computed> Purge for Results<C> {
    ghost entries = { λ cache. listed C.entry_of cache.results };

    ghost sizes = { λ cache. cache.results.capacity ∷ [] };

    fn purge<S: Sink + Drop>(&mut self, table: &mut Table<S>, marks: &Marks) {
        C::key_law();
        cache_turn_law::<C::Key, C::Value>();
        table_turn_law::<S, C::Key, C::Value>();
        'turns: for _ in 0..self.results.len() {
            self.turn(table, marks);
        }
    }
}
