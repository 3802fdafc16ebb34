// The terms of a runner, over their table and caches.
ghost use Rattle.std.specs.Prelude.{◌≡◌, []};

use crate::caches::Caches;
use crate::held::HeldTerm;
use crate::reading::Reading;
use clause_ledger::Ledger;
use host_io::Sink;
use node_table::Table;
use std::alloc::Global;
use std::mem::forget;

/// The terms that are out, over their table.
#[derive(Drop)]
pub struct Terms<S: Sink + Drop> {
    pub table: Table<S>,
    pub caches: Caches,
    /// Each with its unit.
    pub out: Vec<HeldTerm>,
    /// How many nodes the last reclamation left.
    pub left: u32,
}

impl<S: Sink + Drop> Terms<S> {
    /// No term is out, over a table without nodes and empty caches.
    pub(crate) fn new(alloc: Global, table: Table<S>, caches: Caches) -> Self
        ensures table { result.table ≡ table }
        ensures caches { result.caches ≡ caches }
        ensures out { result.out.items ≡ [] }
        ensures left { result.left ≡ 0 }
    {
        Terms {
            table,
            caches,
            out: Vec::new(alloc),
            left: 0,
        }
    }

    /// What was used so far, before a plan of so many moves.
    pub(crate) fn reading(&self, all_moves: usize) -> Reading {
        Reading {
            moves: 0,
            all_moves,
            nodes: self.table.live(),
            most_nodes: self.table.most(),
            copies: 0,
            lookups: self.caches.lookups(),
        }
    }

    /// The ledger. The memory of the caches stays taken until the process ends: to let go of entries one by one takes longer than
    /// some runs.
    pub(crate) fn into_ledger(self) -> Ledger<S>
        ensures { result ≡ self.table.book }
    {
        let Terms {
            table,
            caches,
            out: _,
            left: _,
        } = self;
        forget(caches);
        table.into_ledger()
    }
}
