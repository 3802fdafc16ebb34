// What reclamation wants of caches.
ghost use Rattle.std.specs.Prelude.{◌≡◌, ℕ, None, List};
ghost use Rattle.node_table.specs.Progress.{Steps};
ghost use Rattle.node_table.specs.Table.{IsSound};
ghost use Rattle.operations.specs.Entries.{Entry, Fits};
ghost use Rattle.operations.specs.Purged.{IsPurged};

use host_io::Sink;
use node_table::{Marks, Table};

/// Caches that can be purged of entries over unmarked nodes.
pub trait Purge {
    /// The entries of all of them as one list.
    ghost entries: { Self → List Entry };

    /// How many entries each of them may have.
    ghost sizes: { Self → List ℕ };

    /// Lets entries go that name an unmarked node, and retires their clauses. It takes no memory.
    fn purge<S: Sink + Drop>(&mut self, table: &mut Table<S>, marks: &Marks)
        requires sound { IsSound table.old }
        requires fits { Fits table.old (entries self.old) }
        ensures purged { IsPurged table.old table.new marks.now (entries self.old) (entries self.new) }
        ensures sizes { sizes self.new ≡ sizes self.old }
        ensures steps { Steps table.old table.new 0 None };
}
