// Giving nodes back that no root reaches.
ghost use Rattle.std.specs.Prelude.{◌≡◌, ◌≢◌, ◌⊎◌, ◌+◌, Contains, Err, IsTrue, IfErr, IfOk, OnErr, OnOk};
ghost use Rattle.node_table.specs.declared.error.TableError.TheVariants.{OutOfMemory, WriteFault};
ghost use Rattle.node_table.specs.declared.node.Node.{Node as NodeValue};
ghost use Rattle.node_table.specs.Diagram.{is_node};
ghost use Rattle.node_table.specs.Progress.{Leaves, error_of};
ghost use Rattle.node_table.specs.Table.{IsSound, live_nodes};
ghost use Rattle.operations.specs.Entries.{Fits};
ghost use Rattle.reclaim.specs.Reclaimed.{MayReclaim, Reclaims};

use host_io::Sink;
use node_table::{Node, Table, TableError, steps_law};
use operations::{Purge, entry_law, purge_law};

/// Gives back the nodes that no root reaches, with their clauses; the caches forget the entries that name them. Answers how
/// many nodes there were. Want of memory changes nothing.
pub fn reclaim<S: Sink + Drop, P: Purge>(
    table: &mut Table<S>,
    roots: &[Node],
    caches: &mut P,
) -> Result<u32, TableError>
    requires sound { IsSound table.old }
    requires fits { Fits table.old (P.entries caches.old) }
    requires roots { (root : NodeValue) → Contains roots.now root → IsTrue (is_node table.old.graph root) }
    requires may { MayReclaim table.old (P.entries caches.old) roots.now }
    ensures reclaims { OnOk result (Reclaims table.old table.new roots.now (P.entries caches.old) (P.entries caches.new)) }
    ensures count { IfOk result (λ count. live_nodes table.new.graph + count ≡ live_nodes table.old.graph) }
    ensures memory { result ≡ Err OutOfMemory → (table.new ≡ table.old) × (caches.new ≡ caches.old) }
    // However it ends, no clause was added, and the caches may have as many entries as before.
    ensures top { table.new.book.state.top ≡ table.old.book.state.top }
    ensures sizes { P.sizes caches.new ≡ P.sizes caches.old }
    // A refusal leaves the nodes as they were.
    ensures kept { OnErr result (table.new.graph ≡ table.old.graph) }
    ensures leaves { Leaves table.old table.new (error_of result) }
    ensures error { IfErr result (λ e. (e ≡ OutOfMemory) ⊎ (e ≡ WriteFault)) }
{
    entry_law::<S>();
    purge_law::<S>();
    steps_law::<S>();
    let marks = table.mark(roots)?;
    caches.purge(table, &marks);
    table.settle()?;
    let count = table.sweep(&marks)?;
    Ok(count)
}
