// The stack of quantified variables.
ghost use Rattle.std.specs.Prelude.{◌≡◌, ◌<◌, ◌≤◌, ◌^◌, ◌++◌, ℕ, [], ◌∷◌, Contains, IsTrue, IfOk, OnOk, OnErr, length, map, reverse};
ghost use Rattle.cnf_base.specs.Truth.{assignment_of};
ghost use Rattle.clause_terms.specs.Walk.{AreAlike};
ghost use Rattle.node_table.specs.declared.node.Node.{Node as NodeValue};
ghost use Rattle.reconstruction.specs.declared.entries.Entry.{Entry as EntryValue};
ghost use Rattle.reconstruction.specs.declared.entries.Kept.{Kept as KeptValue};
ghost use Rattle.reconstruction.specs.Entries.{kept_set};
ghost use Rattle.node_table.specs.Diagram.{Graph, KeepsNodes, is_node};
ghost use Rattle.reconstruction.specs.Copies.{AreCopies, KeepsCopies, copy_of};
ghost use Rattle.reconstruction.specs.SetBack.{set_cells_back};
ghost use Rattle.reconstruction.specs.Stack.{CopiesRecent, HaveCopies, SayTheSame, Stores, empty_stack, entry_of, stored_over};

use crate::cells::Cell;
use crate::copying::{copy_nodes, copy_of, forget};
use crate::entries::{Entry, Kept};
use crate::restore::set_all_back;
use crate::walker::Walker;
use clause_terms::Model;
use cnf_base::OutOfMemory;
use host_io::Sink;
use node_table::{Node, Table, growth_law};
use std::alloc::Global;

/// Quantified variables, the first one first, each with the term that it was quantified from: a node of a table, and once it
/// is stored a copy of it, in cells of 12 bytes that are never given back.
#[derive(Drop)]
pub struct Reconstruction {
    recent: Vec<Kept>,
    stored: Vec<Entry>,
    cells: Vec<Cell>,
    // The key of each live node's copy, by the keys of nodes; 0 where there is none.
    copies: Vec<u32>,
}

impl std::marker::Model for Reconstruction {
    ghost use Rattle.reconstruction.specs.Stack.{IsStack, Stack};

    ghost Value = { Stack };

    ghost view = { λ r. record { recent = r.recent.items; stored = r.stored.items; cells = r.cells.items; copies = r.copies.items } };

    ghost invariant = { λ r. IsStack r.cells.items r.stored.items r.copies.items };
}

impl Reconstruction {
    /// No variable, no cell.
    pub fn new(alloc: Global) -> Self
        ensures { result ≡ empty_stack }
    {
        Reconstruction {
            recent: Vec::new(alloc),
            stored: Vec::new(alloc),
            cells: Vec::new(alloc),
            copies: Vec::new(alloc),
        }
    }

    /// Appends a variable and the node that it is quantified from. A refusal changes nothing.
    pub fn push(&mut self, variable: u32, node: Node) -> Result<(), OutOfMemory>
        ensures ok { OnOk result (self.new ≡ record self.old { recent = self.old.recent ++ kept_set 0 (variable ∷ []) node }) }
        ensures err { OnErr result (self.new ≡ self.old) }
    {
        self.recent.push(Kept {
            variable,
            later: 0,
            node,
        })?;
        Ok(())
    }

    /// Appends the variables of a set, the last in the order first, and the node that they are quantified from at once. A refusal
    /// changes nothing.
    pub fn push_set(&mut self, set: &[u32], node: Node) -> Result<(), OutOfMemory>
        requires { length set.now < 2 ^ 32 }
        ensures ok { OnOk result (self.new ≡ record self.old { recent = self.old.recent ++ kept_set 0 set.now node }) }
        ensures err { OnErr result (self.new ≡ self.old) }
    {
        let kept = kept_set(*self.recent.allocator(), set, node)?;
        self.recent.extend_from_slice(kept.as_slice())?;
        Ok(())
    }

    /// How many cells there are.
    pub fn cell_count(&self) -> usize
        ensures { result ≡ length self.now.cells }
    {
        self.cells.len()
    }

    /// The nodes that aren't stored yet, which a table must keep until they are.
    pub fn nodes(&self) -> Result<Vec<Node>, OutOfMemory>
        ensures { IfOk result (λ nodes. nodes.items ≡ map (λ kept. kept.node) self.now.recent) }
    {
        nodes_of(*self.recent.allocator(), self.recent.as_slice())
    }

    /// Copies the recent terms out of the table, each node that has no copy yet once. A refusal leaves all variables with the
    /// terms that they had.
    pub fn store<S: Sink + Drop>(&mut self, table: &Table<S>) -> Result<(), OutOfMemory>
        requires copies { AreCopies table.now.graph self.old.cells self.old.copies }
        requires nodes { (kept : KeptValue) → Contains self.old.recent kept → IsTrue (is_node table.now.graph kept.node) }
        ensures stores { OnOk result (Stores table.now.graph self.old self.new) }
        ensures refused { OnErr result ((self.new.recent ≡ self.old.recent) × (self.new.stored ≡ self.old.stored)) }
        // However it ends, what was stored says the same, and copies are copies.
        ensures same { SayTheSame self.old.cells self.new.cells self.old.stored }
        ensures copies { AreCopies table.now.graph self.new.cells self.new.copies }
        // A node that has a copy keeps it.
        ensures kept { KeepsCopies self.old.copies self.new.copies }
    {
        self.copy_recent(table)?;
        self.take_over()
    }

    // Copies what the recent nodes reach.
    fn copy_recent<S: Sink + Drop>(&mut self, table: &Table<S>) -> Result<(), OutOfMemory>
        requires copies { AreCopies table.now.graph self.old.cells self.old.copies }
        requires nodes { (kept : KeptValue) → Contains self.old.recent kept → IsTrue (is_node table.now.graph kept.node) }
        ensures copied { CopiesRecent table.now.graph self.old self.new }
        ensures all { OnOk result (HaveCopies self.new) }
    {
        let nodes = nodes_of(*self.recent.allocator(), self.recent.as_slice())?;
        copy_nodes(table, nodes.as_slice(), &mut self.cells, &mut self.copies)
    }

    // The recent entries become stored ones, of their nodes' copies. A refusal changes nothing.
    fn take_over(&mut self) -> Result<(), OutOfMemory>
        ensures ok { OnOk result (self.new ≡ stored_over self.old) }
        ensures err { OnErr result (self.new ≡ self.old) }
        ensures same { (self.new.cells ≡ self.old.cells) × (self.new.copies ≡ self.old.copies) }
    {
        let entries = entries_of(
            *self.recent.allocator(),
            self.recent.as_slice(),
            self.copies.as_slice(),
        )?;
        self.stored.extend_from_slice(entries.as_slice())?;
        self.recent.clear();
        Ok(())
    }

    /// Forgets the copies of nodes that the table has given back, so that others may have their keys: to be called behind each
    /// sweep. It takes no memory.
    pub fn forget_dead<S: Sink + Drop>(&mut self, table: &Table<S>)
        ensures copies { (before : Graph) → KeepsNodes table.now.graph before → AreCopies before self.old.cells self.old.copies
            → AreCopies table.now.graph self.new.cells self.new.copies }
        // The copies of live nodes are known still.
        ensures still { (node : NodeValue) → IsTrue (is_node table.now.graph node) → copy_of self.new.copies node
            ≡ copy_of self.old.copies node }
        ensures same { self.new ≡ record self.old { copies = self.new.copies } }
    {
        growth_law();
        table.table_law();
        forget(table, &mut self.copies);
    }

    /// Sets the variables back in an assignment, the last one first: each becomes false where its term is true so, else true. That of
    /// a set's variable is true where some values of those behind it make the set's term true. All have to be stored. A refusal gives
    /// the values up.
    pub fn set_back(&self, values: &mut Model) -> Result<(), OutOfMemory>
        requires none_recent { self.now.recent ≡ [] }
        requires variables { (entry : EntryValue) → Contains self.now.stored entry
            → (0 < entry.variable) × (entry.variable ≤ length values.old) }
        ensures one_each { length values.new ≡ length values.old }
        ensures set { OnOk result (AreAlike (assignment_of values.new) (set_cells_back self.now.cells (assignment_of values.old)
            (reverse self.now.stored))) }
    {
        let mut walker = Walker::new(*self.stored.allocator());
        set_all_back(
            &mut walker,
            self.cells.as_slice(),
            self.stored.as_slice(),
            values,
        )
    }
}

fn kept_set(alloc: Global, set: &[u32], node: Node) -> Result<Vec<Kept>, OutOfMemory>
    requires { length set.now < 2 ^ 32 }
    ensures { IfOk result (λ kept. kept.items ≡ kept_set 0 set.now node) }
{
    let mut kept = Vec::new(alloc);
    'set: for place in 0..set.len() {
        kept.push(Kept {
            variable: set[place],
            later: place as u32,
            node,
        })?;
    }
    Ok(kept)
}

fn nodes_of(alloc: Global, recent: &[Kept]) -> Result<Vec<Node>, OutOfMemory>
    ensures { IfOk result (λ nodes. nodes.items ≡ map (λ kept. kept.node) recent.now) }
{
    let mut nodes = Vec::new(alloc);
    'recent: for kept in recent {
        nodes.push(kept.node)?;
    }
    Ok(nodes)
}

// The variables with the copies of their nodes.
fn entries_of(alloc: Global, recent: &[Kept], copies: &[u32]) -> Result<Vec<Entry>, OutOfMemory>
    ensures { IfOk result (λ entries. entries.items ≡ map (entry_of copies.now) recent.now) }
{
    let mut entries = Vec::new(alloc);
    'recent: for kept in recent {
        entries.push(Entry {
            variable: kept.variable,
            later: kept.later,
            key: copy_of(copies, kept.node),
        })?;
    }
    Ok(entries)
}
