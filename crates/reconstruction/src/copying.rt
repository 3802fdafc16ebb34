// Nodes of a table are copied into cells: those that some nodes reach and that have no copy yet, from the bottom up.
ghost use Rattle.std.specs.Prelude.{◌≡◌, ◌<◌, ◌≤◌, ◌^◌, ◌&&◌, ℕ, not, Contains, IsPermutation, IsTrue, IfOk, OnErr, OnOk, length};
ghost use Rattle.std.specs.Prelude.{slice_index_or};
ghost use Rattle.std.specs.List.Sorted.{IsNonDecreasingBy};
ghost use Rattle.node_table.specs.declared.node.Node.{Node as NodeValue};
ghost use Rattle.node_table.specs.Diagram.{is_node};
ghost use Rattle.node_table.specs.Made.{inner};
ghost use Rattle.node_table.specs.Marks.{AreMarks, is_marked};
ghost use Rattle.reconstruction.specs.declared.copying.Uncopied.{Uncopied as UncopiedValue};
ghost use Rattle.reconstruction.specs.Cells.{most_cells};
ghost use Rattle.reconstruction.specs.Copies.{AreCopies, AreSound, Copies, Forgets, KeepsCopies, copy_of, has_copy};
ghost use Rattle.reconstruction.specs.Copying.{AreAllMarked, AreUncopied, IsCopied, IsKnown};

use crate::cells::{Cell, append};
use cnf_base::OutOfMemory;
use host_io::Sink;
use node_table::{Marks, Node, NodeKey, Table, cofactor_law, reach_law};
use std::alloc::Global;

/// A node without a copy, by its key, with its level.
#[derive(Clone, Copy)]
pub struct Uncopied {
    pub level: u32,
    pub key: u32,
}

/// Copies what the nodes reach, so that each of them has a copy. A refusal may leave some copied.
pub fn copy_nodes<S: Sink + Drop>(
    table: &Table<S>,
    nodes: &[Node],
    cells: &mut Vec<Cell>,
    copies: &mut Vec<u32>,
) -> Result<(), OutOfMemory>
    requires nodes { (node : NodeValue) → Contains nodes.now node → IsTrue (is_node table.now.graph node) }
    requires sound { AreSound cells.old.items copies.old.items }
    requires copies { AreCopies table.now.graph cells.old.items copies.old.items }
    ensures copies { Copies table.now.graph cells.old.items copies.old.items cells.new.items copies.new.items }
    ensures all { OnOk result ((node : NodeValue) → Contains nodes.now node → IsTrue (has_copy copies.new.items node)) }
    ensures kept { KeepsCopies copies.old.items copies.new.items }
{
    reach_law();
    make_room(copies, table.key_end())?;
    let marks = table.mark(nodes)?;
    let uncopied = uncopied_nodes(*copies.allocator(), table, &marks, copies.as_slice())?;
    copy_each(table, uncopied.as_slice(), cells, copies)
}

// A place for each key below an end.
fn make_room(copies: &mut Vec<u32>, end: u32) -> Result<(), OutOfMemory>
    requires { length copies.old.items < 2 ^ 32 }
    ensures same { (key : ℕ) → slice_index_or copies.new.items key 0 ≡ slice_index_or copies.old.items key 0 }
    ensures room { OnOk result (end ≤ length copies.new.items) }
    ensures few { length copies.new.items < 2 ^ 32 }
{
    if copies.len() >= end as usize {
        return Ok(());
    }
    copies.resize(end as usize, 0)?;
    Ok(())
}

// The marked nodes that have no copy, the top one first.
fn uncopied_nodes<S: Sink + Drop>(
    alloc: Global,
    table: &Table<S>,
    marks: &Marks,
    copies: &[u32],
) -> Result<Vec<Uncopied>, OutOfMemory>
    requires { AreMarks table.now.graph marks.now }
    ensures uncopied { IfOk result (λ uncopied. AreUncopied table.now.graph copies.now uncopied.items) }
    ensures all { IfOk result (λ uncopied. (node : NodeValue) → IsTrue (is_marked marks.now node) → IsKnown copies.now uncopied.items node) }
{
    let mut uncopied = marked_nodes(alloc, table, marks, copies)?;
    sort_by_level(&mut uncopied);
    Ok(uncopied)
}

// The marked nodes that have no copy, by their keys.
fn marked_nodes<S: Sink + Drop>(
    alloc: Global,
    table: &Table<S>,
    marks: &Marks,
    copies: &[u32],
) -> Result<Vec<Uncopied>, OutOfMemory>
    requires { AreMarks table.now.graph marks.now }
    ensures { IfOk result (λ uncopied. AreAllMarked table.now.graph marks.now copies.now uncopied.items) }
{
    let mut uncopied = Vec::new(alloc);
    'keys: for index in 0..table.key_end() {
        let node = Node::Inner(NodeKey { index });
        if !is_wanted(marks, copies, node) {
            continue;
        }
        uncopied.push(Uncopied {
            level: table.level_of(node),
            key: index,
        })?;
    }
    Ok(uncopied)
}

// Whether a node is marked and has no copy.
fn is_wanted(marks: &Marks, copies: &[u32], node: Node) -> bool
    ensures { result ≡ (is_marked marks.now node && not (has_copy copies.now node)) }
{
    let marked = marks.is_marked(node);
    let copied = has_copy(copies, node);
    marked && !copied
}

// Whether a node has a copy. A constant always has.
fn has_copy(copies: &[u32], node: Node) -> bool
    ensures { result ≡ has_copy copies.now node }
{
    match node {
        Node::False | Node::True => true,
        Node::Inner(_) => copy_of(copies, node) > 0,
    }
}

/// The key of a node's copy, 0 where it has none.
pub fn copy_of(copies: &[u32], node: Node) -> u32
    ensures { result ≡ copy_of copies.now node }
{
    match node {
        Node::False => 0,
        Node::True => 1,
        Node::Inner(key) => at(copies, key.index as usize),
    }
}

// What stands at a place, 0 where there is none.
fn at(copies: &[u32], key: usize) -> u32
    ensures { result ≡ slice_index_or copies.now key 0 }
{
    match copies.get(key) {
        Some(copy) => *copy,
        None => 0,
    }
}

fn sort_by_level(uncopied: &mut Vec<Uncopied>)
    ensures permutation { IsPermutation uncopied.old.items uncopied.new.items }
    ensures sorted { IsNonDecreasingBy (λ (node : UncopiedValue). node.level) uncopied.new.items }
{
    uncopied.sort_unstable_by_key(|node| node.level);
}

// Copies nodes, from the last one to the first, so that children come before their parents.
fn copy_each<S: Sink + Drop>(
    table: &Table<S>,
    uncopied: &[Uncopied],
    cells: &mut Vec<Cell>,
    copies: &mut Vec<u32>,
) -> Result<(), OutOfMemory>
    requires uncopied { AreUncopied table.now.graph copies.old.items uncopied.now }
    requires room { (entry : UncopiedValue) → Contains uncopied.now entry → entry.key < length copies.old.items }
    requires sound { AreSound cells.old.items copies.old.items }
    requires copies { AreCopies table.now.graph cells.old.items copies.old.items }
    ensures copies { Copies table.now.graph cells.old.items copies.old.items cells.new.items copies.new.items }
    ensures all { OnOk result ((node : NodeValue) → IsKnown copies.old.items uncopied.now node → IsTrue (has_copy copies.new.items node)) }
    ensures kept { KeepsCopies copies.old.items copies.new.items }
{
    cofactor_law();
    table.table_law();
    'nodes: for place in (0..uncopied.len()).rev() {
        copy_node(table, uncopied[place].key, cells, copies)?;
    }
    Ok(())
}

// Copies a node whose children have copies. A refusal changes nothing.
fn copy_node<S: Sink + Drop>(
    table: &Table<S>,
    key: u32,
    cells: &mut Vec<Cell>,
    copies: &mut Vec<u32>,
) -> Result<(), OutOfMemory>
    requires stands { IsTrue (is_node table.now.graph (inner key)) }
    requires room { key < length copies.old.items }
    requires few { length cells.old.items ≤ most_cells }
    ensures ok { OnOk result (IsCopied table.now.graph key cells.old.items copies.old.items cells.new.items copies.new.items) }
    ensures few { length cells.new.items ≤ most_cells }
    ensures err { OnErr result ((cells.new.items ≡ cells.old.items) × (copies.new.items ≡ copies.old.items)) }
{
    table.table_law();
    let Some((level, high, low)) = table.parts(Node::Inner(NodeKey { index: key })) else {
        return Ok(());
    };
    let cell = Cell {
        variable: table.order()[level as usize],
        high: copy_of(copies.as_slice(), high),
        low: copy_of(copies.as_slice(), low),
    };
    let copy = append(cells, cell)?;
    copies[key as usize] = copy;
    Ok(())
}

/// Forgets the copies of nodes that the table doesn't have.
pub fn forget<S: Sink + Drop>(table: &Table<S>, copies: &mut Vec<u32>)
    requires { length copies.old.items < 2 ^ 32 }
    ensures forgets { Forgets table.now.graph copies.old.items copies.new.items }
    ensures places { length copies.new.items ≡ length copies.old.items }
{
    'keys: for key in 0..copies.len() {
        let node = Node::Inner(NodeKey { index: key as u32 });
        let Some(_) = table.parts(node) else {
            copies[key] = 0;
            continue;
        };
    }
}
