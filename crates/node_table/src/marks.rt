// Marks of the nodes that are reachable: a walk with a stack, as in the mark phase of a collector. (McCarthy: Recursive
// Functions of Symbolic Expressions, 1960.) Each node is looked at once.
ghost use Rattle.std.specs.Prelude.{◌≡◌, ◌<◌, ℕ, false, Contains, Some, IsTrue, IfOk, OnOk, length, slice_index_or};
ghost use Rattle.node_table.specs.declared.node.Node.{Node as NodeValue};
ghost use Rattle.node_table.specs.Diagram.{branch_at, is_node};
ghost use Rattle.node_table.specs.Marks.{is_marked, AreMarks, AreReached};
ghost use Rattle.node_table.specs.Marking.{HasMark, HaveMarks, marking, with_children, with_key, with_node};

use crate::diagram::Diagram;
use crate::node::{Node, NodeKey};
use cnf_base::OutOfMemory;
use std::alloc::Global;
use std::marker::Model;

/// Which nodes are reachable from some roots.
#[derive(Drop)]
pub struct Marks {
    marked: Vec<bool>,
}

impl Model for Marks {
    ghost use Rattle.std.specs.Prelude.{List, Bool};

    ghost Value = { List Bool };

    ghost view = { λ m. m.marked.items };
}

impl Marks {
    /// Marks the nodes of a diagram that the roots reach.
    pub(crate) fn of(alloc: Global, diagram: &Diagram, roots: &[Node]) -> Result<Marks, OutOfMemory>
        requires roots { (root : NodeValue) → Contains roots.now root → IsTrue (is_node diagram.now root) }
        ensures reached { IfOk result (AreReached diagram.now roots.now) }
        ensures marks { IfOk result (AreMarks diagram.now) }
    {
        diagram.diagram_law();
        let mut marked = Vec::new(alloc);
        marked.resize(diagram.key_end() as usize, false)?;
        // The keys of marked nodes whose children are still to be marked.
        let mut waiting = Vec::new(alloc);
        'roots: for root in roots {
            mark_node(*root, &mut marked, &mut waiting)?;
        }
        'nodes: while let Some(key) = waiting.pop() {
            mark_children(diagram, key, &mut marked, &mut waiting)?;
        }
        Ok(Marks { marked })
    }

    /// Whether the node is marked. A constant always is.
    pub fn is_marked(&self, node: Node) -> bool
        ensures { result ≡ is_marked self.now node }
    {
        match node {
            Node::False | Node::True => true,
            Node::Inner(key) => is_set(self.marked.as_slice(), key.index as usize),
        }
    }

    // The marks by their keys, none behind the last one.
    pub(crate) fn by_key(&self) -> &[bool]
        ensures { result.now ≡ self.now }
    {
        self.marked.as_slice()
    }
}

/// The mark of a key, false where there is none.
pub(crate) fn is_set(marked: &[bool], key: usize) -> bool
    ensures { result ≡ slice_index_or marked.now key false }
{
    match marked.get(key) {
        Some(mark) => *mark,
        None => false,
    }
}

// Marks the children of the inner node of a key.
fn mark_children(
    diagram: &Diagram,
    key: u32,
    marked: &mut Vec<bool>,
    waiting: &mut Vec<u32>,
) -> Result<(), OutOfMemory>
    requires { HaveMarks (length marked.old.items) (branch_at diagram.now key) }
    ensures { OnOk result (marking marked.new.items waiting.new.items
        ≡ with_children (branch_at diagram.now key) (marking marked.old.items waiting.old.items)) }
{
    match diagram.branch(Node::Inner(NodeKey { index: key })) {
        None => Ok(()),
        Some(branch) => {
            mark_node(branch.high, marked, waiting)?;
            mark_node(branch.low, marked, waiting)
        }
    }
}

// Marks a node. An inner one that wasn't marked waits then.
fn mark_node(node: Node, marked: &mut Vec<bool>, waiting: &mut Vec<u32>) -> Result<(), OutOfMemory>
    requires { HasMark (length marked.old.items) node }
    ensures { OnOk result (marking marked.new.items waiting.new.items ≡ with_node node (marking marked.old.items waiting.old.items)) }
{
    match node {
        Node::False | Node::True => Ok(()),
        Node::Inner(key) => mark_key(key.index, marked, waiting),
    }
}

fn mark_key(key: u32, marked: &mut Vec<bool>, waiting: &mut Vec<u32>) -> Result<(), OutOfMemory>
    requires { key < length marked.old.items }
    ensures { OnOk result (marking marked.new.items waiting.new.items ≡ with_key key (marking marked.old.items waiting.old.items)) }
{
    if marked[key as usize] {
        return Ok(());
    }
    waiting.push(key)?;
    marked[key as usize] = true;
    Ok(())
}
