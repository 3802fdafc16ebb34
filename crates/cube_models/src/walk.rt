// The search for a way down to True: depth first, low first. A node that has none under the cube is marked, put on a list behind those of
// its children that were looked at, and looked at once.
ghost use Rattle.std.specs.Prelude.{◌≡◌, ◌≢◌, ◌⊎◌, ◌↔◌, ◌<◌, ℕ, true, false, [], IsTrue, IfOk, Some, length, slice_index_or};
ghost use Rattle.node_table.specs.declared.node.Branch.{Branch as BranchValue};
ghost use Rattle.node_table.specs.declared.node.Node.TheVariants.{True};
ghost use Rattle.node_table.specs.Diagram.{branch_at, is_node, levels};
ghost use Rattle.cube_models.specs.Denied.{AreDenied, IsShutBy};
ghost use Rattle.cube_models.specs.Way.{AreMarks, IsDead, Leads, is_marked, is_open, next_in};

use crate::signs::{allows, sign_of};
use cnf_base::OutOfMemory;
use host_io::Sink;
use node_table::{Node, NodeKey, Table, cofactor_law};

/// Whether there is a way to True. Then the path has the keys of its nodes. Else those of all nodes that were looked at are on the list of
/// the dead.
pub fn find_way<S: Sink + Drop>(
    table: &Table<S>,
    node: Node,
    signs: &[Option<bool>],
    round: u32,
    marks: &mut Vec<u32>,
    path: &mut Vec<u32>,
    dead: &mut Vec<u32>,
) -> Result<bool, OutOfMemory>
    requires node { IsTrue (is_node table.now.graph node) }
    requires one_each { length signs.now ≡ levels table.now.graph }
    requires room { (key : ℕ) (branch : BranchValue) → branch_at table.now.graph key ≡ Some branch → key < length marks.old.items }
    requires unmarked { (key : ℕ) → slice_index_or marks.old.items key 0 ≢ round }
    ensures found { IfOk result (λ found. IsTrue found → Leads table.now.graph (next_in table.now.graph signs.now marks.new.items round)
        node path.new.items True) }
    ensures marks { IfOk result (λ _. AreMarks table.now.graph signs.now round marks.new.items) }
    ensures none { IfOk result (λ found. found ≡ false → IsDead table.now.graph signs.now node) }
    ensures denied { IfOk result (λ found. found ≡ false → AreDenied table.now.graph signs.now [] dead.new.items) }
    ensures shut { IfOk result (λ found. found ≡ false → IsShutBy dead.new.items node) }
    ensures marked { (key : ℕ) → (slice_index_or marks.new.items key 0 ≡ slice_index_or marks.old.items key 0)
        ⊎ (slice_index_or marks.new.items key 0 ≡ round) }
{
    cofactor_law();
    table.table_law();
    path.clear();
    dead.clear();
    let Node::Inner(first) = node else {
        return Ok(is_true(node));
    };
    path.push(first.index)?;
    'nodes: while let Some(key) = path.pop() {
        let Some(child) = next_node(table, key, signs, round, marks) else {
            marks[key as usize] = round;
            dead.push(key)?;
            continue;
        };
        path.push(key)?;
        let Node::Inner(below) = child else {
            return Ok(true);
        };
        path.push(below.index)?;
    }
    Ok(false)
}

// Which child is next on the way down from the node of this key.
#[inline(always)]
fn next_node<S: Sink + Drop>(
    table: &Table<S>,
    key: u32,
    signs: &[Option<bool>],
    round: u32,
    marks: &[u32],
) -> Option<Node>
    requires one_each { length signs.now ≡ levels table.now.graph }
    ensures { (branch : BranchValue) → branch_at table.now.graph key ≡ Some branch
        → result ≡ next_in table.now.graph signs.now marks.now round branch }
{
    table.table_law();
    let (level, high, low) = table.parts(Node::Inner(NodeKey { index: key }))?;
    let sign = sign_of(signs, table.order()[level as usize]);
    if is_open(sign, false, low, round, marks) {
        return Some(low);
    }
    if is_open(sign, true, high, round, marks) {
        return Some(high);
    }
    None
}

/// Whether a child is open.
#[inline(always)]
pub fn is_open(sign: Option<bool>, value: bool, child: Node, round: u32, marks: &[u32]) -> bool
    ensures { result ≡ is_open (is_marked marks.now round) sign value child }
{
    allows(sign, value) && !is_marked(child, round, marks)
}

// Whether it is known that a node is dead.
#[inline(always)]
fn is_marked(node: Node, round: u32, marks: &[u32]) -> bool
    ensures { result ≡ is_marked marks.now round node }
{
    match node {
        Node::False => true,
        Node::True => false,
        Node::Inner(key) => mark_of(marks, key.index as usize) == round,
    }
}

// The mark of a key, 0 where there is none.
#[inline(always)]
fn mark_of(marks: &[u32], key: usize) -> u32
    ensures { result ≡ slice_index_or marks.now key 0 }
{
    match marks.get(key) {
        Some(mark) => *mark,
        None => 0,
    }
}

fn is_true(node: Node) -> bool
    ensures { IsTrue result ↔ (node ≡ True) }
{
    matches!(node, Node::True)
}
