// The least assignment that makes a diagram true: at each node low unless low is False. Then the quantified variables, the
// last one first. (Bryant 1986, section 4; Bryant, Heule 2021, section 5.)
ghost use Rattle.std.specs.Prelude.{◌≡◌, ◌≢◌, ◌↔◌, ◌<◌, ◌≤◌, ℕ, Contains, IfOk, IsTrue, length, replicate, reverse, false};
ghost use Rattle.cnf_base.specs.Truth.{assignment_of};
ghost use Rattle.node_table.specs.declared.node.Node.{Node as NodeValue};
ghost use Rattle.node_table.specs.declared.node.Node.TheVariants.{False};
ghost use Rattle.node_table.specs.Diagram.{is_node, levels};
ghost use Rattle.node_table.specs.Value.{value_of};
ghost use Rattle.clause_terms.specs.Recovery.{IsLeast, IsRecoveredFrom, set_node_back, set_nodes_back};
ghost use Rattle.clause_terms.specs.Walk.{AreAlike, levels_of};

use crate::model::Model;
use crate::trail::Trail;
use cnf_base::OutOfMemory;
use host_io::Sink;
use node_table::{Node, Table, cofactor_law};
use std::alloc::Global;

/// The least assignment that makes the node true, and then the variables of the trail, the last one first: each becomes
/// false where the node beside it is true so, else true. Only want of memory is refused.
pub fn recover<S: Sink + Drop>(
    alloc: Global,
    table: &Table<S>,
    node: Node,
    trail: &Trail,
) -> Result<Model, OutOfMemory>
    requires node { IsTrue (is_node table.now.graph node) }
    requires some { node ≢ False }
    requires nodes { (kept : ℕ × NodeValue) → Contains trail.now kept → IsTrue (is_node table.now.graph kept.1) }
    requires variables { (kept : ℕ × NodeValue) → Contains trail.now kept → (0 < kept.0) × (kept.0 ≤ levels table.now.graph) }
    ensures recovered { IfOk result (IsRecoveredFrom table.now.graph node (reverse trail.now)) }
{
    let mut values = Vec::new(alloc);
    values.resize(table.order().len(), false)?;
    walk(table, node, &mut values);
    set_all_back(table, trail.as_slice(), &mut values);
    Ok(Model { values })
}

// Sets the variables on the way down.
fn walk<S: Sink + Drop>(table: &Table<S>, node: Node, values: &mut Vec<bool>)
    requires node { IsTrue (is_node table.now.graph node) }
    requires some { node ≢ False }
    requires all_false { values.old.items ≡ replicate (levels table.now.graph) false }
    ensures one_each { length values.new.items ≡ levels table.now.graph }
    ensures least { IsLeast (levels table.now.graph) (λ a. value_of table.now.graph a node) (levels_of table.now.graph values.new.items) }
{
    cofactor_law();
    table.table_law();
    let mut node = node;
    'down: while let Some((level, high, low)) = table.parts(node) {
        if is_false(low) {
            let variable = table.order()[level as usize];
            values[variable as usize - 1] = true;
            node = high;
        } else {
            node = low;
        }
    }
}

fn is_false(node: Node) -> bool
    ensures { IsTrue result ↔ (node ≡ False) }
{
    matches!(node, Node::False)
}

// Sets the variables of a trail back, the last one first.
fn set_all_back<S: Sink + Drop>(table: &Table<S>, trail: &[(u32, Node)], values: &mut Vec<bool>)
    requires nodes { (kept : ℕ × NodeValue) → Contains trail.now kept → IsTrue (is_node table.now.graph kept.1) }
    requires variables { (kept : ℕ × NodeValue) → Contains trail.now kept → (0 < kept.0) × (kept.0 ≤ levels table.now.graph) }
    requires one_each { length values.old.items ≡ levels table.now.graph }
    ensures one_each { length values.new.items ≡ levels table.now.graph }
    ensures set { AreAlike (assignment_of values.new.items) (set_nodes_back table.now.graph (assignment_of values.old.items)
        (reverse trail.now)) }
{
    table.table_law();
    'back: for place in (0..trail.len()).rev() {
        let (variable, node) = trail[place];
        set_back(table, variable, node, values);
    }
}

// Makes a variable false where the node is true so, else true.
fn set_back<S: Sink + Drop>(table: &Table<S>, variable: u32, node: Node, values: &mut Vec<bool>)
    requires node { IsTrue (is_node table.now.graph node) }
    requires some { 0 < variable }
    requires within { variable ≤ levels table.now.graph }
    requires one_each { length values.old.items ≡ levels table.now.graph }
    ensures one_each { length values.new.items ≡ levels table.now.graph }
    ensures set { AreAlike (assignment_of values.new.items) (set_node_back table.now.graph (assignment_of values.old.items)
        (variable, node)) }
{
    table.table_law();
    let place = variable as usize - 1;
    values[place] = false;
    let is_true = table.value(node, values.as_slice());
    values[place] = !is_true;
}
