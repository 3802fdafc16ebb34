// The values along a way: as the cube says, else false; true at the nodes that the way leaves by their high children.
ghost use Rattle.std.specs.Prelude.{◌≡◌, IfOk, IsTrue, length, map};
ghost use Rattle.node_table.specs.declared.node.Node.{Node as NodeValue};
ghost use Rattle.node_table.specs.declared.node.Node.TheVariants.{True};
ghost use Rattle.node_table.specs.Diagram.{is_node, levels};
ghost use Rattle.cube_models.specs.Way.{AreMarks, IsDown, Leads, is_on, levels_of, next_in};

use crate::signs::{is_on, sign_of};
use crate::walk::is_open;
use cnf_base::OutOfMemory;
use host_io::Sink;
use node_table::{Node, NodeKey, Table, cofactor_law};

/// The values as they are assumed, else false.
pub fn assumed(values: &mut Vec<bool>, signs: &[Option<bool>]) -> Result<(), OutOfMemory>
    ensures { IfOk result (λ _. values.new.items ≡ map is_on signs.now) }
{
    values.clear();
    'signs: for sign in signs {
        values.push(is_on(*sign))?;
    }
    Ok(())
}

/// Sets the variables of the nodes that a way to True leaves by their high children.
pub fn raise<S: Sink + Drop>(
    table: &Table<S>,
    signs: &[Option<bool>],
    round: u32,
    marks: &[u32],
    path: &[u32],
    values: &mut Vec<bool>,
)
    requires one_each { length signs.now ≡ levels table.now.graph }
    requires marks { AreMarks table.now.graph signs.now round marks.now }
    requires as_assumed { values.old.items ≡ map is_on signs.now }
    ensures one_each { length values.new.items ≡ levels table.now.graph }
    ensures down { (node : NodeValue) → IsTrue (is_node table.now.graph node)
        → Leads table.now.graph (next_in table.now.graph signs.now marks.now round) node path.now True
        → IsDown table.now.graph signs.now (levels_of table.now.graph values.new.items) node True }
{
    cofactor_law();
    table.table_law();
    'nodes: for key in path {
        let Some((level, _high, low)) = table.parts(Node::Inner(NodeKey { index: *key })) else {
            continue;
        };
        let variable = table.order()[level as usize];
        if is_open(sign_of(signs, variable), false, low, round, marks) {
            continue;
        }
        values[variable as usize - 1] = true;
    }
}
