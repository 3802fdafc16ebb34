// The two operands of an operation, split by the earlier of their variables. (Bryant: Graph-Based Algorithms for Boolean
// Function Manipulation, 1986, section 4.3: apply.)
ghost use Rattle.std.specs.Prelude.{◌≡◌, ◌≢◌, ◌≤◌, IsTrue};
ghost use Rattle.node_table.specs.Diagram.{IsReduced, is_node};
ghost use Rattle.operations.specs.Operands.{AreSplit, IsInner};

use host_io::Sink;
use node_table::{Node, Table};

/// Two operands, the level of the earlier one, and the cofactors of both there.
#[derive(Clone, Copy)]
pub struct Operands {
    pub u: Node,
    pub v: Node,
    pub level: u32,
    pub u_high: Node,
    pub u_low: Node,
    pub v_high: Node,
    pub v_low: Node,
}

/// Splits two inner nodes that differ.
pub fn split<S: Sink + Drop>(table: &Table<S>, u: Node, v: Node) -> Operands
    requires first { IsInner table.now.graph u }
    requires second { IsInner table.now.graph v }
    requires differ { u ≢ v }
    ensures split { AreSplit table.now.graph result }
    ensures operands { (result.u ≡ u) × (result.v ≡ v) }
{
    let level = table.level_of(u).min(table.level_of(v));
    let (u_high, u_low) = table.cofactors(level, u);
    let (v_high, v_low) = table.cofactors(level, v);
    Operands {
        u,
        v,
        level,
        u_high,
        u_low,
        v_high,
        v_low,
    }
}
