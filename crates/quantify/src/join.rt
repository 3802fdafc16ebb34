// The step that both operations end with: the node of what was found for the two sides of a variable.
ghost use Rattle.std.specs.Prelude.{◌<◌};
ghost use Rattle.node_table.specs.Diagram.{IsBelow, levels};
ghost use Rattle.node_table.specs.Table.{IsSound};
ghost use Rattle.quantify.specs.Runs.{Joins};

use host_io::Sink;
use node_table::{
    Node, Table, TableError, cofactor_law, growth_law, missing_law, reach_law, steps_law,
    subfunction_law,
};
use operations::entry_law;

/// The node with these children at a level.
pub(crate) fn join<S: Sink + Drop>(
    table: &mut Table<S>,
    level: u32,
    high: Node,
    low: Node,
) -> Result<Node, TableError>
    requires sound { IsSound table.old }
    requires level { level < levels table.old.graph }
    requires high { IsBelow table.old.graph level high }
    requires low { IsBelow table.old.graph level low }
    ensures { Joins table.old level high low table.new result }
{
    steps_law::<S>();
    entry_law::<S>();
    cofactor_law();
    growth_law();
    subfunction_law();
    reach_law();
    missing_law();
    let made = table.node(level, high, low);
    // The nodes are reduced after a failed write too.
    table.table_law();
    made
}
