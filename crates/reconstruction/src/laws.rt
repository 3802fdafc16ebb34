// Laws over everything: functions without work, which the crates above cite by a call.
ghost use Rattle.reconstruction.specs.Laws.{Copying, Restored, SetsRestored};

use node_table::growth_law;

/// Copies of nodes, at first and while a table grows.
pub fn copies_law()
    ensures { Copying }
{
    growth_law();
}

/// Values set back by stored entries, and by the nodes that these were stored for.
pub fn restore_law()
    ensures { Restored }
{}

/// The values that the entries of a set give.
pub fn set_law()
    ensures { SetsRestored }
{}
