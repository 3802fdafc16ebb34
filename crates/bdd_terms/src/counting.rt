// Nodes counted by the parts of functions.
ghost use Rattle.bdd_terms.specs.Counting.{Counting};

use host_io::Sink;
use node_table::{canonical_law, growth_law, subfunction_law};

/// What nodes that are all of parts of some kind say of their number, and of the numbers that a call gives. (Bryant: Graph-Based
/// Algorithms for Boolean Function Manipulation, 1986, section 3.)
pub fn counting_law<S: Sink + Drop>()
    ensures { Counting S }
{
    canonical_law();
    growth_law();
    subfunction_law();
}
