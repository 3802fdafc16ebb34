// The sum of some variables, modulo 2, as a diagram, from the last level up: on each level a node where the sum from there on is odd and
// one where it is even, and on the first level one of them alone. (Bryant: Graph-Based Algorithms for Boolean Function Manipulation,
// 1986, section 2.)
ghost use Rattle.std.specs.Prelude.{◌≡◌, ◌<◌, ℕ, Bool, List, ◌∷◌, Err, IfOk, drop, false, length, not, true, if◌then◌else◌};
ghost use Rattle.node_table.specs.declared.error.TableError.TheVariants.{NodeLimit};
ghost use Rattle.node_table.specs.Diagram.{IsBelow, levels};
ghost use Rattle.node_table.specs.Made.{LacksPart, MakesOnly};
ghost use Rattle.node_table.specs.Progress.{Steps, error_of};
ghost use Rattle.node_table.specs.Table.{AddsNone, IsSound, UnlessTorn};
ghost use Rattle.node_table.specs.Value.{IsSubfunction, Levels};
ghost use Rattle.parity_nodes.specs.Sums.{AreRising, AreSums, IsBeforeLevels, IsSum, sum_is};

use host_io::Sink;
use node_table::{
    Node, Table, TableError, cofactor_law, growth_law, missing_law, steps_law, subfunction_law,
};

/// The nodes where the sum of some variables is odd, and where it is even.
#[derive(Clone, Copy)]
pub struct Sums {
    pub odd: Node,
    pub even: Node,
}

/// The node that holds where the sum of these levels' variables, modulo 2, is the bit. The levels rise. Without levels it is a constant.
/// What was made before a refusal stays.
pub fn parity_node<S: Sink + Drop>(
    table: &mut Table<S>,
    set: &[u32],
    bit: bool,
) -> Result<Node, TableError>
    requires sound { IsSound table.old }
    requires rising { AreRising 0 (levels table.old.graph) set.now }
    ensures sum { IfOk result (IsSum table.new.graph set.now bit) }
    // However the call ends, each node that was made is of a part of the sum, and no clause is added but those that define nodes.
    ensures made { MakesOnly table.old.graph table.new.graph (sum_is bit set.now) }
    ensures lacks { result ≡ Err NodeLimit → LacksPart table.new.graph (sum_is bit set.now) }
    ensures steps { Steps table.old table.new 0 (error_of result) }
    ensures none_added { UnlessTorn result (AddsNone table.old table.new) }
    ensures retired { table.new.retired ≡ table.old.retired }
{
    steps_law::<S>();
    subfunction_law();
    if set.is_empty() {
        return Ok(constant(!bit));
    }
    let sums = sums_behind(table, set)?;
    let (high, low) = children(&sums, bit);
    sum_node(table, set[0], high, low)
}

// The constant of this value.
fn constant(value: bool) -> Node
    ensures { result ≡ (if value then Node.True else Node.False) }
{
    if value { Node::True } else { Node::False }
}

// The children of the node of a sum: where the level's variable is true the rest has to have the other sum.
fn children(below: &Sums, bit: bool) -> (Node, Node)
    ensures high { result.0 ≡ (if bit then below.now.even else below.now.odd) }
    ensures low { result.1 ≡ (if bit then below.now.odd else below.now.even) }
{
    if bit {
        (below.even, below.odd)
    } else {
        (below.odd, below.even)
    }
}

// The nodes of both sums of the levels behind the first one.
fn sums_behind<S: Sink + Drop>(table: &mut Table<S>, set: &[u32]) -> Result<Sums, TableError>
    requires sound { IsSound table.old }
    requires rising { AreRising 0 (levels table.old.graph) set.now }
    requires some { 0 < length set.now }
    ensures sums { IfOk result (AreSums table.new.graph (drop 1 set.now)) }
    ensures made { (bit : Bool) → MakesOnly table.old.graph table.new.graph (sum_is bit set.now) }
    ensures lacks { (bit : Bool) → result ≡ Err NodeLimit → LacksPart table.new.graph (sum_is bit set.now) }
    ensures steps { Steps table.old table.new 0 (error_of result) }
    ensures none_added { UnlessTorn result (AddsNone table.old table.new) }
    ensures retired { table.new.retired ≡ table.old.retired }
{
    steps_law::<S>();
    subfunction_law();
    let mut sums = Sums {
        odd: Node::False,
        even: Node::True,
    };
    let mut i = set.len();
    'levels: while i > 1 {
        i -= 1;
        sums = sums_from(table, set[i], &sums)?;
    }
    Ok(sums)
}

// The nodes of both sums of this level and those behind it, over the nodes of the latter.
fn sums_from<S: Sink + Drop>(
    table: &mut Table<S>,
    level: u32,
    below: &Sums,
) -> Result<Sums, TableError>
    requires sound { IsSound table.old }
    requires level { level < levels table.old.graph }
    requires odd { IsBelow table.old.graph level below.now.odd }
    requires even { IsBelow table.old.graph level below.now.even }
    ensures sums { (more : List ℕ) → IsBeforeLevels level more → AreSums table.old.graph more below.now
        → IfOk result (AreSums table.new.graph (level ∷ more)) }
    ensures made { (more : List ℕ) (f : Levels → Bool) → AreSums table.old.graph more below.now
        → ((bit : Bool) → IsSubfunction f (sum_is bit (level ∷ more))) → MakesOnly table.old.graph table.new.graph f }
    ensures lacks { (more : List ℕ) (f : Levels → Bool) → AreSums table.old.graph more below.now
        → ((bit : Bool) → IsSubfunction f (sum_is bit (level ∷ more))) → result ≡ Err NodeLimit → LacksPart table.new.graph f }
    ensures steps { Steps table.old table.new 0 (error_of result) }
    ensures none_added { UnlessTorn result (AddsNone table.old table.new) }
    ensures retired { table.new.retired ≡ table.old.retired }
{
    steps_law::<S>();
    subfunction_law();
    growth_law();
    let odd = sum_node(table, level, below.even, below.odd)?;
    let even = sum_node(table, level, below.odd, below.even)?;
    Ok(Sums { odd, even })
}

// The node of a sum from this level on, over the nodes of both sums behind it.
fn sum_node<S: Sink + Drop>(
    table: &mut Table<S>,
    level: u32,
    high: Node,
    low: Node,
) -> Result<Node, TableError>
    requires sound { IsSound table.old }
    requires level { level < levels table.old.graph }
    requires high { IsBelow table.old.graph level high }
    requires low { IsBelow table.old.graph level low }
    ensures sum { (more : List ℕ) (bit : Bool) → IsSum table.old.graph more (not bit) high → IsSum table.old.graph more bit low
        → IfOk result (IsSum table.new.graph (level ∷ more) bit) }
    ensures made { (more : List ℕ) (bit : Bool) (f : Levels → Bool) → IsSum table.old.graph more (not bit) high
        → IsSum table.old.graph more bit low → IsSubfunction f (sum_is bit (level ∷ more)) → MakesOnly table.old.graph table.new.graph f }
    ensures lacks { (more : List ℕ) (bit : Bool) (f : Levels → Bool) → IsSum table.old.graph more (not bit) high
        → IsSum table.old.graph more bit low → IsSubfunction f (sum_is bit (level ∷ more)) → result ≡ Err NodeLimit
        → LacksPart table.new.graph f }
    ensures steps { Steps table.old table.new 0 (error_of result) }
    ensures none_added { UnlessTorn result (AddsNone table.old table.new) }
    ensures retired { table.new.retired ≡ table.old.retired }
{
    growth_law();
    cofactor_law();
    subfunction_law();
    missing_law();
    let node = table.node(level, high, low);
    table.table_law();
    node
}
