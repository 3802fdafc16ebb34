// The disjunction of two nodes, by their cofactors at the earlier of their variables. (Bryant: Graph-Based Algorithms for
// Boolean Function Manipulation, 1986, section 4.3: apply.)
ghost use Rattle.std.specs.Prelude.{◌≡◌, ◌≢◌, ◌⊎◌, ◌≤◌, ◌++◌, List, None, Some, Ok, Err, Contains, IsTrue, IfOk, IfSome, MatchOption};
ghost use Rattle.std.specs.Prelude.{length};
ghost use Rattle.node_table.specs.declared.error.TableError.TheVariants.{NodeLimit};
ghost use Rattle.node_table.specs.declared.node.Node.{Node as NodeValue};
ghost use Rattle.node_table.specs.Diagram.{Graph, is_node};
ghost use Rattle.node_table.specs.Table.{AddsNone, IsSound, UnlessTorn};
ghost use Rattle.node_table.specs.Made.{LacksPart, MakesOnly, ReachesNew};
ghost use Rattle.node_table.specs.Progress.{Steps, error_of};
ghost use Rattle.operations.specs.Operands.{IsInner};
ghost use Rattle.operations.specs.Results.{Disjoined};
ghost use Rattle.operations.specs.Entries.{Disjunction, Entry, Fits, HaveSame};
ghost use Rattle.operations.specs.Computed.{most_entries};
ghost use Rattle.quantify.specs.OrCache.{disjunctions};
ghost use Rattle.quantify.specs.Disjunction.{CanDisjoin, Disjoins, IsPlain, IsUnknown, disjunction_of, disjoining};

use crate::join::join;
use crate::or_cache::OrCache;
use host_io::Sink;
use node_table::{
    Node, Table, TableError, canonical_law, cofactor_law, growth_law, reach_law, steps_law,
    subfunction_law,
};
use operations::{Operands, Operation, Reply, cache_law, entry_law, operand_law, split, work_off};
use std::alloc::Global;

/// The disjunction of two nodes. Nodes and clauses that were there stay; what was made before a refusal stays too. No clause
/// is added beside the definitions of new nodes, and none is retired.
pub fn or<S: Sink + Drop>(
    table: &mut Table<S>,
    cache: &mut OrCache,
    u: Node,
    v: Node,
) -> Result<Node, TableError>
    requires sound { IsSound table.old }
    requires first { IsTrue (is_node table.old.graph u) }
    requires second { IsTrue (is_node table.old.graph v) }
    requires fits { Fits table.old (disjunctions cache.old) }
    ensures disjoined { IfOk result (λ w. Disjoined table.new.graph u v w) }
    ensures steps { Steps table.old table.new 0 (error_of result) }
    ensures retired { table.new.retired ≡ table.old.retired }
    ensures none_added { UnlessTorn result (AddsNone table.old table.new) }
    // The cache fits, and so does it together with others that did.
    ensures fits { UnlessTorn result (Fits table.new (disjunctions cache.new)) }
    ensures others { (others : List Entry) → Fits table.old (disjunctions cache.old ++ others)
        → UnlessTorn result (Fits table.new (disjunctions cache.new ++ others)) }
    // A disjunction that is kept is found again without a node more; a new one is kept; one is forgotten only where the cache
    // was full.
    ensures known { (w : NodeValue) → Contains (disjunctions cache.old) (Disjunction u v w)
        → (result ≡ Ok w) × (table.new ≡ table.old) × HaveSame (disjunctions cache.old) (disjunctions cache.new) }
    ensures kept { u ≢ v → IsInner table.old.graph u → IsInner table.old.graph v
        → IfOk result (λ w. Contains (disjunctions cache.new) (Disjunction u v w)) }
    ensures remembered { (entry : Entry) → Contains (disjunctions cache.old) entry → Contains (disjunctions cache.new) entry
        ⊎ (most_entries cache.old ≤ length (disjunctions cache.new)) }
    ensures no_fewer { length (disjunctions cache.old) ≤ length (disjunctions cache.new) }
    ensures capacity { most_entries cache.new ≡ most_entries cache.old }
    // A constant, and a node with itself: nothing changes.
    ensures plain { (w : NodeValue) → IsPlain u v w → (result ≡ Ok w) × (table.new ≡ table.old) × (cache.new ≡ cache.old) }
    // However it ends, each node that was made is a subfunction of the disjunction; on success none is left over.
    ensures made { MakesOnly table.old.graph table.new.graph (disjunction_of table.old.graph u v) }
    ensures reachable { IfOk result (λ w. ReachesNew table.old.graph table.new.graph w) }
    // Where the nodes are used up, some part of the disjunction is the function of none.
    ensures lacks { result ≡ Err NodeLimit → LacksPart table.new.graph (disjunction_of table.old.graph u v) }
{
    entry_law::<S>();
    work_off::<S, OrOperation>(table, cache, (u, v))
}

/// The disjunction as an operation on diagrams.
struct OrOperation;

impl<S: Sink + Drop> Operation<S> for OrOperation {
    type Cache = OrCache;

    type Question = (Node, Node);

    type Parts = Operands;

    type Answer = Node;

    ghost calls = { disjoining };

    fn alloc(cache: &OrCache) -> Global {
        cache.alloc()
    }

    fn ask(
        table: &mut Table<S>,
        cache: &mut OrCache,
        question: (Node, Node),
    ) -> Result<Reply<Operands, Node>, TableError> {
        steps_law::<S>();
        entry_law::<S>();
        cache_law::<(Node, Node), Node>();
        operand_law();
        growth_law();
        subfunction_law();
        reach_law();
        let (u, v) = question;
        match answer(table, cache, u, v) {
            Some(w) => Ok(Reply::Give(w)),
            None => Ok(Reply::Open(split(table, u, v))),
        }
    }

    fn high(operands: &Operands) -> (Node, Node) {
        (operands.u_high, operands.v_high)
    }

    fn low(operands: &Operands, _high: &Node) -> Option<(Node, Node)> {
        Some((operands.u_low, operands.v_low))
    }

    // The disjunction is the node of both results, and is kept.
    fn close(
        table: &mut Table<S>,
        cache: &mut OrCache,
        operands: &Operands,
        high: &Node,
        low: &Node,
    ) -> Result<Node, TableError> {
        steps_law::<S>();
        entry_law::<S>();
        operand_law();
        cofactor_law();
        growth_law();
        subfunction_law();
        let w = join(table, operands.level, *high, *low)?;
        cache.keep((operands.u, operands.v), w)?;
        Ok(w)
    }
}

// The disjunction of a plain pair, and one that is kept.
fn answer<S: Sink + Drop>(table: &Table<S>, cache: &mut OrCache, u: Node, v: Node) -> Option<Node>
    requires can { CanDisjoin table.now cache.old u v }
    ensures answers { IfSome result (λ w. Disjoins table.now cache.old u v table.now cache.new (Ok w)) }
    ensures unknown { result ≡ None → (cache.new ≡ cache.old) × IsUnknown table.now.graph cache.old u v }
{
    steps_law::<S>();
    entry_law::<S>();
    subfunction_law();
    reach_law();
    canonical_law();
    if let Some(w) = plain(u, v) {
        return Some(w);
    }
    cache.look((u, v))
}

// The disjunction of two nodes of which one is a constant, or which are the same.
fn plain(u: Node, v: Node) -> Option<Node>
    ensures exact { (w : NodeValue) → IsPlain u v w → result ≡ Some w }
    ensures plain { IfSome result (λ w. IsPlain u v w) }
    ensures differ { result ≡ None → u ≢ v }
    ensures disjoined { MatchOption result ((graph : Graph) → IsTrue (is_node graph u) → IsTrue (is_node graph v) → IsInner graph u
        × IsInner graph v)
        (λ w. (graph : Graph) → IsTrue (is_node graph u) → IsTrue (is_node graph v) → Disjoined graph u v w) }
{
    match (u, v) {
        (Node::True, _) | (_, Node::True) => Some(Node::True),
        (Node::False, other) | (other, Node::False) => Some(other),
        (Node::Inner(_), Node::Inner(_)) if u == v => Some(u),
        (Node::Inner(_), Node::Inner(_)) => None,
    }
}
