// The existential quantification of a node by one variable: the disjunction of its cofactors there. (Bryant: Graph-Based
// Algorithms for Boolean Function Manipulation, 1986, sections 4.3 and 4.4: apply and restrict.) Disjunctions are asked for with a
// machine of their own, at the quantified level alone; each of their nodes is a part of the quantification too.
ghost use Rattle.std.specs.Prelude.{◌≡◌, ◌⊎◌, ◌≤◌, ◌<◌, ◌++◌, List, Some, Ok, Err, Contains, IsTrue, IfOk, length, false};
ghost use Rattle.node_table.specs.declared.error.TableError.TheVariants.{NodeLimit};
ghost use Rattle.node_table.specs.declared.node.Node.{Node as NodeValue};
ghost use Rattle.node_table.specs.Diagram.{is_node, level_of, levels};
ghost use Rattle.node_table.specs.Table.{AddsNone, IsSound, UnlessTorn};
ghost use Rattle.node_table.specs.Made.{LacksPart, MakesOnly, ReachesNew};
ghost use Rattle.node_table.specs.Progress.{Steps, error_of};
ghost use Rattle.operations.specs.Results.{Quantified};
ghost use Rattle.operations.specs.Entries.{Entry, Fits, HaveSame, Quantification};
ghost use Rattle.quantify.specs.OrCache.{RemembersDisjunctions};
ghost use Rattle.operations.specs.Computed.{most_entries};
ghost use Rattle.quantify.specs.ExistsCache.{both_caches, quantifications};
ghost use Rattle.quantify.specs.Quantification.{CanQuantify, IsAbove, IsAnswered, IsMissed, Quantifies, quantification_of, quantifying};

use crate::disjoin::or;
use crate::exists_cache::ExistsCache;
use crate::join::join;
use crate::or_cache::OrCache;
use host_io::Sink;
use node_table::{
    Node, Table, TableError, canonical_law, cofactor_law, growth_law, reach_law, steps_law,
    subfunction_law,
};
use operations::{Operation, Reply, cache_law, entry_law, work_off};
use std::alloc::Global;

/// The node that holds where some value of this level's variable makes u hold. Nodes and clauses that were there stay; what
/// was made before a refusal stays too. No clause is added beside the definitions of new nodes, and none is retired. A level
/// that is no variable's gives u itself.
pub fn exists<S: Sink + Drop>(
    table: &mut Table<S>,
    cache: &mut ExistsCache,
    ors: &mut OrCache,
    u: Node,
    level: u32,
) -> Result<Node, TableError>
    requires sound { IsSound table.old }
    requires stands { IsTrue (is_node table.old.graph u) }
    requires fits { Fits table.old (both_caches cache.old ors.old) }
    ensures quantified { IfOk result (λ w. Quantified table.new.graph u level w) }
    ensures steps { Steps table.old table.new 0 (error_of result) }
    ensures retired { table.new.retired ≡ table.old.retired }
    ensures none_added { UnlessTorn result (AddsNone table.old table.new) }
    // Both caches fit as one list, and so do they together with others that did.
    ensures fits { UnlessTorn result (Fits table.new (both_caches cache.new ors.new)) }
    ensures others { (others : List Entry) → Fits table.old (both_caches cache.old ors.old ++ others)
        → UnlessTorn result (Fits table.new (both_caches cache.new ors.new ++ others)) }
    // A quantification that is kept is found again without a node more; a new one is kept; one is forgotten only where the
    // cache was full, and so is a disjunction.
    ensures known { (w : NodeValue) → Contains (quantifications cache.old) (Quantification u level w)
        → (result ≡ Ok w) × (table.new ≡ table.old) × HaveSame (quantifications cache.old) (quantifications cache.new)
        × (ors.new ≡ ors.old) }
    ensures kept { level_of table.old.graph u ≤ level → level < levels table.old.graph
        → IfOk result (λ w. Contains (quantifications cache.new) (Quantification u level w)) }
    ensures remembered { (entry : Entry) → Contains (quantifications cache.old) entry → Contains (quantifications cache.new) entry
        ⊎ (most_entries cache.old ≤ length (quantifications cache.new)) }
    ensures no_fewer { length (quantifications cache.old) ≤ length (quantifications cache.new) }
    ensures capacity { most_entries cache.new ≡ most_entries cache.old }
    ensures ors { RemembersDisjunctions ors.old ors.new }
    // A constant, and a node below the level: nothing changes.
    ensures plain { level < level_of table.old.graph u → (result ≡ Ok u) × (table.new ≡ table.old) × (cache.new ≡ cache.old)
        × (ors.new ≡ ors.old) }
    ensures no_level { levels table.old.graph ≤ level → (result ≡ Ok u) × (table.new ≡ table.old) × (cache.new ≡ cache.old)
        × (ors.new ≡ ors.old) }
    // However it ends, each node that was made is a subfunction of the quantification; on success none is left over.
    ensures made { MakesOnly table.old.graph table.new.graph (quantification_of table.old.graph u level) }
    ensures reachable { IfOk result (λ w. ReachesNew table.old.graph table.new.graph w) }
    // Where the nodes are used up, some part of the quantification is the function of none.
    ensures lacks { result ≡ Err NodeLimit → LacksPart table.new.graph (quantification_of table.old.graph u level) }
{
    steps_law::<S>();
    entry_law::<S>();
    canonical_law();
    cofactor_law();
    subfunction_law();
    reach_law();
    if is_no_level(table, level) {
        return Ok(u);
    }
    let mut caches = BothCaches { exists: cache, ors };
    work_off::<S, ExistsOperation>(table, &mut caches, (u, level))
}

// Whether no variable is of this level.
fn is_no_level<S: Sink + Drop>(table: &Table<S>, level: u32) -> bool
    ensures beyond { IsTrue result → levels table.now.graph ≤ level }
    ensures inside { result ≡ false → level < levels table.now.graph }
{
    table.order().len() <= level as usize
}

/// Both caches, lent for a call.
#[derive(Drop)]
struct BothCaches<'a> {
    exists: &'a mut ExistsCache,
    ors: &'a mut OrCache,
}

/// A node above the level that is quantified, its own level, and its children.
#[derive(Clone, Copy)]
struct Above {
    node: Node,
    level: u32,
    own: u32,
    high: Node,
    low: Node,
}

/// The quantification as an operation on diagrams. Its lifetime is that of the caches that it is lent; no value is made.
struct ExistsOperation<'a>(&'a u8);

impl<'a, S: Sink + Drop> Operation<S> for ExistsOperation<'a> {
    type Cache = BothCaches<'a>;

    type Question = (Node, u32);

    type Parts = Above;

    type Answer = Node;

    ghost calls = { quantifying };

    fn alloc(caches: &BothCaches<'a>) -> Global {
        caches.exists.alloc()
    }

    fn ask(
        table: &mut Table<S>,
        caches: &mut BothCaches<'a>,
        question: (Node, u32),
    ) -> Result<Reply<Above, Node>, TableError> {
        steps_law::<S>();
        entry_law::<S>();
        cache_law::<(Node, u32), Node>();
        cache_law::<(Node, Node), Node>();
        cofactor_law();
        growth_law();
        subfunction_law();
        reach_law();
        let (u, level) = question;
        match answer(table, caches.exists, caches.ors, u, level)? {
            Some(w) => Ok(Reply::Give(w)),
            None => Ok(Reply::Open(sides_of(table, u, level))),
        }
    }

    fn high(parts: &Above) -> (Node, u32)
        ensures { result ≡ (parts.now.high, parts.now.level) }
    {
        (parts.high, parts.level)
    }

    fn low(parts: &Above, _high: &Node) -> Option<(Node, u32)>
        ensures { result ≡ Some (parts.now.low, parts.now.level) }
    {
        Some((parts.low, parts.level))
    }

    // The quantification is the node of both results, and is kept.
    fn close(
        table: &mut Table<S>,
        caches: &mut BothCaches<'a>,
        parts: &Above,
        high: &Node,
        low: &Node,
    ) -> Result<Node, TableError> {
        steps_law::<S>();
        entry_law::<S>();
        cofactor_law();
        growth_law();
        subfunction_law();
        let w = join(table, parts.own, *high, *low)?;
        caches.exists.keep((parts.node, parts.level), w)?;
        Ok(w)
    }
}

// A constant and a node below the level, a quantification that is kept, and a node of the level.
fn answer<S: Sink + Drop>(
    table: &mut Table<S>,
    cache: &mut ExistsCache,
    ors: &mut OrCache,
    u: Node,
    level: u32,
) -> Result<Option<Node>, TableError>
    requires can { CanQuantify table.old cache.old ors.old u level }
    ensures { IsAnswered table.old cache.old ors.old u level table.new cache.new ors.new result }
{
    steps_law::<S>();
    entry_law::<S>();
    subfunction_law();
    reach_law();
    canonical_law();
    cofactor_law();
    let own = table.level_of(u);
    if level < own {
        return Ok(Some(u));
    }
    if let Some(w) = cache.look((u, level)) {
        return Ok(Some(w));
    }
    if own < level {
        return Ok(None);
    }
    let w = disjoin_children(table, cache, ors, u, level)?;
    Ok(Some(w))
}

// The quantification of a node of this level, which is kept: the disjunction of its children.
fn disjoin_children<S: Sink + Drop>(
    table: &mut Table<S>,
    cache: &mut ExistsCache,
    ors: &mut OrCache,
    u: Node,
    level: u32,
) -> Result<Node, TableError>
    requires can { CanQuantify table.old cache.old ors.old u level }
    requires at { level_of table.old.graph u ≡ level }
    requires missed { IsMissed cache.old u level }
    ensures { Quantifies table.old cache.old ors.old u level table.new cache.new ors.new result }
{
    steps_law::<S>();
    entry_law::<S>();
    cache_law::<(Node, u32), Node>();
    cofactor_law();
    growth_law();
    subfunction_law();
    let (high, low) = table.cofactors(level, u);
    let w = or(table, ors, high, low)?;
    cache.keep((u, level), w)?;
    Ok(w)
}

// A node above the level, with its children.
fn sides_of<S: Sink + Drop>(table: &Table<S>, u: Node, level: u32) -> Above
    requires stands { IsTrue (is_node table.now.graph u) }
    requires above { level_of table.now.graph u < level }
    requires level { level < levels table.now.graph }
    ensures above { IsAbove table.now.graph result }
    ensures question { (result.node ≡ u) × (result.level ≡ level) }
{
    let own = table.level_of(u);
    let (high, low) = table.cofactors(own, u);
    Above {
        node: u,
        level,
        own,
        high,
        low,
    }
}
