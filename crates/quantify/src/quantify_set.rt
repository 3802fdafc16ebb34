// The existential quantification of a node by the variables of a set of levels at once, in one pass over its diagram: at a level
// of the set both sides are disjoined, at another one they are joined again. No diagram is built for the node quantified by a part
// of the set alone, as one quantification after another would. (Bryant: Graph-Based Algorithms for Boolean Function Manipulation,
// 1986, sections 4.3 and 4.4: apply and restrict.)
ghost use Rattle.std.specs.Prelude.{◌≡◌, ◌≤◌, ◌<◌, ◌^◌, ◌++◌, List, Err, IsTrue, IfOk, drop, length, slice_index};
ghost use Rattle.node_table.specs.declared.error.TableError.TheVariants.{NodeLimit};
ghost use Rattle.node_table.specs.Diagram.{is_node, level_of, levels};
ghost use Rattle.node_table.specs.Table.{AddsNone, IsSound, UnlessTorn};
ghost use Rattle.node_table.specs.Progress.{Steps, error_of};
ghost use Rattle.operations.specs.Entries.{Entry, Fits};
ghost use Rattle.quantify.specs.OrCache.{RemembersDisjunctions, disjunctions};
ghost use Rattle.quantify.specs.RunsFor.{LacksOneOf, MakesOnlyOf};
ghost use Rattle.quantify.specs.SomeValues.{AreLevels, IsFromPlace, SetMeaning, SetQuantified, function_of};
ghost use Rattle.quantify.specs.SetQuantification.{AreSides, CanCloseSet, QuantifiesSet, from_level, quantifying_set};

use crate::disjoin::or;
use crate::exists_cache::ExistsCache;
use crate::join::join;
use crate::or_cache::OrCache;
use host_io::Sink;
use node_table::{Node, Table, TableError, cofactor_law, growth_law, steps_law, subfunction_law};
use operations::{Operation, Reply, cache_law, entry_law, work_off};
use std::alloc::Global;

/// The node that holds where some values of these levels' variables make u hold; the levels rise. Nodes and clauses that were
/// there stay; what was made before a refusal stays too. No clause is added beside the definitions of new nodes, and none is
/// retired. Disjunctions are kept in the cache that is given; at most `capacity` results of the call's own are kept till it
/// ends.
pub fn exists_all<S: Sink + Drop>(
    table: &mut Table<S>,
    ors: &mut OrCache,
    u: Node,
    set: &[u32],
    capacity: u32,
) -> Result<Node, TableError>
    requires sound { IsSound table.old }
    requires stands { IsTrue (is_node table.old.graph u) }
    requires levels { AreLevels table.old.graph set.now }
    requires some { 1 ≤ capacity }
    requires fits { Fits table.old (disjunctions ors.old) }
    ensures quantified { IfOk result (λ w. SetQuantified table.new.graph u set.now w) }
    ensures steps { Steps table.old table.new 0 (error_of result) }
    ensures retired { table.new.retired ≡ table.old.retired }
    ensures none_added { UnlessTorn result (AddsNone table.old table.new) }
    // The cache fits, and so does it together with others that did.
    ensures fits { UnlessTorn result (Fits table.new (disjunctions ors.new)) }
    ensures others { (others : List Entry) → Fits table.old (disjunctions ors.old ++ others)
        → UnlessTorn result (Fits table.new (disjunctions ors.new ++ others)) }
    // A disjunction is forgotten only where the cache was full.
    ensures remembered { RemembersDisjunctions ors.old ors.new }
    // However it ends, each node that was made is a subfunction of what u becomes by the levels from some place of the set on. On
    // success nodes may be left that the result doesn't reach: operands of disjunctions.
    ensures made { MakesOnlyOf table.old.graph table.new.graph (IsFromPlace (function_of table.old.graph u) set.now) }
    // Where the nodes are used up, such a subfunction is the function of none.
    ensures lacks { result ≡ Err NodeLimit → LacksOneOf table.new.graph (IsFromPlace (function_of table.old.graph u) set.now) }
{
    steps_law::<S>();
    entry_law::<S>();
    let _order = table.order();
    let mut found = ExistsCache::new(ors.alloc(), capacity)?;
    let mut caches = SetCaches {
        set,
        found: &mut found,
        ors,
    };
    work_off::<S, SetOperation>(table, &mut caches, (u, 0))
}

/// For the prover alone: some values of a set's variables make a function hold exactly where an assignment does that differs in
/// them alone.
pub fn set_law()
    ensures { SetMeaning }
{}

/// The levels of the set, the results of the call by their node and their place in the set, and the cache of disjunctions, lent for
/// the call.
#[derive(Drop)]
struct SetCaches<'a> {
    set: &'a [u32],
    found: &'a mut ExistsCache,
    ors: &'a mut OrCache,
}

/// A node, its own level, and its children; its place in the set, and theirs, which is the next one where the node's own level is
/// chosen to be quantified.
#[derive(Clone, Copy)]
struct SetSides {
    node: Node,
    place: u32,
    own: u32,
    chosen: bool,
    next: u32,
    high: Node,
    low: Node,
}

/// The quantification by a set as an operation on diagrams. Its lifetime is that of the caches that it is lent; no value is made.
struct SetOperation<'a>(&'a u8);

impl<'a, S: Sink + Drop> Operation<S> for SetOperation<'a> {
    type Cache = SetCaches<'a>;

    type Question = (Node, u32);

    type Parts = SetSides;

    type Answer = Node;

    ghost calls = { quantifying_set };

    fn alloc(caches: &SetCaches<'a>) -> Global {
        caches.ors.alloc()
    }

    // A node that stands behind the last level of the set, or whose result is kept, is answered.
    fn ask(
        table: &mut Table<S>,
        caches: &mut SetCaches<'a>,
        question: (Node, u32),
    ) -> Result<Reply<SetSides, Node>, TableError> {
        steps_law::<S>();
        cache_law::<(Node, Node), Node>();
        cofactor_law();
        growth_law();
        subfunction_law();
        let (u, place) = question;
        let own = table.level_of(u);
        let at = next_place(caches.set, place, own);
        if caches.set.len() <= at as usize {
            return Ok(Reply::Give(u));
        }
        match caches.found.look((u, at)) {
            Some(w) => Ok(Reply::Give(w)),
            None => Ok(Reply::Open(sides_of(table, caches.set, u, own, at))),
        }
    }

    fn high(sides: &SetSides) -> (Node, u32)
        ensures { result ≡ (sides.now.high, sides.now.next) }
    {
        (sides.high, sides.next)
    }

    fn low(sides: &SetSides, _high: &Node) -> Option<(Node, u32)>
        ensures { result ≡ Some (sides.now.low, sides.now.next) }
    {
        Some((sides.low, sides.next))
    }

    // What is found is kept.
    fn close(
        table: &mut Table<S>,
        caches: &mut SetCaches<'a>,
        sides: &SetSides,
        high: &Node,
        low: &Node,
    ) -> Result<Node, TableError> {
        steps_law::<S>();
        growth_law();
        let w = combine(table, caches, sides, *high, *low)?;
        caches.found.keep((sides.node, sides.place), w)?;
        Ok(w)
    }
}

// The first place, from this one on, whose level doesn't stand before a node's.
fn next_place(set: &[u32], place: u32, own: u32) -> u32
    requires { length set.now < 2 ^ 32 }
    ensures { drop result set.now ≡ from_level own (drop place set.now) }
{
    let mut at = place;
    'places: while (at as usize) < set.len() && set[at as usize] < own {
        at += 1;
    }
    at
}

// A node that no level from this place on stands before, with its children.
fn sides_of<S: Sink + Drop>(table: &Table<S>, set: &[u32], u: Node, own: u32, at: u32) -> SetSides
    requires stands { IsTrue (is_node table.now.graph u) }
    requires own { own ≡ level_of table.now.graph u }
    requires levels { AreLevels table.now.graph set.now }
    requires short { length set.now < 2 ^ 32 }
    requires within { at < length set.now }
    requires later { own ≤ slice_index set.now at }
    ensures sides { AreSides table.now.graph set.now result }
    ensures question { (result.node ≡ u) × (result.place ≡ at) }
{
    let (high, low) = table.cofactors(own, u);
    if set[at as usize] == own {
        return SetSides {
            node: u,
            place: at,
            own,
            chosen: true,
            next: at + 1,
            high,
            low,
        };
    }
    SetSides {
        node: u,
        place: at,
        own,
        chosen: false,
        next: at,
        high,
        low,
    }
}

// The node of both results: their disjunction at a level of the set, and the node with these children at another one.
fn combine<'a, S: Sink + Drop>(
    table: &mut Table<S>,
    caches: &mut SetCaches<'a>,
    sides: &SetSides,
    high: Node,
    low: Node,
) -> Result<Node, TableError>
    requires can { CanCloseSet table.old caches.old sides.now high low }
    ensures { QuantifiesSet caches.old.set.now table.old caches.old sides.now.node sides.now.place table.new caches.new result }
{
    cofactor_law();
    growth_law();
    if sides.chosen {
        return or(table, caches.ors, high, low);
    }
    join(table, sides.own, high, low)
}
