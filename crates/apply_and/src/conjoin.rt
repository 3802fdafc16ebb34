// The conjunction of two nodes, by their cofactors at the earlier of their variables. (Bryant: Graph-Based Algorithms
// for Boolean Function Manipulation, 1986, section 4.3: apply.) Clauses are added side by side with the nodes: a node, then its high
// clause, then the low one. A result is kept by both operands: its node, and the number of its clause or 0, in 16 bytes.
ghost use Rattle.std.specs.Prelude.{◌≡◌, ◌≢◌, ◌↔◌, ◌⊎◌, ◌≤◌, ◌*◌, ◌++◌, ℕ, List, Ok, Err, Contains, IsTrue, IfOk, IfSome, MatchOption};
ghost use Rattle.std.specs.Prelude.{None, Some, length};
ghost use Rattle.lrat_rules.specs.State.{Live};
ghost use Rattle.node_table.specs.declared.error.TableError.TheVariants.{NodeLimit};
ghost use Rattle.node_table.specs.declared.node.Node.{Node as NodeValue};
ghost use Rattle.node_table.specs.declared.node.Justification.{Justification as JustificationValue};
ghost use Rattle.node_table.specs.declared.node.Justification.TheVariants.{Trivial, Clause};
ghost use Rattle.node_table.specs.Diagram.{Graph, is_node};
ghost use Rattle.node_table.specs.Table.{IsSound, AddsAtMost, HasChildren, UnlessTorn};
ghost use Rattle.node_table.specs.Made.{LacksPart, MakesOnly, ReachesNew};
ghost use Rattle.node_table.specs.Progress.{Steps, error_of};
ghost use Rattle.operations.specs.Operands.{AreSplit, levels_from};
ghost use Rattle.operations.specs.Results.{Conjoined};
ghost use Rattle.operations.specs.Entries.{Entry, Accounts, AreApart, Conjunction, Fits, HaveSame, IsNewJustification, NamesOnly, RetiresOwn};
ghost use Rattle.operations.specs.Accounts.{GivesOne, RetiresNew, found_just};
ghost use Rattle.operations.specs.Pairs.{IsNoConstant};
ghost use Rattle.operations.specs.Price.{HoldsReached};
ghost use Rattle.apply_and.specs.Conjunction.{IsPlain, conjunction_of, most_additions};
ghost use Rattle.apply_and.specs.Cache.{entries, most_entries};
ghost use Rattle.apply_and.specs.Calls.{Answers, CanConjoin, IsUnknown, conjunctions};

use crate::additions::justify;
use crate::cache::AndCache;
use host_io::Sink;
use node_table::{
    Justification, Node, Table, TableError, canonical_law, cofactor_law, growth_law, missing_law,
    reach_law, steps_law, subfunction_law,
};
use operations::{
    NodePair, Operands, Operation, Reply, StoredJustification, accounts_law, budget_law, cache_law,
    clause_number, entry_law, literal_law, operand_law, price_law, retire, split, work_off,
};
use std::alloc::Global;

/// The conjunction of two nodes, and why its clause holds. Nodes and clauses that were there stay; what was made before
/// a refusal stays too.
pub fn and<S: Sink + Drop>(
    table: &mut Table<S>,
    cache: &mut AndCache,
    u: Node,
    v: Node,
) -> Result<(Node, Justification), TableError>
    requires sound { IsSound table.old }
    requires first { IsTrue (is_node table.old.graph u) }
    requires second { IsTrue (is_node table.old.graph v) }
    requires fits { Fits table.old (entries cache.old) }
    ensures conjoined { IfOk result (λ found. Conjoined table.new.graph table.new.book.state.live u v found.0 found.1) }
    ensures steps { Steps table.old table.new
        (most_additions (levels_from table.old.graph u v)) (error_of result) }
    // The cache fits, and so does it together with others that did, of which none names a clause that it named.
    ensures fits { UnlessTorn result (Fits table.new (entries cache.new)) }
    ensures others { (others : List Entry) → Fits table.old (entries cache.old ++ others) → AreApart (entries cache.old) others
        → UnlessTorn result (Fits table.new (entries cache.new ++ others) × AreApart (entries cache.new) others) }
    ensures named { UnlessTorn result (NamesOnly (entries cache.old) (entries cache.new) table.old.book.state table.new.book.state) }
    ensures retires { RetiresOwn table.old table.new (entries cache.old) }
    // No clause is lost, and that of the result isn't retired.
    ensures accounts { UnlessTorn result (Accounts table.old table.new (entries cache.old) (entries cache.new)) }
    ensures unretired { IfOk result (λ found. (id : ℕ) → found.1 ≡ Clause id → Contains table.new.retired id → ⊥) }
    // Where the cache is as large as the pairs of inner nodes that the operands reach, two clauses for each of these.
    ensures price { (us vs : List NodeValue) → HoldsReached table.old.graph u us → HoldsReached table.old.graph v vs → length us * length vs
        ≤ most_entries cache.old
        → AddsAtMost (2 * (length us * length vs)) table.old table.new }
    // A conjunction that is kept is found again without a node or a clause more; a new one is kept; one is forgotten only
    // where the cache was full.
    ensures known { (w : NodeValue) (just : JustificationValue) → Contains (entries cache.old) (Conjunction u v w just)
        → (result ≡ Ok (w, just)) × (table.new ≡ table.old) × HaveSame (entries cache.old) (entries cache.new) }
    ensures kept { u ≢ v → IsNoConstant u → IsNoConstant v → IfOk result
        (λ found. Contains (entries cache.new) (Conjunction u v found.0 found.1)) }
    ensures remembered { (entry : Entry) → Contains (entries cache.old) entry → Contains (entries cache.new) entry
        ⊎ (most_entries cache.old ≤ length (entries cache.new)) }
    ensures no_fewer { length (entries cache.old) ≤ length (entries cache.new) }
    ensures capacity { most_entries cache.new ≡ most_entries cache.old }
    // However it ends, each node that was made is a subfunction of the conjunction; on success none is left over.
    ensures made { MakesOnly table.old.graph table.new.graph (conjunction_of table.old.graph u v) }
    ensures reachable { IfOk result (λ found. ReachesNew table.old.graph table.new.graph found.0) }
    // A constant, and a node with itself: nothing changes.
    ensures plain { (w : NodeValue) → IsPlain u v w → (result ≡ Ok (w, Trivial)) × (table.new ≡ table.old) × (cache.new ≡ cache.old) }
    // Where the nodes are used up, some part of the conjunction is the function of none.
    ensures lacks { result ≡ Err NodeLimit → LacksPart table.new.graph (conjunction_of table.old.graph u v) }
{
    accounts_law::<S>();
    steps_law::<S>();
    price_law::<S, (Node, StoredJustification)>();
    work_off::<S, AndOperation>(table, cache, (u, v))
}

/// The conjunction as an operation on diagrams.
struct AndOperation;

impl<S: Sink + Drop> Operation<S> for AndOperation {
    type Cache = AndCache;

    type Question = (Node, Node);

    type Parts = Operands;

    type Answer = (Node, Justification);

    ghost calls = { conjunctions };

    fn alloc(cache: &AndCache) -> Global {
        cache.alloc()
    }

    fn ask(
        table: &mut Table<S>,
        cache: &mut AndCache,
        question: (Node, Node),
    ) -> Result<Reply<Operands, (Node, Justification)>, TableError> {
        steps_law::<S>();
        budget_law::<S>();
        accounts_law::<S>();
        cache_law::<(Node, Node), (Node, StoredJustification)>();
        price_law::<S, (Node, StoredJustification)>();
        entry_law::<S>();
        operand_law();
        growth_law();
        subfunction_law();
        reach_law();
        let (u, v) = question;
        match answer(table, cache, u, v) {
            Some(found) => Ok(Reply::Give(found)),
            None => Ok(Reply::Open(split(table, u, v))),
        }
    }

    fn high(operands: &Operands) -> (Node, Node) {
        (operands.u_high, operands.v_high)
    }

    fn low(operands: &Operands, _high: &(Node, Justification)) -> Option<(Node, Node)> {
        Some((operands.u_low, operands.v_low))
    }

    // The conjunction is kept. The clause that no entry names any more is retired.
    fn close(
        table: &mut Table<S>,
        cache: &mut AndCache,
        operands: &Operands,
        high: &(Node, Justification),
        low: &(Node, Justification),
    ) -> Result<(Node, Justification), TableError> {
        steps_law::<S>();
        accounts_law::<S>();
        operand_law();
        growth_law();
        table.keys_law();
        let found = finish(table, operands, high, low)?;
        let stored = StoredJustification::from_just(&found.1);
        match cache.keep(NodePair::of(operands.u, operands.v), (found.0, stored)) {
            Ok(given) => {
                retire(table, given);
                Ok(found)
            }
            Err(_) => {
                retire(table, clause_number(&found.1));
                Err(TableError::OutOfMemory)
            }
        }
    }
}

// The conjunction of a plain pair, and one that is kept.
fn answer<S: Sink + Drop>(
    table: &Table<S>,
    cache: &mut AndCache,
    u: Node,
    v: Node,
) -> Option<(Node, Justification)>
    requires can { CanConjoin table.now cache.old u v }
    ensures answers { IfSome result (λ found. Answers table.now cache.old u v table.now cache.new (Ok found)) }
    ensures unknown { result ≡ None → (cache.new ≡ cache.old) × IsUnknown cache.old u v }
{
    steps_law::<S>();
    accounts_law::<S>();
    price_law::<S, (Node, StoredJustification)>();
    subfunction_law();
    reach_law();
    canonical_law();
    if let Some(w) = plain(u, v) {
        return Some((w, Justification::Trivial));
    }
    table.keys_law();
    match cache.look(NodePair::of(u, v)) {
        None => None,
        Some(found) => Some((found.0, found.1.just())),
    }
}

// The conjunction of two nodes of which one is a constant, or which are the same.
fn plain(u: Node, v: Node) -> Option<Node>
    ensures exact { (w : NodeValue) → IsPlain u v w → result ≡ Some w }
    ensures plain { IfSome result (λ w. IsPlain u v w) }
    ensures conjoined { MatchOption result ((u ≢ v) × IsNoConstant u × IsNoConstant v) (λ w. (graph : Graph) (live : Live)
        → IsTrue (is_node graph u) → IsTrue (is_node graph v) → Conjoined graph live u v w Trivial) }
{
    match (u, v) {
        (Node::False, _) | (_, Node::False) => Some(Node::False),
        (Node::True, other) | (other, Node::True) => Some(other),
        (Node::Inner(_), Node::Inner(_)) if u == v => Some(u),
        (Node::Inner(_), Node::Inner(_)) => None,
    }
}

// The conjunction from its two sides: the node of their results, and its clause. Where the node is an operand the clause is true by
// itself, and nothing is added.
fn finish<S: Sink + Drop>(
    table: &mut Table<S>,
    operands: &Operands,
    high: &(Node, Justification),
    low: &(Node, Justification),
) -> Result<(Node, Justification), TableError>
    requires sound { IsSound table.old }
    requires split { AreSplit table.old.graph operands.now }
    requires high { Conjoined table.old.graph table.old.book.state.live operands.now.u_high operands.now.v_high high.now.0 high.now.1 }
    requires low { Conjoined table.old.graph table.old.book.state.live operands.now.u_low operands.now.v_low low.now.0 low.now.1 }
    ensures conjoined { IfOk result
        (λ found. Conjoined table.new.graph table.new.book.state.live operands.now.u operands.now.v found.0 found.1) }
    ensures steps { Steps table.old table.new 2 (error_of result) }
    ensures retires { RetiresNew table.old table.new }
    ensures gives { UnlessTorn result (GivesOne table.old table.new (found_just result)) }
    ensures named { IfOk result (λ found. IsNewJustification table.old.book.state table.new.book.state found.1) }
    ensures children { IfOk result (λ found. HasChildren table.new.graph operands.now.level high.now.0 low.now.0 found.0) }
    ensures made { MakesOnly table.old.graph table.new.graph (conjunction_of table.old.graph operands.now.u operands.now.v) }
    ensures reachable { IfOk result (λ found. ReachesNew table.old.graph table.new.graph found.0) }
    ensures lacks { result ≡ Err NodeLimit → LacksPart table.new.graph (conjunction_of table.old.graph operands.now.u operands.now.v) }
{
    steps_law::<S>();
    accounts_law::<S>();
    entry_law::<S>();
    operand_law();
    cofactor_law();
    growth_law();
    subfunction_law();
    reach_law();
    missing_law();
    literal_law();
    let made = table.node(operands.level, high.0, low.0);
    // The nodes are reduced after a failed write too.
    table.table_law();
    let w = made?;
    if is_operand(w, operands) {
        return Ok((w, Justification::Trivial));
    }
    let just = justify(table, operands, w, high, low)?;
    Ok((w, just))
}

fn is_operand(w: Node, operands: &Operands) -> bool
    ensures { IsTrue result ↔ ((w ≡ operands.now.u) ⊎ (w ≡ operands.now.v)) }
{
    w == operands.u || w == operands.v
}
