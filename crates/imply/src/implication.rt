// Whether one node holds wherever another does, by their cofactors at the earlier of their variables. The first pair of
// cofactors that doesn't ends the call. (Bryant, Heule: Generating Extended Resolution Proofs with a BDD-Based SAT Solver,
// 2021, section 4.3.)
ghost use Rattle.std.specs.Prelude.{◌≡◌, ◌≢◌, ◌⊎◌, ◌≤◌, ◌*◌, ◌++◌, ℕ, List, Option, Ok, Err, Contains, IsTrue, IfOk, IfSome, MatchOption};
ghost use Rattle.std.specs.Prelude.{None, Some, length};
ghost use Rattle.node_table.specs.declared.error.TableError.TheVariants.{NodeLimit, IdLimit};
ghost use Rattle.node_table.specs.declared.node.Node.{Node as NodeValue};
ghost use Rattle.node_table.specs.declared.node.Justification.{Justification as JustificationValue};
ghost use Rattle.node_table.specs.declared.node.Justification.TheVariants.{Clause};
ghost use Rattle.node_table.specs.Diagram.{is_node};
ghost use Rattle.node_table.specs.Table.{IsSound, AddsAtMost, IsUsedUp, UnlessTorn};
ghost use Rattle.node_table.specs.Progress.{Steps, error_of};
ghost use Rattle.operations.specs.Operands.{AreSplit, levels_from};
ghost use Rattle.operations.specs.Results.{Implied};
ghost use Rattle.operations.specs.Budget.{most_additions};
ghost use Rattle.operations.specs.Entries.{Entry, Accounts, AreApart, Implication, Fits, HaveSame, NamesOnly, RetiresOwn};
ghost use Rattle.operations.specs.Pairs.{IsNoConstant};
ghost use Rattle.operations.specs.Price.{HoldsReached};
ghost use Rattle.imply.specs.Cache.{entries, most_entries};
ghost use Rattle.imply.specs.Calls.{Answers, CanImply, IsClosed, IsUnknown, implications};
ghost use Rattle.imply.specs.Implication.{IsDecided, IsPlain};

use crate::additions::justify;
use crate::cache::ImplyCache;
use host_io::Sink;
use node_table::{Justification, Node, Table, TableError, cofactor_law, growth_law, steps_law};
use operations::{
    Operands, Operation, Reply, StoredJustification, accounts_law, budget_law, cache_law,
    clause_number, entry_law, operand_law, price_law, retire, split, work_off,
};
use std::alloc::Global;

/// Why v holds wherever u does; none where it doesn't. Nodes and clauses that were there stay, and no node is made.
pub fn implies<S: Sink + Drop>(
    table: &mut Table<S>,
    cache: &mut ImplyCache,
    u: Node,
    v: Node,
) -> Result<Option<Justification>, TableError>
    requires sound { IsSound table.old }
    requires first { IsTrue (is_node table.old.graph u) }
    requires second { IsTrue (is_node table.old.graph v) }
    requires fits { Fits table.old (entries cache.old) }
    ensures decided { IfOk result (λ answer. IsDecided table.new.graph table.new.book.state.live u v answer) }
    ensures steps { Steps table.old table.new
        (most_additions (levels_from table.old.graph u v)) (error_of result) }
    ensures nodes { table.new.graph ≡ table.old.graph }
    ensures no_node_limit { result ≢ Err NodeLimit }
    // The limit of numbers is told only where none is left.
    ensures id_limit { result ≡ Err IdLimit → IsUsedUp table.new }
    // The cache fits, and so does it together with others that did, of which none names a clause that it named.
    ensures fits { UnlessTorn result (Fits table.new (entries cache.new)) }
    ensures others { (others : List Entry) → Fits table.old (entries cache.old ++ others) → AreApart (entries cache.old) others
        → UnlessTorn result (Fits table.new (entries cache.new ++ others) × AreApart (entries cache.new) others) }
    ensures named { UnlessTorn result (NamesOnly (entries cache.old) (entries cache.new) table.old.book.state table.new.book.state) }
    ensures retires { RetiresOwn table.old table.new (entries cache.old) }
    // No clause is lost, and that of the result isn't retired.
    ensures accounts { UnlessTorn result (Accounts table.old table.new (entries cache.old) (entries cache.new)) }
    ensures unretired { (id : ℕ) → result ≡ Ok (Some (Clause id)) → Contains table.new.retired id → ⊥ }
    // Where the cache is as large as the pairs of inner nodes that the operands reach, two clauses for each of these.
    ensures price { (us vs : List NodeValue) → HoldsReached table.old.graph u us → HoldsReached table.old.graph v vs → length us * length vs
        ≤ most_entries cache.old
        → AddsAtMost (2 * (length us * length vs)) table.old table.new }
    // An implication that is kept is found again without a clause more; a new one that holds is kept; one is forgotten only
    // where the cache was full.
    ensures known { (just : JustificationValue) → Contains (entries cache.old) (Implication u v just)
        → (result ≡ Ok (Some just)) × (table.new ≡ table.old) × HaveSame (entries cache.old) (entries cache.new) }
    ensures kept { u ≢ v → IsNoConstant u → IsNoConstant v → (just : JustificationValue) → result ≡ Ok (Some just)
        → Contains (entries cache.new) (Implication u v just) }
    ensures remembered { (entry : Entry) → Contains (entries cache.old) entry → Contains (entries cache.new) entry
        ⊎ (most_entries cache.old ≤ length (entries cache.new)) }
    ensures no_fewer { length (entries cache.old) ≤ length (entries cache.new) }
    ensures capacity { most_entries cache.new ≡ most_entries cache.old }
    // A constant, and a node with itself: nothing changes.
    ensures plain { (answer : Option JustificationValue) → IsPlain u v answer → (result ≡ Ok answer) × (table.new ≡ table.old)
        × (cache.new ≡ cache.old) }
{
    accounts_law::<S>();
    price_law::<S, StoredJustification>();
    work_off::<S, ImplyOperation>(table, cache, (u, v))
}

/// The implication as an operation on diagrams.
struct ImplyOperation;

impl<S: Sink + Drop> Operation<S> for ImplyOperation {
    type Cache = ImplyCache;

    type Question = (Node, Node);

    type Parts = Operands;

    type Answer = Option<Justification>;

    ghost calls = { implications };

    fn alloc(cache: &ImplyCache) -> Global {
        cache.alloc()
    }

    fn ask(
        table: &mut Table<S>,
        cache: &mut ImplyCache,
        question: (Node, Node),
    ) -> Result<Reply<Operands, Option<Justification>>, TableError> {
        steps_law::<S>();
        accounts_law::<S>();
        cache_law::<(Node, Node), StoredJustification>();
        price_law::<S, StoredJustification>();
        budget_law::<S>();
        entry_law::<S>();
        operand_law();
        growth_law();
        cofactor_law();
        let (u, v) = question;
        match answer(table, cache, u, v) {
            Some(found) => Ok(Reply::Give(found)),
            None => Ok(Reply::Open(split(table, u, v))),
        }
    }

    fn high(operands: &Operands) -> (Node, Node) {
        (operands.u_high, operands.v_high)
    }

    fn low(operands: &Operands, high: &Option<Justification>) -> Option<(Node, Node)> {
        match high {
            None => None,
            Some(_) => Some((operands.u_low, operands.v_low)),
        }
    }

    fn close(
        table: &mut Table<S>,
        cache: &mut ImplyCache,
        operands: &Operands,
        high: &Option<Justification>,
        low: &Option<Justification>,
    ) -> Result<Option<Justification>, TableError> {
        match (high, low) {
            (Some(high), Some(low)) => finish(table, cache, operands, high, low),
            _ => Ok(None),
        }
    }
}

// What a plain pair and one that is kept are answered.
fn answer<S: Sink + Drop>(
    table: &Table<S>,
    cache: &mut ImplyCache,
    u: Node,
    v: Node,
) -> Option<Option<Justification>>
    requires can { CanImply table.now cache.old u v }
    ensures answers { IfSome result (λ found. Answers table.now cache.old u v table.now cache.new (Ok found)) }
    ensures unknown { result ≡ None → (cache.new ≡ cache.old) × IsUnknown cache.old u v }
{
    steps_law::<S>();
    accounts_law::<S>();
    price_law::<S, StoredJustification>();
    cofactor_law();
    if let Some(found) = plain(u, v) {
        return Some(found);
    }
    match cache.look((u, v)) {
        None => None,
        Some(stored) => Some(Some(stored.just())),
    }
}

// What is answered where a node is a constant, or both are the same.
fn plain(u: Node, v: Node) -> Option<Option<Justification>>
    ensures exact { (answer : Option JustificationValue) → IsPlain u v answer → result ≡ Some answer }
    ensures plain { MatchOption result ((u ≢ v) × IsNoConstant u × IsNoConstant v) (λ answer. IsPlain u v answer) }
{
    match (u, v) {
        (Node::False, _) | (_, Node::True) => Some(Some(Justification::Trivial)),
        (Node::True, _) | (_, Node::False) => Some(None),
        (Node::Inner(_), Node::Inner(_)) if u == v => Some(Some(Justification::Trivial)),
        (Node::Inner(_), Node::Inner(_)) => None,
    }
}

// The step from both sides: the implication is kept. The clause that no entry names any more is retired.
fn finish<S: Sink + Drop>(
    table: &mut Table<S>,
    cache: &mut ImplyCache,
    operands: &Operands,
    high: &Justification,
    low: &Justification,
) -> Result<Option<Justification>, TableError>
    requires sound { IsSound table.old }
    requires fits { Fits table.old (entries cache.old) }
    requires split { AreSplit table.old.graph operands.now }
    requires high { Implied table.old.graph table.old.book.state.live operands.now.u_high operands.now.v_high high.now }
    requires low { Implied table.old.graph table.old.book.state.live operands.now.u_low operands.now.v_low low.now }
    ensures { IsClosed table.old cache.old operands.now table.new cache.new result }
{
    steps_law::<S>();
    accounts_law::<S>();
    operand_law();
    growth_law();
    cofactor_law();
    let just = justify(table, operands, high, low)?;
    let stored = StoredJustification::from_just(&just);
    match cache.keep((operands.u, operands.v), stored) {
        Ok(given) => {
            retire(table, given);
            Ok(Some(just))
        }
        Err(_) => {
            retire(table, clause_number(&just));
            Err(TableError::OutOfMemory)
        }
    }
}
