// The computed caches of all operations, which a run keeps from call to call. Their entries stay right as one list.
ghost use Rattle.std.specs.Prelude.{◌≡◌, ◌≢◌, ◌≤◌, ◌<◌, ◌*◌, ℕ, List, [], Contains, Err, IsTrue, IfOk, length};
ghost use Rattle.node_table.specs.declared.error.TableError.TheVariants.{NodeLimit};
ghost use Rattle.node_table.specs.Diagram.{is_node, levels};
ghost use Rattle.node_table.specs.Made.{LacksPart, MakesOnly};
ghost use Rattle.node_table.specs.Progress.{Steps, error_of};
ghost use Rattle.node_table.specs.Table.{AddsAtMost, IsSound, UnlessTorn};
ghost use Rattle.node_table.specs.declared.node.Node.{Node as NodeValue};
ghost use Rattle.operations.specs.Budget.{most_additions};
ghost use Rattle.operations.specs.Entries.{Accounts, Fits, IsNamed};
ghost use Rattle.operations.specs.Price.{HoldsReached};
ghost use Rattle.operations.specs.Results.{Conjoined, Quantified};
ghost use Rattle.apply_and.specs.Conjunction.{conjunction_of};
ghost use Rattle.imply.specs.Implication.{IsDecided};
ghost use Rattle.quantify.specs.Quantification.{quantification_of};
ghost use Rattle.quantify.specs.RunsFor.{LacksOneOf, MakesOnlyOf};
ghost use Rattle.quantify.specs.SomeValues.{AreLevels, IsFromPlace, SetQuantified, function_of};
ghost use Rattle.bdd_terms.specs.Caches.{HaveSize, KeepsEntries, all_entries, sizes};

use crate::capacity::Capacity;
use crate::reading::{CacheLookups, Lookups};
use apply_and::{AndCache, and};
use cnf_base::OutOfMemory;
use host_io::Sink;
use imply::{ImplyCache, implies};
use node_table::{Justification, Marks, Node, Table, TableError, steps_law};
use operations::{Purge, entry_law, purge_law};
use quantify::{ExistsCache, OrCache, exists, exists_all};
use std::alloc::Global;

/// The caches of conjunctions, implications, quantifications and disjunctions.
#[derive(Drop)]
pub struct Caches {
    ands: AndCache,
    implications: ImplyCache,
    quantifications: ExistsCache,
    ors: OrCache,
    // How many entries each may have.
    capacity: Capacity,
}

impl Caches {
    /// Empty caches of at most so many entries each. Memory comes with the entries.
    pub fn new(alloc: Global, capacity: u32) -> Result<Caches, OutOfMemory>
        requires { 1 ≤ capacity }
        ensures { IfOk result (λ caches. (all_entries caches ≡ []) × HaveSize caches capacity) }
    {
        let ands = AndCache::new(alloc, capacity)?;
        let implications = ImplyCache::new(alloc, capacity)?;
        let quantifications = ExistsCache::new(alloc, capacity)?;
        let ors = OrCache::new(alloc, capacity)?;
        Ok(Caches {
            ands,
            implications,
            quantifications,
            ors,
            capacity: Capacity::new(capacity),
        })
    }

    /// The look-ups so far.
    pub fn lookups(&self) -> CacheLookups {
        CacheLookups {
            conjunctions: lookups_of(self.ands.uses()),
            implications: lookups_of(self.implications.uses()),
            quantifications: lookups_of(self.quantifications.uses()),
            disjunctions: lookups_of(self.ors.uses()),
        }
    }

    /// For the prover alone: no more entries name clauses than two caches may have.
    pub fn few_law(&self)
        ensures { (size : ℕ) → HaveSize self.now size → (ids : List ℕ) × (length ids ≤ 2 * size)
            × ((id : ℕ) → IsNamed (all_entries self.now) id → Contains ids id) }
    {
        self.ands.few_law();
        self.implications.few_law();
    }

    /// The conjunction of two nodes, and why its clause holds.
    pub fn and<S: Sink + Drop>(
        &mut self,
        table: &mut Table<S>,
        u: Node,
        v: Node,
    ) -> Result<(Node, Justification), TableError>
        requires sound { IsSound table.old }
        requires first { IsTrue (is_node table.old.graph u) }
        requires second { IsTrue (is_node table.old.graph v) }
        requires fits { Fits table.old (all_entries self.old) }
        ensures conjoined { IfOk result (λ found. Conjoined table.new.graph table.new.book.state.live u v found.0 found.1) }
        ensures steps { Steps table.old table.new
            (most_additions (levels table.old.graph)) (error_of result) }
        ensures keeps { KeepsEntries table.old table.new (all_entries self.old) (all_entries self.new) (error_of result) }
        ensures accounts { UnlessTorn result (Accounts table.old table.new (all_entries self.old) (all_entries self.new)) }
        // Where the caches have room for all pairs of inner nodes that the operands reach, two clauses for each of these.
        ensures price { (size : ℕ) (us vs : List NodeValue) → HaveSize self.old size → HoldsReached table.old.graph u us
            → HoldsReached table.old.graph v vs → length us * length vs ≤ size
            → AddsAtMost (2 * (length us * length vs)) table.old table.new }
        ensures sizes { sizes self.new ≡ sizes self.old }
        ensures made { MakesOnly table.old.graph table.new.graph (conjunction_of table.old.graph u v) }
        ensures lacks { result ≡ Err NodeLimit → LacksPart table.new.graph (conjunction_of table.old.graph u v) }
    {
        steps_law::<S>();
        entry_law::<S>();
        and(table, &mut self.ands, u, v)
    }

    /// Why v holds wherever u does; none where it doesn't. No node is made.
    pub fn implies<S: Sink + Drop>(
        &mut self,
        table: &mut Table<S>,
        u: Node,
        v: Node,
    ) -> Result<Option<Justification>, TableError>
        requires sound { IsSound table.old }
        requires first { IsTrue (is_node table.old.graph u) }
        requires second { IsTrue (is_node table.old.graph v) }
        requires fits { Fits table.old (all_entries self.old) }
        ensures decided { IfOk result (λ answer. IsDecided table.new.graph table.new.book.state.live u v answer) }
        ensures steps { Steps table.old table.new
            (most_additions (levels table.old.graph)) (error_of result) }
        ensures keeps { KeepsEntries table.old table.new (all_entries self.old) (all_entries self.new) (error_of result) }
        ensures accounts { UnlessTorn result (Accounts table.old table.new (all_entries self.old) (all_entries self.new)) }
        // Where the caches have room for all pairs of inner nodes that the operands reach, two clauses for each of these.
        ensures price { (size : ℕ) (us vs : List NodeValue) → HaveSize self.old size → HoldsReached table.old.graph u us
            → HoldsReached table.old.graph v vs → length us * length vs ≤ size
            → AddsAtMost (2 * (length us * length vs)) table.old table.new }
        ensures sizes { sizes self.new ≡ sizes self.old }
        ensures nodes { table.new.graph ≡ table.old.graph }
        ensures no_node_limit { result ≢ Err NodeLimit }
    {
        steps_law::<S>();
        entry_law::<S>();
        implies(table, &mut self.implications, u, v)
    }

    /// The node that holds where some value of this level's variable makes u hold. No clause is added beside the definitions
    /// of new nodes.
    pub fn exists<S: Sink + Drop>(
        &mut self,
        table: &mut Table<S>,
        u: Node,
        level: u32,
    ) -> Result<Node, TableError>
        requires sound { IsSound table.old }
        requires stands { IsTrue (is_node table.old.graph u) }
        requires fits { Fits table.old (all_entries self.old) }
        ensures quantified { IfOk result (λ w. Quantified table.new.graph u level w) }
        ensures steps { Steps table.old table.new 0
            (error_of result) }
        ensures keeps { KeepsEntries table.old table.new (all_entries self.old) (all_entries self.new) (error_of result) }
        ensures accounts { UnlessTorn result (Accounts table.old table.new (all_entries self.old) (all_entries self.new)) }
        ensures sizes { sizes self.new ≡ sizes self.old }
        ensures made { MakesOnly table.old.graph table.new.graph (quantification_of table.old.graph u level) }
        ensures lacks { result ≡ Err NodeLimit → LacksPart table.new.graph (quantification_of table.old.graph u level) }
    {
        entry_law::<S>();
        exists(table, &mut self.quantifications, &mut self.ors, u, level)
    }

    /// The node that holds where some values of these levels' variables make u hold. What is found but for disjunctions is forgotten.
    pub fn exists_all<S: Sink + Drop>(
        &mut self,
        table: &mut Table<S>,
        u: Node,
        set: &[u32],
    ) -> Result<Node, TableError>
        requires sound { IsSound table.old }
        requires stands { IsTrue (is_node table.old.graph u) }
        requires fits { Fits table.old (all_entries self.old) }
        requires levels { AreLevels table.old.graph set.now }
        ensures quantified { IfOk result (λ w. SetQuantified table.new.graph u set.now w) }
        ensures steps { Steps table.old table.new 0
            (error_of result) }
        ensures keeps { KeepsEntries table.old table.new (all_entries self.old) (all_entries self.new) (error_of result) }
        ensures accounts { UnlessTorn result (Accounts table.old table.new (all_entries self.old) (all_entries self.new)) }
        ensures sizes { sizes self.new ≡ sizes self.old }
        // Each new node is a subfunction of what u becomes by the levels from some place of the set on.
        ensures made { MakesOnlyOf table.old.graph table.new.graph (IsFromPlace (function_of table.old.graph u) set.now) }
        ensures lacks { result ≡ Err NodeLimit → LacksOneOf table.new.graph (IsFromPlace (function_of table.old.graph u) set.now) }
    {
        entry_law::<S>();
        exists_all(table, &mut self.ors, u, set, self.capacity.entries)
    }
}

impl Purge for Caches {
    ghost entries = { all_entries };

    ghost sizes = { sizes };

    fn purge<S: Sink + Drop>(&mut self, table: &mut Table<S>, marks: &Marks) {
        entry_law::<S>();
        purge_law::<S>();
        steps_law::<S>();
        self.ands.purge(table, marks);
        self.implications.purge(table, marks);
        self.quantifications.purge(table, marks);
        self.ors.purge(table, marks);
    }
}

fn lookups_of(uses: (u64, u64)) -> Lookups {
    Lookups {
        found: uses.0,
        missed: uses.1,
    }
}
