// The unique table: nodes with their extension variables and defining clauses on the proof. (Bryant, 1986; Bryant,
// Heule: Generating Extended Resolution Proofs with a BDD-Based SAT Solver, 2021.)
ghost use Rattle.std.specs.Prelude.{◌≡◌, ◌≢◌, ◌↔◌, ◌⊎◌, ◌≤◌, ◌<◌, ◌+◌, ◌-◌, ◌++◌, ℕ, ℤ, pos, List, [], ◌∷◌, Contains, None, Some, Ok, Err};
ghost use Rattle.std.specs.Prelude.{IsTrue, IsFalse, IsOk, IsErr, OnOk, OnErr, IfOk, IfErr, IsErrOf, MatchOption, true, false, is_ok, is_some};
ghost use Rattle.std.specs.Prelude.{length, vec_capacity};
ghost use Rattle.std.specs.Option.{option_copied, option_map};
ghost use Rattle.std.specs.FinMap as map;
ghost use Rattle.cnf_base.specs.Truth.{assignment_of, AreClausesOf};
ghost use Rattle.cnf_base.specs.Limits.{max_vars, most_nodes_allowed};
ghost use Rattle.lrat_rules.specs.State.{clause_at, start};
ghost use Rattle.lrat_rules.specs.Strict.{RefutesStrictly};
ghost use Rattle.clause_ledger.specs.Book.{AreTold, addition, deletion, with_next};
ghost use Rattle.node_table.specs.declared.node.Branch.{Branch as BranchValue};
ghost use Rattle.node_table.specs.declared.error.TableError.TheVariants.{NodeLimit, IdLimit, WriteFault};
ghost use Rattle.node_table.specs.Diagram.{Graph, IsOrder, IsReduced, IsBelow, branch_at, branch_of, is_node, levels, level_of, high_at};
ghost use Rattle.node_table.specs.Diagram.{low_at, variable_at};
ghost use Rattle.node_table.specs.Value.{value_of, by_level};
ghost use Rattle.node_table.specs.Defined.{IsDefined, atom_of, defs_of, definition_count, literal_of_branch};
ghost use Rattle.node_table.specs.Tied.{IsOverNodes};
ghost use Rattle.node_table.specs.Stored.{HasSmallKey};
ghost use Rattle.node_table.specs.Table.{TableState, IsSound, IsAddedTo, AddsNone, HasChildren, IsMissing, IsWanted, IsMade, IsMadeInPart};
ghost use Rattle.node_table.specs.Table.{IsSame, UnlessTorn, live_nodes, opened, without_retired};
ghost use Rattle.node_table.specs.Progress.{Leaves, Steps, StepsOrRefutes, error_of};
ghost use Rattle.node_table.specs.Made.{inner};
ghost use Rattle.node_table.specs.declared.node.Node.{Node as NodeValue};
ghost use Rattle.node_table.specs.Marks.{AreMarks, AreReached};
ghost use Rattle.node_table.specs.Swept.{IsSwept};
ghost use Rattle.node_table.specs.Deleted.{AreClear, DefinesUnmarked, DeletesUnmarked, TearsUnmarked};

use crate::define::write_definitions;
use crate::deletion::delete_definitions;
use crate::diagram::{Diagram, positive, same_node};
use crate::error::TableError;
use crate::marks::Marks;
use crate::node::{Defs, Node, NodeKey};
use crate::numbers::defs_of;
use clause_ledger::Ledger;
use cnf_base::{Id, Lit, OutOfMemory};
use hint_chain::Atom;
use host_io::Sink;
use lrat_rules::{marks_law, strict_addition_law};
use std::alloc::Global;
use std::marker::Model;

/// Nodes over an order of the variables, with a ledger that holds their defining clauses.
#[derive(Drop)]
pub struct Table<S: Sink + Drop> {
    diagram: Diagram,
    ledger: Ledger<S>,
    max_nodes: u32,
    // How many clauses the formula has: those are never deleted, whichever formula the ledger's proof is of.
    inputs: u64,
    // To be deleted. Each added clause has a place here.
    retired: Vec<Id>,
    places: usize,
}

impl<S: Sink + Drop> Model for Table<S> {
    ghost use Rattle.std.specs.Prelude.{◌≤◌, IsTrue, length, vec_capacity};
    ghost use Rattle.cnf_base.specs.Limits.{most_nodes_allowed};
    ghost use Rattle.node_table.specs.Table.{TableState, table_code, live_nodes};
    ghost use Rattle.node_table.specs.Places.{HavePlaces, AreNumberedAbove};

    ghost Value = { TableState S };

    ghost coded = { table_code S.code };

    ghost view = { λ t. record {
      graph = t.diagram;
      book = t.ledger;
      max_nodes = t.max_nodes;
      inputs = t.inputs;
      retired = t.retired.items;
    } };

    ghost invariant = { λ t. (t.max_nodes ≤ most_nodes_allowed) × (live_nodes t.diagram ≤ t.max_nodes)
        × (IsTrue t.ledger.in_step → HavePlaces t.diagram t.ledger.state.live t.inputs t.places (vec_capacity t.retired))
        × AreNumberedAbove t.inputs t.diagram × (length t.ledger.formula ≤ t.inputs) };
}

impl<S: Sink + Drop> Table<S> {
    /// Opens a table without nodes over a ledger and the variables 1, 2, .. in this order. A refusal for want of memory
    /// hands the ledger back.
    pub fn open(
        alloc: Global,
        ledger: Ledger<S>,
        order: &[u32],
        max_nodes: u32,
    ) -> Result<Table<S>, (Ledger<S>, OutOfMemory)>
        requires order { IsOrder order.now }
        requires few_levels { length order.now ≤ max_vars }
        requires few_nodes { max_nodes ≤ most_nodes_allowed }
        ensures opened { IfOk result (λ table. table ≡ opened order.now ledger max_nodes) }
        ensures refused { IfErr result (λ back. back.0 ≡ ledger) }
    {
        match Diagram::new(alloc, order) {
            Ok(diagram) => Ok(Table::new(alloc, ledger, diagram, max_nodes)),
            Err(e) => Err((ledger, e)),
        }
    }

    /// A table without nodes over the formula's clauses. `max_nodes` is the greatest number of inner nodes that may be
    /// live at once.
    pub fn new(alloc: Global, ledger: Ledger<S>, diagram: Diagram, max_nodes: u32) -> Self
        requires few { max_nodes ≤ most_nodes_allowed }
        requires empty { diagram.nodes ≡ map.empty }
        ensures { result ≡ record { graph = diagram; book = ledger; max_nodes = max_nodes; inputs = ledger.state.top; retired = [] } }
    {
        ledger.book_law();
        let inputs = ledger.last_id();
        Table {
            diagram,
            ledger,
            max_nodes,
            inputs,
            retired: Vec::new(alloc),
            places: 0,
        }
    }

    /// For the prover alone: its nodes are reduced, over an order of the variables, and no more than are allowed.
    pub fn table_law(&self)
        ensures reduced { IsReduced self.now.graph }
        ensures ordered { IsOrder self.now.graph.order }
        ensures few_levels { levels self.now.graph ≤ max_vars }
        ensures few_nodes { live_nodes self.now.graph ≤ self.now.max_nodes }
    {
        let _ = self.max_nodes;
        self.diagram.diagram_law();
    }

    /// For the prover alone: the keys of its nodes fit a child's word.
    pub fn keys_law(&self)
        ensures { (node : NodeValue) → IsTrue (is_node self.now.graph node) → HasSmallKey node }
    {
        let _ = self.max_nodes;
        self.diagram.keys_law();
    }

    /// How many inner nodes are live, at most as many as are allowed.
    pub fn live(&self) -> u32
        ensures { result ≡ live_nodes self.now.graph }
    {
        self.diagram.len()
    }

    /// The keys of inner nodes are below this.
    pub fn key_end(&self) -> u32
        ensures { (key : ℕ) (branch : BranchValue) → branch_at self.now.graph key ≡ Some branch → key < result }
    {
        self.diagram.key_end()
    }

    /// How many inner nodes there were at most at once.
    pub fn most(&self) -> u32 {
        self.diagram.most()
    }

    /// The node whose cofactors at this level are these children: the child where they are equal, else the node that
    /// is there already, or a new one with its defining clauses. A refusal, but for a failed write, changes nothing.
    pub fn node(&mut self, level: u32, high: Node, low: Node) -> Result<Node, TableError>
        requires sound { IsSound self.old }
        requires level { level < levels self.old.graph }
        requires high { IsBelow self.old.graph level high }
        requires low { IsBelow self.old.graph level low }
        ensures children { IfOk result (λ node. HasChildren self.new.graph level high low node) }
        ensures steps { Steps self.old self.new 0 (error_of result) }
        ensures retired { self.new.retired ≡ self.old.retired }
        ensures none_added { UnlessTorn result (AddsNone self.old self.new) }
        // No other node is new, however the call ends.
        ensures only { (key : ℕ) (branch : BranchValue) → branch_at self.new.graph key ≡ Some branch
            → (branch_at self.old.graph key ≡ Some branch) ⊎ HasChildren self.new.graph level high low (inner key) }
        ensures given { UnlessTorn result ((key : ℕ) (branch : BranchValue) → branch_at self.new.graph key ≡ Some branch
            → (branch_at self.old.graph key ≡ Some branch) ⊎ (result ≡ Ok (inner key))) }
        // Equal children give the child and a known node itself, and nothing is written.
        ensures equal { high ≡ low → (result ≡ Ok high) × (self.new ≡ self.old) }
        ensures known { (key : ℕ) (branch : BranchValue) → branch_at self.old.graph key ≡ Some branch → branch.level ≡ level → branch.high
            ≡ high → branch.low ≡ low
            → (result ≡ Ok (inner key)) × (self.new ≡ self.old) }
        // A node that is wanted is made by its definitions.
        ensures made { IsWanted self.old.graph level high low → IfOk result (λ node. (variable : ℕ)
            × IsMade self.old self.new level high low variable node) }
        ensures torn { result ≡ Err WriteFault → (variable : ℕ)
            × IsMadeInPart self.old self.new level high low variable }
        // The limits, tried in this order.
        ensures node_limit { (result ≡ Err NodeLimit) ↔ (IsWanted self.old.graph level high low
            × (self.old.max_nodes ≤ live_nodes self.old.graph)) }
        ensures id_limit { (result ≡ Err IdLimit) ↔ (IsWanted self.old.graph level high low
            × (live_nodes self.old.graph < self.old.max_nodes)
            × (self.old.book.limit < self.old.book.state.top + definition_count high low)) }
        // Want of memory is told only where a node would be made: one that is there is found, and a limit is told before.
        ensures memory { result ≡ Err TableError.OutOfMemory → IsWanted self.old.graph level high low
            × (live_nodes self.old.graph < self.old.max_nodes)
            × (self.old.book.state.top + definition_count high low ≤ self.old.book.limit) }
        ensures refused { IfErr result (λ e. e ≢ WriteFault → IsSame self.old self.new) }
    {
        if same_node(high, low) {
            return Ok(high);
        }
        if let Some(key) = self.diagram.find(level, high, low) {
            return Ok(Node::Inner(key));
        }
        self.make(level, high, low)
    }

    /// Adds a clause over the formula's variables and those of live nodes, with a strict refutation as its hints. It may
    /// be retired, for which there is room then. A refusal, but for a failed write, changes nothing.
    pub fn justify(&mut self, clause: &[Lit], hints: &[Id]) -> Result<Id, TableError>
        requires sound { IsSound self.old }
        requires strict { RefutesStrictly self.old.book.state.live clause.now hints.now }
        requires over_nodes { IsOverNodes self.old.graph clause.now }
        ensures added { IfOk result (λ id. (id ≡ self.old.book.state.top + 1)
            × (self.new.book.state ≡ with_next self.old.book.state clause.now)) }
        ensures own { IfOk result (λ id. IsAddedTo self.new id) }
        ensures unretired { IfOk result (λ id. Contains self.new.retired id → ⊥) }
        ensures steps { StepsOrRefutes self.old self.new 1
            (error_of result) }
        ensures no_empty { clause.now ≢ [] → Steps self.old self.new 1
            (error_of result) }
        ensures nodes { self.new.graph ≡ self.old.graph }
        ensures retired { self.new.retired ≡ self.old.retired }
        // exactly this step is told
        ensures step { OnOk result (AreTold true self.old.book self.new.book (addition self.old.book.state clause.now hints.now ∷ [])) }
        ensures torn { result ≡ Err WriteFault
            → AreTold false self.old.book self.new.book (addition self.old.book.state clause.now hints.now ∷ []) }
        ensures id_limit { (result ≡ Err IdLimit) ↔ (self.old.book.limit ≤ self.old.book.state.top) }
        ensures memory { result ≡ Err TableError.OutOfMemory → self.old.book.state.top < self.old.book.limit }
        ensures no_node_limit { result ≢ Err NodeLimit }
        ensures refused { IfErr result (λ e. e ≢ WriteFault → IsSame self.old self.new) }
    {
        marks_law();
        strict_addition_law();
        if self.ledger.ids_left() == 0 {
            return Err(TableError::IdLimit);
        }
        reserve_place(&mut self.retired, self.places)?;
        match self.ledger.add(clause, hints) {
            Ok(id) => {
                self.places += 1;
                Ok(id)
            }
            Err(e) => Err(TableError::from(e)),
        }
    }

    /// Puts a clause that was added on the list of those that are to be deleted. It stays live until then, and takes no
    /// memory.
    pub fn retire(&mut self, id: Id)
        requires sound { IsSound self.old }
        requires own { IsAddedTo self.old id }
        requires unretired { Contains self.old.retired id → ⊥ }
        ensures retired { self.new ≡ record self.old { retired = self.old.retired ++ id ∷ [] } }
        ensures steps { Steps self.old self.new 0 None }
    {
        self.retired.push_reserved(id);
    }

    /// Deletes the retired clauses by one line. Only `WriteFault` may come. It keeps less than `Steps`, so it says of each clause whether
    /// it is live afterwards, and what each exit leaves (`Leaves`).
    pub fn settle(&mut self) -> Result<(), TableError>
        requires sound { IsSound self.old }
        // exactly the step of this deletion is told
        ensures told { AreTold (is_ok result) self.old.book self.new.book (deletion self.old.book.state self.old.retired) }
        ensures state { self.new.book.state ≡ without_retired self.old }
        ensures settled { OnOk result (self.new ≡ record self.old { book = self.new.book; retired = [] }) }
        ensures some { OnErr result (self.old.retired ≢ []) }
        // However it ends, they are live no more, and all else is as it was.
        ensures gone { (id : ℕ) → Contains self.old.retired id → clause_at self.new.book.state.live id ≡ None }
        ensures stay { (id : ℕ) → (Contains self.old.retired id → ⊥) → clause_at self.new.book.state.live id
            ≡ clause_at self.old.book.state.live id }
        ensures nodes { self.new.graph ≡ self.old.graph }
        ensures top { self.new.book.state.top ≡ self.old.book.state.top }
        ensures leaves { Leaves self.old self.new (error_of result) }
        ensures error { IfErr result (λ e. e ≡ WriteFault) }
    {
        marks_law();
        match self.ledger.delete(self.retired.as_slice()) {
            Ok(()) => {
                self.places -= self.retired.len();
                self.retired.clear();
                Ok(())
            }
            Err(e) => Err(TableError::from(e)),
        }
    }

    /// Gives back the nodes that aren't marked, with the clauses that define them; their extension variables may be used
    /// again. Returns how many there were. Only `WriteFault` may come, and leaves the nodes as they were.
    pub fn sweep(&mut self, marks: &Marks) -> Result<u32, TableError>
        requires sound { IsSound self.old }
        requires marks { AreMarks self.old.graph marks.now }
        // No clause that was added beside the definitions of nodes holds their extension variables.
        requires clear { AreClear self.old.graph marks.now self.old.book.state.live self.old.inputs }
        ensures swept { OnOk result (IsSwept self.old.graph self.new.graph marks.now) }
        ensures gone { OnOk result ((id : ℕ) → DefinesUnmarked self.old.graph marks.now id → clause_at self.new.book.state.live id ≡ None) }
        ensures stay { (id : ℕ) → (DefinesUnmarked self.old.graph marks.now id → ⊥) → clause_at self.new.book.state.live id
            ≡ clause_at self.old.book.state.live id }
        ensures formula { (id : ℕ) → id ≤ self.old.inputs → clause_at self.new.book.state.live id ≡ clause_at self.old.book.state.live id }
        ensures none_added { OnOk result (AddsNone self.old self.new) }
        ensures top { self.new.book.state.top ≡ self.old.book.state.top }
        ensures retired { self.new.retired ≡ self.old.retired }
        ensures leaves { Leaves self.old self.new (error_of result) }
        ensures count { IfOk result (λ count. live_nodes self.new.graph + count ≡ live_nodes self.old.graph) }
        ensures error { IfErr result (λ e. e ≡ WriteFault) }
        ensures torn { OnErr result (self.new.graph ≡ self.old.graph) }
        // The steps that are told are these deletions.
        ensures lines { OnOk result (DeletesUnmarked self.old.book self.new.book self.old.graph marks.now) }
        ensures front { OnErr result (TearsUnmarked self.old.book self.new.book self.old.graph marks.now) }
    {
        marks_law();
        match delete_definitions(&mut self.ledger, &self.diagram, marks) {
            Ok(()) => Ok(self.diagram.sweep(marks)),
            Err(e) => Err(TableError::from(e)),
        }
    }

    /// The level of an inner node and its children; None for a constant.
    #[inline(always)]
    pub fn parts(&self, node: Node) -> Option<(u32, Node, Node)>
        ensures { MatchOption result (branch_of self.now.graph node ≡ None)
            (λ parts. (branch : BranchValue) × (branch_of self.now.graph node ≡ Some branch) × (parts.0 ≡ branch.level)
            × (parts.1 ≡ branch.high) × (parts.2 ≡ branch.low)) }
    {
        match self.diagram.branch(node) {
            None => None,
            Some(branch) => Some((branch.level, branch.high, branch.low)),
        }
    }

    /// The level of a node, from 0; the constants stand below all levels.
    #[inline(always)]
    pub fn level_of(&self, node: Node) -> u32
        ensures { result ≡ level_of self.now.graph node }
    {
        match self.diagram.branch(node) {
            None => self.diagram.levels(),
            Some(branch) => branch.level,
        }
    }

    /// The cofactors of a node at a level: its children where it is of this level, else the node itself.
    #[inline(always)]
    pub fn cofactors(&self, level: u32, node: Node) -> (Node, Node)
        ensures high { result.0 ≡ high_at self.now.graph level node }
        ensures low { result.1 ≡ low_at self.now.graph level node }
    {
        match self.diagram.branch(node) {
            None => (node, node),
            Some(branch) if branch.level == level => (branch.high, branch.low),
            Some(_) => (node, node),
        }
    }

    /// The literal of the variable of a level.
    #[inline(always)]
    pub fn variable(&self, level: u32) -> Lit
        requires { level < levels self.now.graph }
        ensures { result ≡ pos (variable_at self.now.graph level) }
    {
        positive(self.diagram.variable(level))
    }

    /// What a node puts into a clause.
    #[inline(always)]
    pub fn atom(&self, node: Node) -> Atom
        ensures { result ≡ atom_of self.now.graph node }
    {
        self.diagram.atom(node)
    }

    /// The literal of an inner node's extension variable; None for a constant.
    pub fn literal(&self, node: Node) -> Option<Lit>
        ensures { result ≡ option_map literal_of_branch (branch_of self.now.graph node) }
    {
        match self.diagram.atom(node) {
            Atom::Of(literal) => Some(literal),
            Atom::Always | Atom::Never => None,
        }
    }

    /// The numbers of a node's defining clauses; None for a constant.
    #[inline(always)]
    pub fn definitions(&self, node: Node) -> Option<Defs>
        ensures { result ≡ option_map defs_of (branch_of self.now.graph node) }
    {
        match self.diagram.branch(node) {
            None => None,
            Some(branch) => Some(defs_of(&branch)),
        }
    }

    /// The function of a node under an assignment of all variables, the first being that of variable 1.
    pub fn value(&self, node: Node, values: &[bool]) -> bool
        requires { IsTrue (is_node self.now.graph node) }
        ensures { result ≡ value_of self.now.graph (by_level self.now.graph.order (assignment_of values.now)) node }
    {
        self.diagram.value(node, values)
    }

    /// The place of a variable in the order, from 0; None where it is none of the variables.
    pub fn level(&self, variable: u32) -> Option<u32>
        ensures { MatchOption result ((level : ℕ) → level < levels self.now.graph → variable_at self.now.graph level ≢ variable)
            (λ level. (level < levels self.now.graph) × (variable_at self.now.graph level ≡ variable)) }
    {
        self.diagram.level(variable)
    }

    /// The variables, the top one first.
    pub fn order(&self) -> &[u32]
        ensures value { result.now ≡ self.now.graph.order }
        ensures few { levels self.now.graph ≤ max_vars }
    {
        self.diagram.order()
    }

    /// Marks the nodes that the roots reach. Only `OutOfMemory` may come.
    pub fn mark(&self, roots: &[Node]) -> Result<Marks, OutOfMemory>
        requires roots { (root : NodeValue) → Contains roots.now root → IsTrue (is_node self.now.graph root) }
        ensures reached { IfOk result (AreReached self.now.graph roots.now) }
        ensures marks { IfOk result (AreMarks self.now.graph) }
    {
        Marks::of(*self.retired.allocator(), &self.diagram, roots)
    }

    /// The allocator that it was made with.
    pub fn alloc(&self) -> Global {
        *self.retired.allocator()
    }

    pub fn ledger(&self) -> &Ledger<S>
        ensures { result.now ≡ self.now.book }
    {
        &self.ledger
    }

    pub fn into_ledger(self) -> Ledger<S>
        ensures { result ≡ self.book }
    {
        let Table {
            diagram: _,
            ledger,
            max_nodes: _,
            inputs: _,
            retired: _,
            places: _,
        } = self;
        ledger
    }

    // Makes a node that is wanted.
    fn make(&mut self, level: u32, high: Node, low: Node) -> Result<Node, TableError>
        requires sound { IsSound self.old }
        requires level { level < levels self.old.graph }
        requires high { IsBelow self.old.graph level high }
        requires low { IsBelow self.old.graph level low }
        requires wanted { IsWanted self.old.graph level high low }
        ensures steps { Steps self.old self.new 0 (error_of result) }
        ensures retired { self.new.retired ≡ self.old.retired }
        ensures none_added { UnlessTorn result (AddsNone self.old self.new) }
        ensures only { (key : ℕ) (branch : BranchValue) → branch_at self.new.graph key ≡ Some branch
            → (branch_at self.old.graph key ≡ Some branch) ⊎ HasChildren self.new.graph level high low (inner key) }
        ensures made { IfOk result (λ node. (variable : ℕ) × IsMade self.old self.new level high low variable node) }
        ensures torn { result ≡ Err WriteFault → (variable : ℕ)
            × IsMadeInPart self.old self.new level high low variable }
        ensures node_limit { (result ≡ Err NodeLimit) ↔ (self.old.max_nodes ≤ live_nodes self.old.graph) }
        ensures id_limit { (result ≡ Err IdLimit) ↔ ((live_nodes self.old.graph < self.old.max_nodes)
            × (self.old.book.limit < self.old.book.state.top + definition_count high low)) }
        ensures memory { result ≡ Err TableError.OutOfMemory → (live_nodes self.old.graph < self.old.max_nodes)
            × (self.old.book.state.top + definition_count high low ≤ self.old.book.limit) }
        ensures refused { IfErr result (λ e. e ≢ WriteFault → IsSame self.old self.new) }
    {
        marks_law();
        if self.diagram.len() >= self.max_nodes {
            return Err(TableError::NodeLimit);
        }
        if self.ledger.ids_left() < definition_count(high, low) {
            return Err(TableError::IdLimit);
        }
        self.ledger.reserve(4)?;
        let x = positive(self.diagram.variable(level));
        let high_atom = self.diagram.atom(high);
        let low_atom = self.diagram.atom(low);
        let first = self.ledger.last_id() + 1;
        let (key, variable) = self.diagram.push(level, high, low, first)?;
        let u = positive(variable);
        write_definitions(&mut self.ledger, u, x, &high_atom, &low_atom)?;
        Ok(Node::Inner(key))
    }
}

// Room for one more than these places.
fn reserve_place(retired: &mut Vec<Id>, places: usize) -> Result<(), OutOfMemory>
    requires { places ≤ vec_capacity retired.old }
    ensures items { retired.new.items ≡ retired.old.items }
    ensures no_less { vec_capacity retired.old ≤ vec_capacity retired.new }
    ensures room { OnOk result (places < vec_capacity retired.new) }
{
    if places < retired.capacity() {
        return Ok(());
    }
    retired.reserve(places + 1 - retired.len())?;
    Ok(())
}

// How many clauses define a node of these children.
fn definition_count(high: Node, low: Node) -> u64
    ensures { result ≡ definition_count high low }
{
    match (high, low) {
        (Node::Inner(_), Node::Inner(_)) => 4,
        (Node::Inner(_), _) | (_, Node::Inner(_)) => 3,
        _ => 2,
    }
}
