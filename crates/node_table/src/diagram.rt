// The nodes of a table, each under a key of its own in a slab; an index finds a node by its level and children. A new
// node's extension variable is the least that no node has: those of nodes that went are kept, the greatest first. A list that
// falls has no more numbers than lie between its ends, so the least free variable is at most the number of levels, that of nodes, and one.
ghost use Rattle.std.specs.Prelude.{◌≡◌, ◌≢◌, ◌↔◌, ◌+◌, ◌<◌, ◌≤◌, ◌^◌, ℕ, pos, [], None, Some, IfOk, IfSome, OnErr, MatchOption, length};
ghost use Rattle.std.specs.Prelude.{vec_capacity, IsTrue};
ghost use Rattle.std.specs.FinMap as map;
ghost use Rattle.cnf_base.specs.Truth.{assignment_of};
ghost use Rattle.cnf_base.specs.ProofText.{max_id};
ghost use Rattle.cnf_base.specs.Limits.{max_vars, most_nodes_allowed};
ghost use Rattle.node_table.specs.Diagram.{Graph, IsOrder, IsReduced, IsBelow, IsNew, IsWanted, branch_at, branch_of, is_node, levels};
ghost use Rattle.node_table.specs.Diagram.{variable_at};
ghost use Rattle.node_table.specs.Value.{value_of, by_level, IsChosen};
ghost use Rattle.node_table.specs.Stored.{ArePlaces, HasSmallKey, Takes};
ghost use Rattle.node_table.specs.Marks.{AreMarks};
ghost use Rattle.node_table.specs.Swept.{IsSwept};
ghost use Rattle.node_table.specs.Defined.{atom_of, atom_in};
ghost use Rattle.node_table.specs.declared.node.Branch.{Branch as BranchValue};
ghost use Rattle.node_table.specs.declared.node.Node.{Node as NodeValue};

use crate::index::Index;
use crate::marks::Marks;
use crate::node::{Branch, Node, NodeKey};
use crate::stored::{Child, StoredNode};
use crate::sweep::{remove_unmarked, sort_falling};
use cnf_base::{Lit, OutOfMemory};
use hint_chain::Atom;
use slab::Slab;
use std::alloc::Global;
use std::marker::Model;

// Keys are below this, so that a child is one word.
const MAX_NODES: usize = 100_000_000;

/// The nodes over an order of the variables.
#[derive(Drop)]
pub struct Diagram {
    order: Vec<u32>,
    places: Vec<u32>,
    nodes: Slab<StoredNode>,
    index: Index,
    // The extension variables that were given and are no node's, the greatest first. There is room for all that were given.
    free: Vec<u32>,
    // The least that was never given.
    next: u32,
}

impl Model for Diagram {
    ghost use Rattle.node_table.specs.Diagram.{Graph, graph_code};
    ghost use Rattle.std.specs.Prelude.{length, vec_capacity};
    ghost use Rattle.node_table.specs.Stored.{graph_of, IsStored, HasVariables};

    ghost Value = { Graph };

    ghost coded = { graph_code };

    ghost view = { λ d. graph_of d.order.items d.nodes.slots };

    ghost invariant = { λ d. IsStored d.order.items d.places.items d.index d.nodes
        × HasVariables (length d.order.items) d.next d.free.items (vec_capacity d.free) d.nodes };
}

impl Diagram {
    /// No node, over the variables 1, 2, .. in this order.
    pub fn new(alloc: Global, order: &[u32]) -> Result<Diagram, OutOfMemory>
        requires order { IsOrder order.now }
        requires few { length order.now ≤ max_vars }
        ensures { IfOk result (λ diagram. diagram ≡ record { order = order.now; nodes = map.empty }) }
    {
        let places = places_of(alloc, order)?;
        let mut own_order = Vec::new(alloc);
        own_order.extend_from_slice(order)?;
        Ok(Diagram {
            order: own_order,
            places,
            nodes: Slab::new(alloc),
            index: Index::new(alloc),
            free: Vec::new(alloc),
            next: order.len() as u32 + 1,
        })
    }

    /// For the prover alone: its nodes are reduced and ordered.
    pub fn diagram_law(&self)
        ensures reduced { IsReduced self.now }
        ensures ordered { IsOrder self.now.order }
        ensures few_levels { levels self.now ≤ max_vars }
    {
        let _ = &self.order;
    }

    /// For the prover alone: the keys of its nodes fit a child's word.
    pub fn keys_law(&self)
        ensures { (node : NodeValue) → IsTrue (is_node self.now node) → HasSmallKey node }
    {
        let _ = &self.order;
    }

    /// The variables, the top one first.
    pub fn order(&self) -> &[u32]
        ensures value { result.now ≡ self.now.order }
        ensures few { levels self.now ≤ max_vars }
    {
        self.order.as_slice()
    }

    /// The place of a variable in the order, from 0; None where it is none of the variables.
    pub fn level(&self, variable: u32) -> Option<u32>
        ensures { MatchOption result ((level : ℕ) → level < levels self.now → variable_at self.now level ≢ variable)
            (λ level. (level < levels self.now) × (variable_at self.now level ≡ variable)) }
    {
        let places = self.places.as_slice();
        if variable == 0 {
            return None;
        }
        places.get(variable as usize - 1).copied()
    }

    /// How many levels there are.
    #[inline(always)]
    pub fn levels(&self) -> u32
        ensures { result ≡ levels self.now }
    {
        self.order.as_slice().len() as u32
    }

    /// The variable of a level.
    #[inline(always)]
    pub fn variable(&self, level: u32) -> u32
        requires { level < levels self.now }
        ensures value { result ≡ variable_at self.now level }
        ensures range { (0 < result) × (result ≤ levels self.now) × (levels self.now ≤ max_vars) }
    {
        self.order.as_slice()[level as usize]
    }

    /// What a node puts into a clause.
    #[inline(always)]
    pub fn atom(&self, node: Node) -> Atom
        ensures { result ≡ atom_of self.now node }
    {
        match node {
            Node::False => Atom::Never,
            Node::True => Atom::Always,
            Node::Inner(_) => self.inner_atom(node),
        }
    }

    // The literal of an inner node, and nothing for a name that isn't in use.
    #[inline(always)]
    fn inner_atom(&self, node: Node) -> Atom
        ensures { result ≡ atom_in (branch_of self.now node) }
    {
        let _ = &self.order;
        match self.branch(node) {
            None => Atom::Never,
            Some(branch) => Atom::Of(positive(branch.variable)),
        }
    }

    /// How many inner nodes there are.
    pub fn len(&self) -> u32
        ensures { result ≡ map.len self.now.nodes }
    {
        self.nodes.len() as u32
    }

    /// How many inner nodes there were at most at once: each takes the least extension variable that is free.
    pub fn most(&self) -> u32 {
        self.next.saturating_sub(self.levels().saturating_add(1))
    }

    /// The keys of inner nodes are below this.
    pub fn key_end(&self) -> u32
        ensures { (key : ℕ) (branch : BranchValue) → branch_at self.now key ≡ Some branch → key < result }
    {
        self.nodes.capacity().min(MAX_NODES) as u32
    }

    /// The inner node of this name; None for a constant.
    #[inline(always)]
    pub fn branch(&self, node: Node) -> Option<Branch>
        ensures branch { result ≡ branch_of self.now node }
        ensures first { IfSome result (λ branch. branch.first ≤ max_id + 1) }
    {
        match node {
            Node::False | Node::True => None,
            Node::Inner(key) => self.branch_at(key.index),
        }
    }

    // The inner node under a key.
    #[inline(always)]
    fn branch_at(&self, key: u32) -> Option<Branch>
        ensures branch { result ≡ branch_at self.now key }
        ensures first { IfSome result (λ branch. branch.first ≤ max_id + 1) }
    {
        match self.nodes.get(key as usize) {
            None => None,
            Some(node) => Some(node.branch()),
        }
    }

    /// The node of this level and these children, if there is one.
    pub fn find(&self, level: u32, high: Node, low: Node) -> Option<NodeKey>
        requires high { IsTrue (is_node self.now high) }
        requires low { IsTrue (is_node self.now low) }
        ensures { MatchOption result
            ((key : ℕ) (branch : BranchValue) → branch_at self.now key ≡ Some branch → branch.level ≡ level → branch.high ≡ high
            → branch.low ≡ low → ⊥)
            (λ key. (branch : BranchValue) × (branch_at self.now key.index ≡ Some branch) × (branch.level ≡ level) × (branch.high ≡ high)
            × (branch.low ≡ low)) }
    {
        let nodes = &self.nodes;
        let high = Child::of(high);
        let low = Child::of(low);
        match self.index.find(nodes, level, high, low) {
            None => None,
            Some(index) => Some(NodeKey { index }),
        }
    }

    /// One node more, which no other is alike, under the least extension variable that no node has. A refusal changes
    /// nothing.
    pub fn push(
        &mut self,
        level: u32,
        high: Node,
        low: Node,
        first: u64,
    ) -> Result<(NodeKey, u32), OutOfMemory>
        requires level { level < levels self.old }
        requires high { IsBelow self.old level high }
        requires low { IsBelow self.old level low }
        requires wanted { IsWanted self.old level high low }
        requires few { map.len self.old.nodes < most_nodes_allowed }
        requires first { first ≤ max_id + 1 }
        ensures ok { IfOk result (λ made. IsNew self.old self.new made.0.index
            (record { level = level; variable = made.1; high = high; low = low; first = first })) }
        ensures range { IfOk result (λ made. (levels self.old < made.1) × (made.1 ≤ levels self.old + map.len self.old.nodes + 1)) }
        ensures own { IfOk result (λ made. (key : ℕ) (branch : BranchValue) → branch_at self.old key ≡ Some branch → branch.variable
            ≢ made.1) }
        ensures least { IfOk result (λ made. (variable : ℕ) → levels self.old < variable → variable < made.1
            → (key : ℕ) × (branch : BranchValue) × (branch_at self.old key ≡ Some branch) × (branch.variable ≡ variable)) }
        ensures err { OnErr result (self.new ≡ self.old) }
    {
        // No key is left below the limit.
        if self.nodes.vacant_key() >= MAX_NODES {
            return Err(OutOfMemory);
        }
        // Room for all variables to be free, for the node and for its key: what follows takes no memory.
        self.free.reserve(self.nodes.len() + 1)?;
        self.nodes.reserve(1)?;
        self.index.reserve(&self.nodes)?;
        let variable = take_variable(&mut self.free, &mut self.next);
        let node = StoredNode::of(level, variable, high, low, first);
        let index = self.nodes.insert_reserved(node) as u32;
        self.index.insert(index, &node);
        Ok((NodeKey { index }, variable))
    }

    /// Gives back the nodes that aren't marked; their extension variables are free again. Returns how many there were. It
    /// takes no memory.
    pub fn sweep(&mut self, marks: &Marks) -> u32
        requires marks { AreMarks self.old marks.now }
        ensures swept { IsSwept self.old self.new marks.now }
        ensures count { map.len self.new.nodes + result ≡ map.len self.old.nodes }
    {
        let count = remove_unmarked(&mut self.nodes, marks.by_key(), &mut self.free);
        sort_falling(self.free.as_mut_slice());
        self.index.rebuild(&self.nodes);
        count as u32
    }

    /// The function of a node under an assignment of all variables.
    pub fn value(&self, node: Node, values: &[bool]) -> bool
        requires { IsTrue (is_node self.now node) }
        ensures { result ≡ value_of self.now (by_level self.now.order (assignment_of values.now)) node }
    {
        let mut node = node;
        'down: loop {
            match self.chosen(node, values) {
                Some(child) => node = child,
                None => return matches!(node, Node::True),
            }
        }
    }

    // The child of an inner node that its variable chooses.
    fn chosen(&self, node: Node, values: &[bool]) -> Option<Node>
        requires { IsTrue (is_node self.now node) }
        ensures { MatchOption result (branch_of self.now node ≡ None)
            (λ child. IsChosen self.now (by_level self.now.order (assignment_of values.now)) node child) }
    {
        let branch = self.branch(node)?;
        let variable = self.order.as_slice()[branch.level as usize];
        if is_true(values, variable) {
            Some(branch.high)
        } else {
            Some(branch.low)
        }
    }
}

/// The literal of a variable.
#[inline(always)]
pub fn positive(variable: u32) -> Lit
    requires { (0 < variable) × (variable ≤ 2147483647) }
    ensures { result ≡ pos variable }
{
    Lit::new(variable as i32).unwrap()
}

pub fn same_node(one: Node, other: Node) -> bool
    ensures { IsTrue result ↔ (one ≡ other) }
{
    one == other
}

// The last free variable, or the next one where none is free.
fn take_variable(free: &mut Vec<u32>, next: &mut u32) -> u32
    requires { next.old + 1 < 2 ^ 32 }
    ensures capacity { vec_capacity free.new ≡ vec_capacity free.old }
    ensures taken { Takes free.old.items next.old free.new.items next.new result }
{
    if let Some(variable) = free.pop() {
        return variable;
    }
    let variable = *next;
    *next += 1;
    variable
}

// The value of a variable, false where there is none.
fn is_true(values: &[bool], variable: u32) -> bool
    requires { 0 < variable }
    ensures { result ≡ assignment_of values.now variable }
{
    match values.get(variable as usize - 1) {
        Some(value) => *value,
        None => false,
    }
}

// The place of each variable in the order.
fn places_of(alloc: Global, order: &[u32]) -> Result<Vec<u32>, OutOfMemory>
    requires order { IsOrder order.now }
    requires few { length order.now ≤ max_vars }
    ensures { IfOk result (λ places. ArePlaces order.now places.items) }
{
    let mut places = Vec::new(alloc);
    places.resize(order.len(), 0)?;
    for i in 0..order.len() {
        places[order[i] as usize - 1] = i as u32;
    }
    Ok(places)
}
