// Nodes of diagrams, named by keys. (Bryant: Graph-Based Algorithms for Boolean Function Manipulation, 1986.)
ghost use Rattle.std.specs.Prelude.{◌≡◌};
ghost use Rattle.node_table.specs.NodeHash.{hash_word};

use cnf_base::Id;
use std::hash::{Hash, Hasher};

/// Names an inner node of a table, by its place in lists by key.
#[derive(Clone, Copy, Debug, PartialEq, Eq)]
pub struct NodeKey {
    pub index: u32,
}

/// The diagram of a Boolean function, by its top node. Equal nodes of a table are equal functions.
#[derive(Clone, Copy, Debug, PartialEq, Eq)]
pub enum Node {
    False,
    True,
    /// Decides by a variable.
    Inner(NodeKey),
}

// A node is hashed as one number, so that a pair takes two steps.
impl Hash for Node {
    ghost use Rattle.std.specs.Hash as fed;
    ghost use Rattle.std.specs.Cmp.Rules.{hashing};
    ghost use Rattle.std.proofs.Common.{rules};
    ghost use Rattle.node_table.specs.NodeHash.{hash_word};

    ghost hash_input = { λ node. fed.u32 (hash_word node) };

    ghost respects_eq = { Prim.search (hashing, rules) };

    #[inline(always)]
    fn hash<H: Hasher>(&self, state: &mut H) {
        state.write_u32(hash_word(*self));
    }
}

#[inline(always)]
fn hash_word(node: Node) -> u32
    ensures { result ≡ hash_word node }
{
    match node {
        Node::False => u32::MAX,
        Node::True => u32::MAX - 1,
        Node::Inner(key) => key.index,
    }
}

/// The numbers of a node's defining clauses, where they exist: from the high and the low child up to the node, and from
/// the node down to them.
#[derive(Clone, Copy)]
pub struct Defs {
    pub hu: Option<Id>,
    pub lu: Option<Id>,
    pub hd: Option<Id>,
    pub ld: Option<Id>,
}

/// What an inner node is: the place of its variable in the order, its children where that is true and where it is
/// false, its extension variable, and the first of its defining clauses, whose numbers are consecutive.
#[derive(Clone, Copy)]
pub struct Branch {
    pub level: u32,
    pub variable: u32,
    pub high: Node,
    pub low: Node,
    pub first: u64,
}

/// Why a clause over nodes holds: it is true by itself, since it has both signs of a variable or a true constant, or
/// it is the live clause of this number.
#[derive(Clone, Copy)]
pub enum Justification {
    Trivial,
    Clause(Id),
}
