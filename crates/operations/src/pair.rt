// Two operands as the key of a cache: a word each, so that an entry takes little memory. The four bytes a node save 16 an entry in the
// cache of conjunctions; in the other caches they save nothing, since `malloc` gives memory by 16 bytes.
ghost use Rattle.std.specs.Prelude.{◌≡◌};
ghost use Rattle.std.proofs.Common.{rules};
ghost use Rattle.std.specs.Cmp.Rules.{comparing};
ghost use Rattle.node_table.specs.Stored.{HasSmallKey};

use node_table::{Child, Node};
use std::hash::{Hash, Hasher};
use std::marker::Model;

/// Two nodes of a table.
#[derive(Clone, Copy)]
pub struct NodePair {
    first: Child,
    second: Child,
}

const _: () = prove!(size_of::<NodePair>() == 8);

impl Model for NodePair {
    ghost use Rattle.std.specs.Coded.{coded×};
    ghost use Rattle.node_table.specs.Diagram.{node_code};
    ghost use Rattle.node_table.specs.Stored.{child_of, node_of_word, child_of_word};
    ghost use Rattle.operations.specs.Pairs.{Pair};

    ghost Value = { Pair };

    ghost coded = { coded× node_code node_code };

    ghost view = { λ p. (node_of_word p.first.word, node_of_word p.second.word) };

    ghost inverse = { λ pair. record { first = child_of pair.0; second = child_of pair.1 } };

    ghost inverse_ok = { λ p h i. record { first = child_of_word p.first i; second = child_of_word p.second i } };
}

impl NodePair {
    /// The pair of two nodes.
    #[inline(always)]
    pub fn of(first: Node, second: Node) -> NodePair
        requires first { HasSmallKey first }
        requires second { HasSmallKey second }
        ensures { result ≡ (first, second) }
    {
        NodePair {
            first: Child::of(first),
            second: Child::of(second),
        }
    }

    /// The two nodes.
    #[inline(always)]
    pub fn nodes(self) -> (Node, Node)
        ensures { result ≡ self }
    {
        (self.first.node(), self.second.node())
    }
}

impl PartialEq for NodePair {
    ghost use Rattle.operations.specs.Pairs.{same_pair};

    ghost eq = { same_pair };

    ghost laws = { Prim.search (comparing, rules) };

    #[inline(always)]
    fn eq(&self, other: &NodePair) -> bool {
        self.first == other.first && self.second == other.second
    }
}

impl Eq for NodePair {
    ghost laws = { Prim.search (comparing, rules) };
}

impl Hash for NodePair {
    ghost use Rattle.std.specs.Prelude.{◌++◌};
    ghost use Rattle.std.specs.Hash as fed;
    ghost use Rattle.std.specs.Cmp.Rules.{hashing};
    ghost use Rattle.node_table.specs.Stored.{word_of_node};

    ghost hash_input = { λ pair. fed.u32 (word_of_node pair.0) ++ fed.u32 (word_of_node pair.1) };

    ghost respects_eq = { Prim.search (hashing, rules) };

    #[inline(always)]
    fn hash<H: Hasher>(&self, state: &mut H) {
        self.first.hash(state);
        self.second.hash(state);
    }
}
