// A node as the table stores it: six words, so that with the slab's own mark a node takes 32 bytes.
ghost use Rattle.std.specs.Prelude.{◌≡◌};
ghost use Rattle.node_table.specs.Stored.{HasSmallKey, branch_in, child_of, node_of_word, number_of};

use crate::node::{Branch, Node, NodeKey};

const HALF: u64 = 1 << 32;

/// A child in one word: 0 for False, 1 for True, and from 2 on the inner nodes. Both ways are written so that they compile
/// to no jump.
#[derive(Clone, Copy, PartialEq, Eq, Hash)]
pub struct Child {
    pub(crate) word: u32,
}

/// A clause number in two words.
#[derive(Clone, Copy)]
pub struct Halves {
    pub(crate) high: u32,
    pub(crate) low: u32,
}

/// The level, the extension variable, the children where the level's variable is true and where it is false, and the number
/// of the first defining clause.
#[derive(Clone, Copy)]
pub struct StoredNode {
    pub(crate) level: u32,
    pub(crate) variable: u32,
    pub(crate) high: Child,
    pub(crate) low: Child,
    pub(crate) first: Halves,
}

const _: () = prove!(size_of::<StoredNode>() == 24);

impl Child {
    /// The word of a node whose key is small enough.
    #[inline(always)]
    pub fn of(node: Node) -> Child
        requires { HasSmallKey node }
        ensures { result ≡ child_of node }
    {
        let inner = match node {
            Node::Inner(key) => key.index + 2,
            Node::False | Node::True => 0,
        };
        Child {
            word: inner + u32::from(matches!(node, Node::True)),
        }
    }

    /// The node of the word.
    #[inline(always)]
    pub fn node(self) -> Node
        ensures { result ≡ node_of_word self.word }
    {
        if self.word >= 2 {
            Node::Inner(NodeKey {
                index: self.word - 2,
            })
        } else if self.word == 1 {
            Node::True
        } else {
            Node::False
        }
    }
}

impl Halves {
    /// The two words of a number.
    pub fn of(number: u64) -> Halves
        ensures { number_of result ≡ number }
    {
        Halves {
            high: (number / HALF) as u32,
            low: (number % HALF) as u32,
        }
    }

    /// The number of the two words.
    #[inline(always)]
    pub fn number(self) -> u64
        ensures { result ≡ number_of self }
    {
        u64::from(self.high) * HALF + u64::from(self.low)
    }
}

impl StoredNode {
    /// The node of this extension variable and these children.
    pub fn of(level: u32, variable: u32, high: Node, low: Node, first: u64) -> StoredNode
        requires high { HasSmallKey high }
        requires low { HasSmallKey low }
        ensures { branch_in result ≡ record { level = level; variable = variable; high = high; low = low; first = first } }
    {
        StoredNode {
            level,
            variable,
            high: Child::of(high),
            low: Child::of(low),
            first: Halves::of(first),
        }
    }

    /// The node of the words.
    #[inline(always)]
    pub fn branch(&self) -> Branch
        ensures { result ≡ branch_in self.now }
    {
        Branch {
            level: self.level,
            variable: self.variable,
            high: self.high.node(),
            low: self.low.node(),
            first: self.first.number(),
        }
    }
}
