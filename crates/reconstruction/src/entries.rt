// What is known of a quantified variable.
use node_table::Node;

/// A variable, with a node of the table: the term that it was quantified from. Where it was quantified as one of a set, the term of
/// the set, and how many of the set's variables stand right before it.
#[derive(Clone, Copy)]
pub struct Kept {
    pub variable: u32,
    pub later: u32,
    pub node: Node,
}

/// A variable, with a cell for the node.
#[derive(Clone, Copy)]
pub struct Entry {
    pub variable: u32,
    pub later: u32,
    pub key: u32,
}
