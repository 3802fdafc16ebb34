// A term: a node, and the unit clause that proves it.
use node_table::{Justification, Node};

/// The node of a term, and its unit on the proof.
#[derive(Clone, Copy)]
pub struct HeldTerm {
    pub node: Node,
    pub unit: Justification,
}
