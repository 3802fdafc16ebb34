// The computed cache of conjunctions. Operands take a word each, and a justification one.
ghost use Rattle.apply_and.specs.Cache.{entry_of};

use cnf_base::Id;
use node_table::{Marks, Node};
use operations::{Computed, NodePair, Results, StoredJustification};
use std::mem::size_of;

/// Conjunctions by their operands, with their justifications.
pub type AndCache = Results<AndEntries>;

/// What the cache of conjunctions keeps.
#[derive(Drop)]
pub struct AndEntries;

const _: () = prove!(size_of::<(Node, StoredJustification)>() == 16);

impl Computed for AndEntries {
    type Key = NodePair;

    type Value = (Node, StoredJustification);

    ghost entry_of = { entry_of };

    fn key_law() {}

    #[inline(always)]
    fn are_marked(marks: &Marks, pair: NodePair, found: (Node, StoredJustification)) -> bool {
        let (u, v) = pair.nodes();
        marks.is_marked(u) && marks.is_marked(v) && marks.is_marked(found.0)
    }

    #[inline(always)]
    fn clause(_pair: NodePair, found: (Node, StoredJustification)) -> Option<Id> {
        found.1.clause()
    }
}
