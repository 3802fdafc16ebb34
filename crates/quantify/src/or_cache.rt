// The computed cache of disjunctions, which names no clause.
ghost use Rattle.quantify.specs.OrCache.{disjunction};

use cnf_base::Id;
use node_table::{Marks, Node};
use operations::{Computed, Results};

/// Disjunctions by their operands.
pub type OrCache = Results<OrEntries>;

/// What the cache of disjunctions keeps.
#[derive(Drop)]
pub struct OrEntries;

impl Computed for OrEntries {
    type Key = (Node, Node);

    type Value = Node;

    ghost entry_of = { disjunction };

    fn key_law() {}

    #[inline(always)]
    fn are_marked(marks: &Marks, pair: (Node, Node), w: Node) -> bool {
        marks.is_marked(pair.0) && marks.is_marked(pair.1) && marks.is_marked(w)
    }

    #[inline(always)]
    fn clause(_pair: (Node, Node), _w: Node) -> Option<Id> {
        None
    }
}
