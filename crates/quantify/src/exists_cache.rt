// The computed cache of quantifications, which names no clause.
ghost use Rattle.quantify.specs.ExistsCache.{quantification};

use cnf_base::Id;
use node_table::{Marks, Node};
use operations::{Computed, Results};

/// Quantifications by their operand and the level that is quantified.
pub type ExistsCache = Results<ExistsEntries>;

/// What the cache of quantifications keeps.
#[derive(Drop)]
pub struct ExistsEntries;

impl Computed for ExistsEntries {
    type Key = (Node, u32);

    type Value = Node;

    ghost entry_of = { quantification };

    fn key_law() {}

    #[inline(always)]
    fn are_marked(marks: &Marks, question: (Node, u32), w: Node) -> bool {
        marks.is_marked(question.0) && marks.is_marked(w)
    }

    #[inline(always)]
    fn clause(_question: (Node, u32), _w: Node) -> Option<Id> {
        None
    }
}
