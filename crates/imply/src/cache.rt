// The computed cache of implications that were found to hold.
ghost use Rattle.imply.specs.Cache.{entry_of};

use cnf_base::Id;
use node_table::{Marks, Node};
use operations::{Computed, Results, StoredJustification};

/// Implications by their operands, with their justifications.
pub type ImplyCache = Results<ImplyEntries>;

/// What the cache of implications keeps.
#[derive(Drop)]
pub struct ImplyEntries;

impl Computed for ImplyEntries {
    type Key = (Node, Node);

    type Value = StoredJustification;

    ghost entry_of = { entry_of };

    fn key_law() {}

    #[inline(always)]
    fn are_marked(marks: &Marks, pair: (Node, Node), _just: StoredJustification) -> bool {
        marks.is_marked(pair.0) && marks.is_marked(pair.1)
    }

    #[inline(always)]
    fn clause(_pair: (Node, Node), just: StoredJustification) -> Option<Id> {
        just.clause()
    }
}
