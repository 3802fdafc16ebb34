// One step of an LRAT proof, as its line spells it.
use crate::list::{GroupList, Id, IdList, LitList};

/// A step of a proof in the textual LRAT format (Cruz-Filipe, Heule, Hunt, Kaufmann, Schneider-Kamp 2017).
#[derive(Drop)]
pub enum Step {
    /// Adds a clause, with its positive hints and the groups of its candidates.
    Add {
        id: Id,
        lits: LitList,
        pos: IdList,
        groups: GroupList,
    },
    /// Deletes clauses. The number in front is compared with nothing.
    Delete {
        id: Id,
        ids: IdList,
    },
}
