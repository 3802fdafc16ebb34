// Which clause a deletion takes out.

/// When a clause that stands is told to be the one that a deletion names. The first such clause is taken out.
#[derive(Clone, Copy)]
pub enum Deletions {
    /// Where it is the same list of literals.
    ByList,
    /// Where it has the same set of literals, in any order, however often.
    BySet,
}
