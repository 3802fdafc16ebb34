// Where in the text of packed steps a number comes.

/// Where a number comes.
#[derive(Clone, Copy)]
pub enum Place {
    /// Between two lines: a kind.
    Between,
    /// Behind this kind: the step's own number.
    Own(u64),
    /// In a clause.
    Clause,
    /// In hints.
    Hints,
    /// In a deletion of this number, whose line has begun or not.
    Deleted(u64, bool),
}
