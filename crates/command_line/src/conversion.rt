// Between which formats of proofs a conversion goes.

/// From one format of proofs to the other.
#[derive(Clone, Copy)]
pub enum Conversion {
    /// From LRAT to DRAT.
    IntoDrat {
        /// Whether extension variables get names that no other one has.
        fresh: bool,
    },
    /// From DRAT to LRAT.
    IntoLrat {
        /// Whether a deletion names a clause by its set of literals, in any order.
        any_order: bool,
    },
}
