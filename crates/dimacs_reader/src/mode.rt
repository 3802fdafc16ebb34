// How strictly a text is read.

/// Which texts are formulas. In both modes the header must be good, and no number above its limit.
#[derive(Clone, Copy)]
pub enum Mode {
    /// Those that have as many clauses as they announce, each with its zero.
    Strict,
    /// Also those that have more or fewer clauses, and those that end in a clause without its zero.
    Lax,
}
