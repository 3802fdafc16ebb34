// The two literals that a clause watches.
use cnf_base::Lit;

/// Two literals.
#[derive(Clone, Copy)]
pub struct Pair {
    pub first: Lit,
    pub second: Lit,
}
