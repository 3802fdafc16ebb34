//! Tests of the bounded cache, `op_cache`: call by call against a plain list of pairs, and a full turn by hand.
#![tactic(auto)]

#[cfg(test)]
mod calls;
#[cfg(test)]
mod plain;
#[cfg(test)]
mod turns;
