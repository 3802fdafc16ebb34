//! Tests of `solver_cli` over hosts in memory whose calls fail. What a user sees is tested by the cases in `tests/`.
#![tactic(auto)]

#[cfg(test)]
mod calls;
#[cfg(test)]
mod faults;
#[cfg(test)]
mod statuses;
#[cfg(test)]
mod support;
