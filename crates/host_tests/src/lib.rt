//! Tests of `host_io`: what the real host does with files. Hosts in memory, and what fails by plan, are used by program_tests.
#![tactic(auto)]

#[cfg(test)]
mod calls;
#[cfg(test)]
mod real;
