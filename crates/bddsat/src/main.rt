//! `bddsat`: decides a CNF file and writes the proof of its answer, and checks proofs. All of it is `start` of `solver_cli`.
#![tactic(auto)]

use solver_cli::start;
use std::process::ExitCode;

fn main(rt: HostRuntime) -> ExitCode {
    start(rt)
}
