// The parser of the command line, with the program's texts of help.
ghost use Rattle.std.specs.Prelude.{◌≡◌, IfOk};
ghost use Rattle.clap.specs.Words.{app_of};
ghost use Rattle.command_line.specs.Parser.{program_app, the_app};

use crate::commands::COMMANDS;
use crate::subcommand::{Texts, command, with_commands};
use clap::Command;
use std::alloc::{AllocError, Global};

// The version of the program.
const VERSION: &str = "0.1.0";

const ALL: Texts<'static> = Texts {
    about: "Decide a CNF formula and prove the answer, or check a proof",
    usage: "\
bddsat solve FILE --proof P [--lax] [--order F]
                    [--search | --buckets F | --schedule F | --plan PLAN]
                    [--parity] [--max-nodes N] [--max-ids N] [--cache N]
                    [--progress] [--explain]
       bddsat check FILE PROOF [--format FORMAT] [--any-order] [--lax]
                    [--progress] [--explain]
       bddsat drat FILE PROOF --out P [--lax] [--fresh]
                    [--progress] [--explain]
       bddsat lrat FILE PROOF --out P [--lax] [--any-order]
                    [--progress] [--explain]
       bddsat trim FILE PROOF --out P [--lax] [--core C]
                    [--progress] [--explain]
       bddsat order FILE --by METHOD --out F [--lax] [--progress] [--explain]
       bddsat ask FILE --cubes Q --proof P [--lax] [--order F]
                    [--max-nodes N] [--max-ids N] [--cache N]
                    [--progress] [--explain]
       bddsat bench board N --proof P [--max-nodes N] [--max-ids N] [--cache N]
                    [--progress] [--explain]
       bddsat make board N --part PART --out F [--explain]",
    after: "\
Exit codes:
  10  solve: satisfiable; the values are on standard output
  20  solve, bench: unsatisfiable; the proof is in P
   0  solve, bench: undecided, since a limit was reached; P has the steps so far
   0  check, drat, lrat, trim: the proof is verified
   1  check, drat, lrat, trim: it isn't; standard output has the line and why
   0  ask: each cube is answered on standard output, or a limit was reached
   0  make, order: the text is in F
   0  help or the version was shown
   2  a file's text is not of its format, or too large
   3  a file couldn't be opened or read
   4  a file or standard output couldn't be written
   5  out of memory
   6  the command line is invalid

Examples:
  bddsat solve formula.cnf --search --proof formula.lrat
  bddsat check formula.cnf formula.lrat
  bddsat drat formula.cnf formula.lrat --out formula.drat
  bddsat lrat formula.cnf formula.drat --any-order --out formula.lrat
  bddsat trim formula.cnf formula.lrat --out trimmed.lrat
  bddsat order formula.cnf --by degree --out formula.order
  bddsat ask formula.cnf --cubes questions.cubes --proof formula.lrat
  bddsat bench board 8 --proof board.lrat
  bddsat make board 8 --part cnf --out board.cnf

When something goes wrong: add --explain to the command",
};

/// The parser: one of nine commands after the program's name.
pub fn parser<'a>(alloc: Global) -> Result<Command<'a>, AllocError>
    ensures { IfOk result (λ command. app_of command ≡ the_app) }
{
    with_commands(alloc, program(alloc), &COMMANDS)
}

// The program's name, with the version.
fn program<'a>(alloc: Global) -> Command<'a>
    ensures { app_of result ≡ program_app }
{
    command(alloc, "bddsat", ALL).version(VERSION)
}
