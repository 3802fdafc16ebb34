// The command that answers cubes over a formula.
ghost use Rattle.std.specs.Prelude.{◌≡◌, IfSome, MatchOption};
ghost use Rattle.clap.specs.Words.{found_of, rows_of};
ghost use Rattle.command_line.specs.Command.{Asks, Misuse, ask_means};
ghost use Rattle.command_line.specs.Reading.{IsWithin, command_of};

use crate::limits::limits_among;
use crate::mode::{flag_among, mode_given};
use crate::names::{FileNames, two_names};
use crate::words::Asked;
use clap::ArgMatches;
use dimacs_reader::Mode;
use schedule_plan::Limits;

/// The formula and the cubes over it, how far they are answered, and where the proof goes.
#[derive(Clone, Copy)]
pub struct AskTask<'a> {
    pub files: FileNames<'a>,
    /// The file of the cubes.
    pub cubes: &'a str,
    /// How the formula is read.
    pub mode: Mode,
    /// The file of the variables' order, if one is named.
    pub order: Option<&'a str>,
    pub limits: Limits,
    /// Whether progress is told.
    pub progress: bool,
}

pub fn ask_asked<'a>(values: &ArgMatches<'a>) -> Option<Asked<'a>>
    ensures meant { MatchOption result (ask_means (rows_of (found_of values.now)) ≡ Misuse)
        (λ asked. ask_means (rows_of (found_of values.now)) ≡ Asks (command_of asked)) }
    ensures within { IfSome result (λ asked. IsWithin (command_of asked)) }
{
    let file = values.get_str("FILE");
    let proof = values.get_str("proof");
    let order = values.get_str("order");
    let cubes = values.get_str("cubes");
    let (formula, proof) = two_names(file, proof, order, cubes, None)?;
    let cubes = cubes?;
    let mode = mode_given(values.get_str("lax"));
    let limits = limits_among(values)?;
    let progress = flag_among(values, "progress");
    let files = FileNames { formula, proof };
    Some(Asked::Ask(AskTask {
        files,
        cubes,
        mode,
        order,
        limits,
        progress,
    }))
}
