// The commands about a board, and its size.
ghost use Rattle.std.specs.Prelude.{◌≡◌, IfSome, MatchOption};
ghost use Rattle.clap.specs.Words.{found_of, rows_of};
ghost use Rattle.command_line.specs.Command.{Asks, IsSize, Misuse, bench_means, make_means, number_within, size_among, size_given};
ghost use Rattle.command_line.specs.Reading.{IsWithin, command_of, text_of};

use crate::limits::{limits_among, number_within};
use crate::mode::flag_among;
use crate::part::{BoardText, part_named};
use crate::words::Asked;
use clap::ArgMatches;
use schedule_plan::Limits;

/// The board that is to be decided, by its column order and schedule, and how far.
#[derive(Clone, Copy)]
pub struct BenchTask<'a> {
    /// The squares a side.
    pub size: u32,
    /// The file that the proof is written to.
    pub proof: &'a str,
    pub limits: Limits,
    /// Whether progress is told.
    pub progress: bool,
}

/// The board that a text is made of, and which.
#[derive(Clone, Copy)]
pub struct MakeTask<'a> {
    /// The squares a side.
    pub size: u32,
    pub part: BoardText,
    /// The file that the text is written to.
    pub file: &'a str,
}

pub(crate) const LEAST_SIZE: u64 = 2;

pub(crate) const GREATEST_SIZE: u64 = 100;

pub fn bench_asked<'a>(values: &ArgMatches<'a>) -> Option<Asked<'a>>
    ensures meant { MatchOption result (bench_means (rows_of (found_of values.now)) ≡ Misuse)
        (λ asked. bench_means (rows_of (found_of values.now)) ≡ Asks (command_of asked)) }
    ensures within { IfSome result (λ asked. IsWithin (command_of asked)) }
{
    let size = size_among(values)?;
    let proof = values.get_str("proof")?;
    let limits = limits_among(values)?;
    let progress = flag_among(values, "progress");
    Some(Asked::Bench(BenchTask {
        size,
        proof,
        limits,
        progress,
    }))
}

pub fn make_asked<'a>(values: &ArgMatches<'a>) -> Option<Asked<'a>>
    ensures meant { MatchOption result (make_means (rows_of (found_of values.now)) ≡ Misuse)
        (λ asked. make_means (rows_of (found_of values.now)) ≡ Asks (command_of asked)) }
    ensures within { IfSome result (λ asked. IsWithin (command_of asked)) }
{
    let size = size_among(values)?;
    let part = part_named(values.get_str("part")?)?;
    let file = values.get_str("out")?;
    Some(Asked::Make(MakeTask { size, part, file }))
}

// The size that these values give.
fn size_among(values: &ArgMatches<'_>) -> Option<u32>
    ensures given { result ≡ size_among (rows_of (found_of values.now)) }
    ensures range { IfSome result IsSize }
{
    size_given(values.get_str("KIND"), values.get_str("SIZE"))
}

// The size behind the word `board`.
fn size_given(kind: Option<&str>, size: Option<&str>) -> Option<u32>
    ensures given { result ≡ size_given (text_of kind.entry) (text_of size.entry) }
    ensures range { IfSome result IsSize }
{
    match (kind, size) {
        (Some(kind), Some(size)) if kind == "board" => board_size(size),
        _ => None,
    }
}

fn board_size(text: &str) -> Option<u32>
    ensures given { result ≡ number_within 2 100 text.now }
    ensures range { IfSome result IsSize }
{
    let size = number_within(text, LEAST_SIZE, GREATEST_SIZE)?;
    Some(size as u32)
}
