// The commands that make another proof of one: `drat`, `lrat` and `trim`.
ghost use Rattle.std.specs.Prelude.{◌≡◌, None, Some, IfSome, MatchOption};
ghost use Rattle.clap.specs.Words.{found_of, rows_of};
ghost use Rattle.command_line.specs.Command.{Asks, Misuse, drat_means, lrat_means, rewrite_among, to_convert, trim_means};
ghost use Rattle.command_line.specs.Reading.{IsWithin, command_of, rewrite_of, text_of};

use crate::conversion::Conversion;
use crate::mode::{flag_among, mode_given};
use crate::names::{FileNames, two_names};
use crate::words::Asked;
use clap::ArgMatches;
use dimacs_reader::Mode;

/// What is to be judged, and where the other proof goes.
#[derive(Clone, Copy)]
pub struct RewriteTask<'a> {
    /// The files that are read.
    pub files: FileNames<'a>,
    /// How the formula is read.
    pub mode: Mode,
    /// The file that the other proof is written to.
    pub out: &'a str,
    /// Whether progress is told.
    pub progress: bool,
}

/// What is to be judged and written in the other format, and where that goes.
#[derive(Clone, Copy)]
pub struct ConvertTask<'a> {
    /// The files that are read.
    pub files: FileNames<'a>,
    /// How the formula is read.
    pub mode: Mode,
    /// The file that the other proof is written to.
    pub out: &'a str,
    /// The formats.
    pub into: Conversion,
    /// Whether progress is told.
    pub progress: bool,
}

pub fn drat_asked<'a>(values: &ArgMatches<'a>) -> Option<Asked<'a>>
    ensures meant { MatchOption result (drat_means (rows_of (found_of values.now)) ≡ Misuse)
        (λ asked. drat_means (rows_of (found_of values.now)) ≡ Asks (command_of asked)) }
    ensures within { IfSome result (λ asked. IsWithin (command_of asked)) }
{
    let fresh = flag_among(values, "fresh");
    convert_asked(values, Conversion::IntoDrat { fresh })
}

pub fn lrat_asked<'a>(values: &ArgMatches<'a>) -> Option<Asked<'a>>
    ensures meant { MatchOption result (lrat_means (rows_of (found_of values.now)) ≡ Misuse)
        (λ asked. lrat_means (rows_of (found_of values.now)) ≡ Asks (command_of asked)) }
    ensures within { IfSome result (λ asked. IsWithin (command_of asked)) }
{
    let any_order = flag_among(values, "any-order");
    convert_asked(values, Conversion::IntoLrat { any_order })
}

// The proof among these values is to be converted so.
fn convert_asked<'a>(values: &ArgMatches<'a>, into: Conversion) -> Option<Asked<'a>>
    ensures meant { MatchOption result (to_convert (rewrite_among None (rows_of (found_of values.now))) into ≡ Misuse)
        (λ asked. to_convert (rewrite_among None (rows_of (found_of values.now))) into ≡ Asks (command_of asked)) }
    ensures within { IfSome result (λ asked. IsWithin (command_of asked)) }
{
    let task = rewrite_among(values, None)?;
    let RewriteTask {
        files,
        mode,
        out,
        progress,
    } = task;
    Some(Asked::Convert(ConvertTask {
        files,
        mode,
        out,
        into,
        progress,
    }))
}

/// What is to be judged and trimmed, and where the trimmed proof and its core go.
#[derive(Clone, Copy)]
pub struct TrimTask<'a> {
    /// The files that are read.
    pub files: FileNames<'a>,
    /// How the formula is read.
    pub mode: Mode,
    /// The file that the trimmed proof is written to.
    pub out: &'a str,
    /// The file that its core is written to, if one is named.
    pub core: Option<&'a str>,
    /// Whether progress is told.
    pub progress: bool,
}

pub fn trim_asked<'a>(values: &ArgMatches<'a>) -> Option<Asked<'a>>
    ensures meant { MatchOption result (trim_means (rows_of (found_of values.now)) ≡ Misuse)
        (λ asked. trim_means (rows_of (found_of values.now)) ≡ Asks (command_of asked)) }
    ensures within { IfSome result (λ asked. IsWithin (command_of asked)) }
{
    let core = values.get_str("core");
    let task = rewrite_among(values, core)?;
    let RewriteTask {
        files,
        mode,
        out,
        progress,
    } = task;
    Some(Asked::Trim(TrimTask {
        files,
        mode,
        out,
        core,
        progress,
    }))
}

// What is to be rewritten, among these values, beside a further file, if one is named.
fn rewrite_among<'a>(values: &ArgMatches<'a>, further: Option<&str>) -> Option<RewriteTask<'a>>
    ensures { MatchOption result (rewrite_among (text_of further.entry) (rows_of (found_of values.now)) ≡ None)
        (λ task. rewrite_among (text_of further.entry) (rows_of (found_of values.now)) ≡ Some (rewrite_of task)) }
{
    let file = values.get_str("FILE");
    let proof = values.get_str("PROOF");
    let out = values.get_str("out");
    let (formula, proof) = two_names(file, proof, out, further, None)?;
    let out = out?;
    let mode = mode_given(values.get_str("lax"));
    let progress = flag_among(values, "progress");
    let files = FileNames { formula, proof };
    Some(RewriteTask {
        files,
        mode,
        out,
        progress,
    })
}
