// A command line as a command: what the parser takes, and this program's own test of the names.
ghost use Rattle.std.specs.Prelude.{◌≡◌, MatchOption, MatchResult, IfOk, IfErr, IfSome, Some, map};
ghost use Rattle.std.specs.String.{string_bytes};
ghost use Rattle.std.specs.Result.{IsErrAnd};
ghost use Rattle.std.specs.Iterator.{IsFinite};
ghost use Rattle.std.specs.Iterator.Runs.{WholeRun};
ghost use Rattle.clap.specs.Words.{found_of, kind_of, rows_of, subcommand_rows_of};
ghost use Rattle.schedule_plan.specs.Limits.{AreLimits};
ghost use Rattle.command_line.specs.Command.{Asks, IsSize, Misuse, board_means, check_means, command, command_means, limits_of, size_of};
ghost use Rattle.command_line.specs.Command.{rewrite_means, solve_means, taken_means};
ghost use Rattle.command_line.specs.Reading.{IsRefusal, IsRefusalOf, IsTaken, IsWithin, command_of};

use crate::ask::{AskTask, ask_asked};
use crate::board::{BenchTask, MakeTask, bench_asked, make_asked};
use crate::format::{ProofFormat, format_given};
use crate::limits::limits_among;
use crate::mode::{flag_among, mode_given};
use crate::names::{FileNames, names_among, two_names};
use crate::order::{OrderTask, order_asked};
use crate::parser::parser;
use crate::plan::{PlanSource, plan_among};
use crate::rewrite::{ConvertTask, TrimTask, drat_asked, lrat_asked, trim_asked};
use clap::ArgMatches;
use clap::error::ErrorKind;
use cnf_base::OutOfMemory;
use dimacs_reader::Mode;
use schedule_plan::Limits;
use std::alloc::Global;

/// The command that a command line asks for.
#[derive(Clone, Copy)]
pub enum Asked<'a> {
    /// To decide a formula, and to write the proof.
    Solve(SolveTask<'a>),
    /// To judge the proof over the formula.
    Check(CheckTask<'a>),
    /// To decide a board, and to write the proof.
    Bench(BenchTask<'a>),
    /// To write a text of a board.
    Make(MakeTask<'a>),
    /// To write an order of a formula's variables.
    Order(OrderTask<'a>),
    /// To answer cubes over a formula, and to write one proof.
    Ask(AskTask<'a>),
    /// To judge the proof over the formula, and to write it in the other format.
    Convert(ConvertTask<'a>),
    /// To judge the proof over the formula, and to write what its refutation needs, and maybe its core.
    Trim(TrimTask<'a>),
}

/// What is to be decided, by what and how far.
#[derive(Clone, Copy)]
pub struct SolveTask<'a> {
    pub files: FileNames<'a>,
    /// How the formula is read.
    pub mode: Mode,
    /// The file of the variables' order, if one is named.
    pub order: Option<&'a str>,
    pub plan: PlanSource<'a>,
    /// Whether the formula's parity equations are added up first.
    pub parity: bool,
    pub limits: Limits,
    /// Whether progress is told.
    pub progress: bool,
}

/// What is to be judged.
#[derive(Clone, Copy)]
pub struct CheckTask<'a> {
    pub files: FileNames<'a>,
    /// The format of the proof.
    pub format: ProofFormat,
    /// How the formula is read.
    pub mode: Mode,
    /// Whether progress is told.
    pub progress: bool,
}

/// Why a command line asks for no command.
#[derive(Drop)]
pub enum Refusal {
    /// It asks for help, or for the version, which is this text.
    Help(String),
    /// It is invalid.
    Usage,
    OutOfMemory,
}

/// The command that these words ask for; the program's own name is the first.
pub fn read_words(alloc: Global, words: &[String]) -> Result<Asked<'_>, Refusal>
    ensures meant { MatchResult result (λ asked. command (map string_bytes words.now) ≡ Some (command_of asked))
        (IsRefusal (map string_bytes words.now)) }
    ensures limits { IfOk result (λ asked. AreLimits (limits_of (command_of asked))) }
    ensures size { IfOk result (λ asked. IfSome (size_of (command_of asked)) IsSize) }
{
    match parser(alloc) {
        Ok(parser) => answer_to(alloc, parser.try_get_matches_from(words)),
        Err(_) => Err(Refusal::OutOfMemory),
    }
}

// What the parser's answer to the words comes to. Want of memory is the parser's own, or comes where a text is due.
fn answer_to<'a>(
    alloc: Global,
    parsed: Result<ArgMatches<'a>, clap::Error>,
) -> Result<Asked<'a>, Refusal>
    ensures taken { IfOk parsed.entry (λ matches. IsTaken (subcommand_rows_of matches) result) }
    ensures refused { IfErr parsed.entry (λ error. IsErrAnd result (IsRefusalOf (kind_of error))) }
    ensures within { IfOk result (λ asked. IsWithin (command_of asked)) }
{
    match parsed {
        Ok(matches) => asked_of(&matches),
        Err(error) => Err(refusal_of(alloc, &error)),
    }
}

// The command of the words that the parser took; else they are invalid, whatever memory there is.
fn asked_of<'a>(matches: &ArgMatches<'a>) -> Result<Asked<'a>, Refusal>
    ensures meant { IsTaken (subcommand_rows_of matches.now) result }
    ensures within { IfOk result (λ asked. IsWithin (command_of asked)) }
{
    match subcommand_of(matches) {
        Some(asked) => Ok(asked),
        None => Err(Refusal::Usage),
    }
}

fn subcommand_of<'a>(matches: &ArgMatches<'a>) -> Option<Asked<'a>>
    ensures meant { MatchOption result (taken_means (subcommand_rows_of matches.now) ≡ Misuse)
        (λ asked. taken_means (subcommand_rows_of matches.now) ≡ Asks (command_of asked)) }
    ensures within { IfSome result (λ asked. IsWithin (command_of asked)) }
{
    match matches.subcommand() {
        Some((name, values)) => command_named(name, values),
        None => None,
    }
}

// The command of this name, with its values.
fn command_named<'a>(name: &str, values: &ArgMatches<'a>) -> Option<Asked<'a>>
    ensures meant { MatchOption result (command_means name.now (rows_of (found_of values.now)) ≡ Misuse)
        (λ asked. command_means name.now (rows_of (found_of values.now)) ≡ Asks (command_of asked)) }
    ensures within { IfSome result (λ asked. IsWithin (command_of asked)) }
{
    if name == "solve" {
        solve_asked(values)
    } else if name == "check" {
        check_asked(values)
    } else if name == "order" {
        order_asked(values)
    } else if name == "ask" {
        ask_asked(values)
    } else {
        rewrite_command(name, values)
    }
}

// The command of this name that makes another proof, with its values, or the one about a board.
fn rewrite_command<'a>(name: &str, values: &ArgMatches<'a>) -> Option<Asked<'a>>
    ensures meant { MatchOption result (rewrite_means name.now (rows_of (found_of values.now)) ≡ Misuse)
        (λ asked. rewrite_means name.now (rows_of (found_of values.now)) ≡ Asks (command_of asked)) }
    ensures within { IfSome result (λ asked. IsWithin (command_of asked)) }
{
    if name == "drat" {
        drat_asked(values)
    } else if name == "lrat" {
        lrat_asked(values)
    } else if name == "trim" {
        trim_asked(values)
    } else {
        board_command(name, values)
    }
}

// The command about a board of this name, with its values.
fn board_command<'a>(name: &str, values: &ArgMatches<'a>) -> Option<Asked<'a>>
    ensures meant { MatchOption result (board_means name.now (rows_of (found_of values.now)) ≡ Misuse)
        (λ asked. board_means name.now (rows_of (found_of values.now)) ≡ Asks (command_of asked)) }
    ensures within { IfSome result (λ asked. IsWithin (command_of asked)) }
{
    if name == "bench" {
        bench_asked(values)
    } else if name == "make" {
        make_asked(values)
    } else {
        None
    }
}

fn solve_asked<'a>(values: &ArgMatches<'a>) -> Option<Asked<'a>>
    ensures meant { MatchOption result (solve_means (rows_of (found_of values.now)) ≡ Misuse)
        (λ asked. solve_means (rows_of (found_of values.now)) ≡ Asks (command_of asked)) }
    ensures within { IfSome result (λ asked. IsWithin (command_of asked)) }
{
    let files = names_among(values)?;
    let mode = mode_given(values.get_str("lax"));
    let order = values.get_str("order");
    let plan = plan_among(values)?;
    let limits = limits_among(values)?;
    let progress = flag_among(values, "progress");
    let parity = flag_among(values, "parity");
    Some(Asked::Solve(SolveTask {
        files,
        mode,
        order,
        plan,
        parity,
        limits,
        progress,
    }))
}

fn check_asked<'a>(values: &ArgMatches<'a>) -> Option<Asked<'a>>
    ensures meant { MatchOption result (check_means (rows_of (found_of values.now)) ≡ Misuse)
        (λ asked. check_means (rows_of (found_of values.now)) ≡ Asks (command_of asked)) }
    ensures within { IfSome result (λ asked. IsWithin (command_of asked)) }
{
    let (formula, proof) = two_names(
        values.get_str("FILE"),
        values.get_str("PROOF"),
        None,
        None,
        None,
    )?;
    let any_order = flag_among(values, "any-order");
    let format = format_given(any_order, values.get_str("format"))?;
    let mode = mode_given(values.get_str("lax"));
    let progress = flag_among(values, "progress");
    let files = FileNames { formula, proof };
    Some(Asked::Check(CheckTask {
        files,
        format,
        mode,
        progress,
    }))
}

// What a refusal of the parser is; the text of help, or of the version, is made whole.
fn refusal_of(alloc: Global, error: &clap::Error) -> Refusal
    ensures { IsRefusalOf (kind_of error.now) result }
{
    match error.kind() {
        ErrorKind::DisplayHelp | ErrorKind::DisplayVersion => match error.to_string(alloc) {
            Ok(text) => Refusal::Help(text),
            Err(_) => Refusal::OutOfMemory,
        },
        ErrorKind::OutOfMemory => Refusal::OutOfMemory,
        _ => Refusal::Usage,
    }
}

/// The words of the command line, in a list: all that come, in turn.
pub fn gather<I: Iterator<Item = String> + Drop>(
    alloc: Global,
    words: I,
) -> Result<Vec<String>, OutOfMemory>
    requires { I.can_next words × IsFinite (I.remaining words) }
    ensures { IfOk result (λ list. WholeRun I.next_gives words (λ run. list.items ≡ run.items)) }
{
    match words.collect(alloc) {
        Ok(list) => Ok(list),
        Err(_) => Err(OutOfMemory),
    }
}
