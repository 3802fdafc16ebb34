// The command that writes an order of a formula's variables.
ghost use Rattle.std.specs.Prelude.{◌≡◌, IfSome, MatchOption};
ghost use Rattle.clap.specs.Words.{found_of, rows_of};
ghost use Rattle.command_line.specs.Command.{Asks, Misuse, order_means};
ghost use Rattle.command_line.specs.Reading.{IsWithin, command_of};

use crate::method::{OrderMethod, method_named};
use crate::mode::{flag_among, mode_given};
use crate::names::two_names;
use crate::words::Asked;
use clap::ArgMatches;
use dimacs_reader::Mode;

/// The formula whose variables are ordered, how, and where the order goes.
#[derive(Clone, Copy)]
pub struct OrderTask<'a> {
    /// The file of the formula.
    pub formula: &'a str,
    pub method: OrderMethod,
    /// How the formula is read.
    pub mode: Mode,
    /// The file that the order is written to.
    pub out: &'a str,
    /// Whether progress is told.
    pub progress: bool,
}

pub fn order_asked<'a>(values: &ArgMatches<'a>) -> Option<Asked<'a>>
    ensures meant { MatchOption result (order_means (rows_of (found_of values.now)) ≡ Misuse)
        (λ asked. order_means (rows_of (found_of values.now)) ≡ Asks (command_of asked)) }
    ensures within { IfSome result (λ asked. IsWithin (command_of asked)) }
{
    let (formula, out) = two_names(
        values.get_str("FILE"),
        values.get_str("out"),
        None,
        None,
        None,
    )?;
    let method = method_named(values.get_str("by")?)?;
    let mode = mode_given(values.get_str("lax"));
    let progress = flag_among(values, "progress");
    Some(Asked::Order(OrderTask {
        formula,
        method,
        mode,
        out,
        progress,
    }))
}
