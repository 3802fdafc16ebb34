// The limits that options of the command line give.
ghost use Rattle.std.specs.Prelude.{◌≡◌, ◌≤◌, IfSome};
ghost use Rattle.schedule_plan.specs.Limits.{AreLimits};
ghost use Rattle.clap.specs.Words.{found_of, rows_of};
ghost use Rattle.command_line.specs.Command.{limits_among, limits_given, number_given, number_within};
ghost use Rattle.command_line.specs.Reading.{text_of};

use clap::ArgMatches;
use schedule_plan::Limits;

const DEFAULT_NODES: u64 = 10_000_000;

pub(crate) const GREATEST_NODES: u64 = 100_000_000;

pub(crate) const GREATEST_IDS: u64 = 1_000_000_000_000_000;

const DEFAULT_IDS: u64 = GREATEST_IDS;

pub(crate) const LEAST_CACHE: u64 = 1;

const DEFAULT_CACHE: u64 = 1_000_000;

pub(crate) const GREATEST_CACHE: u64 = 100_000_000;

const MOST_DIGITS: usize = 18;

/// The limits that options among these values give.
pub fn limits_among(values: &ArgMatches<'_>) -> Option<Limits>
    ensures given { result ≡ limits_among (rows_of (found_of values.now)) }
    ensures range { IfSome result AreLimits }
{
    limits_given(
        values.get_str("max-nodes"),
        values.get_str("max-ids"),
        values.get_str("cache"),
    )
}

// The limits that these options give; None where one of them is no number, or out of its range.
fn limits_given(
    max_nodes: Option<&str>,
    max_ids: Option<&str>,
    cache: Option<&str>,
) -> Option<Limits>
    ensures given { result ≡ limits_given (text_of max_nodes.entry) (text_of max_ids.entry) (text_of cache.entry) }
    ensures range { IfSome result AreLimits }
{
    let max_nodes = number_given(max_nodes, 0, DEFAULT_NODES, GREATEST_NODES)?;
    let max_ids = number_given(max_ids, 0, DEFAULT_IDS, GREATEST_IDS)?;
    let cache = number_given(cache, LEAST_CACHE, DEFAULT_CACHE, GREATEST_CACHE)?;
    Some(Limits {
        cache: cache as u32,
        max_nodes: max_nodes as u32,
        max_ids,
    })
}

// The number that an option gives, or the default without it.
fn number_given(text: Option<&str>, least: u64, default: u64, greatest: u64) -> Option<u64>
    requires { (least ≤ default) × (default ≤ greatest) }
    ensures given { result ≡ number_given least default greatest (text_of text.entry) }
    ensures range { IfSome result (λ number. (least ≤ number) × (number ≤ greatest)) }
{
    match text {
        Some(text) => number_within(text, least, greatest),
        None => Some(default),
    }
}

/// A number of 1 to 18 digits. `parse` alone would take a plus sign, and digits without end where they are zeros, so both are
/// tested first.
pub fn number_within(text: &str, least: u64, greatest: u64) -> Option<u64>
    ensures given { result ≡ number_within least greatest text.now }
    ensures range { IfSome result (λ number. (least ≤ number) × (number ≤ greatest)) }
{
    if text.len() > MOST_DIGITS || text.starts_with('+') {
        return None;
    }
    match text.parse::<u64>() {
        Ok(number) if least <= number && number <= greatest => Some(number),
        _ => None,
    }
}
