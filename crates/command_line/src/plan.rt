// What options of the command line give a plan by.
ghost use Rattle.std.specs.Prelude.{◌≡◌, option_map};
ghost use Rattle.clap.specs.Words.{found_of, rows_of};
ghost use Rattle.command_line.specs.Command.{plan_among, plan_given, plan_named};
ghost use Rattle.command_line.specs.Reading.{planned_of, text_of};

use crate::mode::is_set;
use clap::ArgMatches;

/// A plan that has a name.
#[derive(Clone, Copy)]
pub enum PlanName {
    /// Variables are quantified in their order, each as soon as all terms that hold it are conjoined.
    Bucket,
    /// The clauses are conjoined one by one, and no variable is quantified.
    Conjoin,
}

/// What gives a plan.
#[derive(Clone, Copy)]
pub enum PlanSource<'a> {
    /// Its name.
    Name(PlanName),
    /// The schedule in the file of this name.
    Schedule(&'a str),
    /// The bucket plan by the order in the file of this name.
    Buckets(&'a str),
    /// The bucket plan by an order that trial runs find.
    Search,
}

const DEFAULT_PLAN: PlanName = PlanName::Bucket;

/// What gives the plan, among these values.
pub fn plan_among<'a>(values: &ArgMatches<'a>) -> Option<PlanSource<'a>>
    ensures { option_map planned_of result ≡ plan_among (rows_of (found_of values.now)) }
{
    plan_given(
        values.get_str("plan"),
        values.get_str("schedule"),
        values.get_str("buckets"),
        is_set(values.get_str("search")),
    )
}

// What gives the plan: the option of its name, that of a schedule's file, that of an order's, or the flag of the search; the default
// without them. None where two of them are there, or where no plan has that name.
fn plan_given<'a>(
    name: Option<&str>,
    schedule: Option<&'a str>,
    buckets: Option<&'a str>,
    search: bool,
) -> Option<PlanSource<'a>>
    ensures { option_map planned_of result ≡ plan_given (text_of name.entry) (text_of schedule.entry) (text_of buckets.entry) search }
{
    match (name, schedule, buckets, search) {
        (None, None, None, false) => Some(PlanSource::Name(DEFAULT_PLAN)),
        (Some(name), None, None, false) => Some(PlanSource::Name(plan_named(name)?)),
        (None, Some(file), None, false) => Some(PlanSource::Schedule(file)),
        (None, None, Some(file), false) => Some(PlanSource::Buckets(file)),
        (None, None, None, true) => Some(PlanSource::Search),
        _ => None,
    }
}

pub(crate) fn plan_named(name: &str) -> Option<PlanName>
    ensures { result ≡ plan_named name.now }
{
    if name == "bucket" {
        Some(PlanName::Bucket)
    } else if name == "conjoin" {
        Some(PlanName::Conjoin)
    } else {
        None
    }
}
