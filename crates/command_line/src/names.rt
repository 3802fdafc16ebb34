// The names of the files that a command is given.
ghost use Rattle.std.specs.Prelude.{◌≡◌, [], ◌∷◌, MatchOption, None, Some};
ghost use Rattle.std.specs.List.{list_any};
ghost use Rattle.clap.specs.Words.{found_of, rows_of};
ghost use Rattle.command_line.specs.Command.{names_among, names_differ, same_name, two_names};
ghost use Rattle.command_line.specs.Reading.{text_of};

use clap::ArgMatches;

/// The files that a command is given: the formula's, and the proof's.
#[derive(Clone, Copy)]
pub struct FileNames<'a> {
    pub formula: &'a str,
    pub proof: &'a str,
}

/// The names of the files among these values.
pub fn names_among<'a>(values: &ArgMatches<'a>) -> Option<FileNames<'a>>
    ensures { MatchOption result (names_among (rows_of (found_of values.now)) ≡ None)
        (λ files. names_among (rows_of (found_of values.now)) ≡ Some (files.formula.now, files.proof.now)) }
{
    let (formula, proof) = two_names(
        values.get_str("FILE"),
        values.get_str("proof"),
        values.get_str("order"),
        values.get_str("schedule"),
        values.get_str("buckets"),
    )?;
    Some(FileNames { formula, proof })
}

/// The names of a formula's file and of another one, where both are there; no two of all these files may have the same name.
pub fn two_names<'a>(
    file: Option<&'a str>,
    other: Option<&'a str>,
    order: Option<&str>,
    schedule: Option<&str>,
    buckets: Option<&str>,
) -> Option<(&'a str, &'a str)>
    ensures { MatchOption result (two_names (text_of file.entry) (text_of other.entry) (text_of order.entry ∷ text_of schedule.entry
        ∷ text_of buckets.entry ∷ []) ≡ None)
        (λ names. two_names (text_of file.entry) (text_of other.entry) (text_of order.entry ∷ text_of schedule.entry
        ∷ text_of buckets.entry ∷ []) ≡ Some (names.0.now, names.1.now)) }
{
    if !names_differ(file, other, order, schedule, buckets) {
        return None;
    }
    match (file, other) {
        (Some(file), Some(other)) => Some((file, other)),
        _ => None,
    }
}

fn names_differ(
    file: Option<&str>,
    other: Option<&str>,
    order: Option<&str>,
    schedule: Option<&str>,
    buckets: Option<&str>,
) -> bool
    ensures { result ≡ names_differ (text_of file.entry ∷ text_of other.entry ∷ text_of order.entry ∷ text_of schedule.entry
        ∷ text_of buckets.entry ∷ []) }
{
    !(same_name(file, other)
        || is_among(file, order, schedule, buckets)
        || is_among(other, order, schedule, buckets)
        || is_among(order, schedule, buckets, None)
        || same_name(schedule, buckets))
}

// Whether the first file is named as one of the three others.
fn is_among(
    file: Option<&str>,
    first: Option<&str>,
    second: Option<&str>,
    third: Option<&str>,
) -> bool
    ensures { result ≡ list_any (same_name (text_of file.entry)) (text_of first.entry ∷ text_of second.entry ∷ text_of third.entry ∷ []) }
{
    same_name(file, first) || same_name(file, second) || same_name(file, third)
}

// Whether both files are named, and by the same name.
fn same_name(first: Option<&str>, second: Option<&str>) -> bool
    ensures { result ≡ same_name (text_of first.entry) (text_of second.entry) }
{
    match (first, second) {
        (Some(first), Some(second)) => first == second,
        _ => false,
    }
}
